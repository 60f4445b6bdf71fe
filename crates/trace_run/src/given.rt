//! Lists and an order, as a text of each step.
ghost use Rattle.std.specs.Prelude.{◌≡◌, ◌<◌, IfOk, All, map, length, string_bytes};
ghost use Rattle.told_run.specs.lone_kernel.specs.Machine.{AreLists};
ghost use Rattle.trace_run.specs.GivenTrace.{GivenTrace};

use crate::writing::Writing;
use spk_nums::{Call, Item, Memory, Setup};
use std::alloc::Global;
use told_run::watch;

/// Takes the items of the order, then runs each core out, as `replay` does, and answers the text of the trace that this makes: the head
/// of a script of this version, then a line for each event, in the comment after which stands each step since the line before. There is
/// a list for each core, each of fewer than 2^32 calls that are within their limits; it fails only where memory runs out.
pub fn trace(
    alloc: Global,
    version: u8,
    setup: &Setup,
    lists: Vec<Vec<Call>>,
    items: &[Item],
) -> Result<String, Memory>
    requires can_run { AreLists (map (λ v. v.items) lists.items) }
    requires one_each { length lists.items ≡ setup.now.cores }
    requires named { All (λ item. item.core < setup.now.cores) items.now }
    ensures { IfOk result (λ text. GivenTrace version setup.now (map (λ v. v.items) lists.items) items.now (string_bytes text)) }
{
    let mut writing = Writing::begin(alloc, version, setup)?;
    watch(alloc, setup, lists, items, &mut writing)?;
    Ok(writing.into_text())
}
