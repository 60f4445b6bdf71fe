//! Lists and an order, as the origins of what is then held.
ghost use Rattle.std.specs.Prelude.{◌≡◌, ◌<◌, IfOk, All, map, length, string_bytes};
ghost use Rattle.told_run.specs.lone_kernel.specs.Machine.{AreLists};
ghost use Rattle.origins_run.specs.GivenOrigins.{GivenOrigins};

use crate::tracking::Tracking;
use origin_lines::push_origins;
use spk_nums::{Call, Item, Memory, Setup};
use std::alloc::Global;
use told_run::watch;

/// Takes the items of the order, then runs each core out, as `replay` does, and answers the lines that tell where each capability came
/// from that is held in the end. There is a list for each core, each of fewer than 2^29 calls that are within their limits, so that the
/// numbers of decisions are below 2^32; it fails only where memory runs out.
pub fn origins(
    alloc: Global,
    setup: &Setup,
    lists: Vec<Vec<Call>>,
    items: &[Item],
) -> Result<String, Memory>
    requires can_run { AreLists (map (λ v. v.items) lists.items) }
    requires few { All (λ calls. length calls < 536870912) (map (λ v. v.items) lists.items) }
    requires one_each { length lists.items ≡ setup.now.cores }
    requires named { All (λ item. item.core < setup.now.cores) items.now }
    ensures { IfOk result (λ text. GivenOrigins setup.now (map (λ v. v.items) lists.items) items.now (string_bytes text)) }
{
    let mut tracking = Tracking::start(alloc, setup)?;
    watch(alloc, setup, lists, items, &mut tracking)?;
    let mut text = String::new(alloc);
    push_origins(alloc, &mut text, tracking.origins())?;
    Ok(text)
}
