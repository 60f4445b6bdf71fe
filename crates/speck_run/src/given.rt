//! Lists and an order, taken as `replay` does.
ghost use Rattle.std.specs.Prelude.{◌≡◌, ◌<◌, IfOk, All, map, length, string_bytes};
ghost use Rattle.trace_run.specs.lone_kernel.specs.GivenSteps.{GivenSteps};
ghost use Rattle.trace_run.specs.lone_kernel.specs.Machine.{AreLists};

use crate::closed::tables;
use crate::orders::{follow, run_rest};
use crate::text::write_decisions;
use spk_nums::{Call, Item, Memory, Setup};
use std::alloc::Global;
use trace_run::lone_kernel::LoneKernel;

/// Takes the items of the order, then runs each core out, and answers the text of the trace that this makes: its reply
/// lines, then its tables. There is a list for each core, each of fewer than 2^32 calls that are within their limits;
/// it fails only where memory runs out.
pub fn replay(
    alloc: Global,
    setup: &Setup,
    lists: Vec<Vec<Call>>,
    items: &[Item],
) -> Result<String, Memory>
    requires can_run { AreLists (map (λ v. v.items) lists.items) }
    requires one_each { length lists.items ≡ setup.now.cores }
    requires named { All (λ item. item.core < setup.now.cores) items.now }
    ensures { IfOk result (λ text. GivenSteps setup.now (map (λ v. v.items) lists.items) items.now (string_bytes text)) }
{
    let _cores = setup.cores();
    let mut kernel = LoneKernel::boot(alloc, setup, lists)?;
    follow(&mut kernel, items);
    run_rest(&mut kernel, setup);
    let mut text = String::new(alloc);
    write_decisions(&mut text, kernel.lists(), kernel.decisions())?;
    let closed = kernel.close(alloc)?;
    let tables = tables(alloc, &closed)?;
    text.push_str(&tables)?;
    Ok(text)
}
