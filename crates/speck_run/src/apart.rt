//! Lists and an order, taken as `replay` does, and the worlds that are then apart.
ghost use Rattle.std.specs.Prelude.{◌≡◌, ◌<◌, IfOk, All, map, length, string_bytes};
ghost use Rattle.trace_run.specs.lone_kernel.specs.Machine.{AreLists};
ghost use Rattle.speck_run.specs.Worlds.{GivenWorlds};

use crate::closed::worlds_text;
use crate::orders::{follow, run_rest};
use spk_nums::{Call, Item, Memory, Setup};
use std::alloc::Global;
use trace_run::lone_kernel::LoneKernel;

/// Takes the items of the order, then runs each core out, and answers the lines that tell the worlds of the machine that are apart in
/// the end, and the gates between them. There is a list for each core, each of fewer than 2^32 calls that are within their limits; it
/// fails only where memory runs out.
pub fn worlds(
    alloc: Global,
    setup: &Setup,
    lists: Vec<Vec<Call>>,
    items: &[Item],
) -> Result<String, Memory>
    requires can_run { AreLists (map (λ v. v.items) lists.items) }
    requires one_each { length lists.items ≡ setup.now.cores }
    requires named { All (λ item. item.core < setup.now.cores) items.now }
    ensures { IfOk result (λ text. GivenWorlds setup.now (map (λ v. v.items) lists.items) items.now (string_bytes text)) }
{
    let _cores = setup.cores();
    let mut kernel = LoneKernel::boot(alloc, setup, lists)?;
    follow(&mut kernel, items);
    run_rest(&mut kernel, setup);
    let closed = kernel.close(alloc)?;
    let text = worlds_text(alloc, &closed)?;
    Ok(text)
}
