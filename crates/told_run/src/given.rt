//! Lists and an order, watched.
ghost use Rattle.std.specs.Prelude.{◌≡◌, ◌<◌, OnOk, All, map, length};
ghost use Rattle.lone_kernel.specs.Machine.{AreLists};
ghost use Rattle.told_run.specs.GivenWatched.{WatchedFrom};

use crate::orders::{follow, run_rest};
use crate::watcher::Watcher;
use lone_kernel::LoneKernel;
use spk_nums::{Call, Item, Memory, Setup};
use std::alloc::Global;

/// Takes the items of the order, then runs each core out, as `replay` does, and tells the watcher each step. There is a list for each
/// core, each of fewer than 2^32 calls that are within their limits. A watcher that has seen nothing before has then seen the whole
/// trace that this makes. It fails only where memory runs out.
pub fn watch<W: Watcher>(
    alloc: Global,
    setup: &Setup,
    lists: Vec<Vec<Call>>,
    items: &[Item],
    watcher: &mut W,
) -> Result<(), Memory>
    requires can_run { AreLists (map (λ v. v.items) lists.items) }
    requires one_each { length lists.items ≡ setup.now.cores }
    requires named { All (λ item. item.core < setup.now.cores) items.now }
    ensures { OnOk result (WatchedFrom W.has_seen setup.now (map (λ v. v.items) lists.items) items.now watcher.old watcher.new) }
{
    let _cores = setup.cores();
    let mut kernel = LoneKernel::boot(alloc, setup, lists)?;
    follow(&mut kernel, watcher, items)?;
    run_rest(&mut kernel, watcher, setup)?;
    Ok(())
}
