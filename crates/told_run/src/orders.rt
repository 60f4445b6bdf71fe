//! Orders over the machine for given orders, with each step told: the items of an order one after another, then each core to its
//! list's end.
ghost use Rattle.std.specs.Prelude.{◌≡◌, ◌<◌, OnOk, All};
ghost use Rattle.told_run.specs.Watching.{GoesByItem, GoesByItems, RunsCoreOut, RunsCoresOut};

use crate::moves::move_told;
use crate::watcher::Watcher;
use lone_kernel::{LoneKernel, Moved};
use spk_nums::{CoreNo, How, Item, Setup};
use std::alloc::AllocError;

fn take<W: Watcher>(kernel: &mut LoneKernel, watcher: &mut W, item: &Item) -> Result<(), AllocError>
    requires { item.now.core < kernel.old.setup.cores }
    ensures setup { kernel.new.setup ≡ kernel.old.setup }
    ensures lists { kernel.new.lists ≡ kernel.old.lists }
    ensures goes { OnOk result (GoesByItem W.has_seen record { machine = kernel.old; watcher = watcher.old }
        record { machine = kernel.new; watcher = watcher.new } item.now) }
{
    move_told(kernel, watcher, item.core, item.how)?;
    Ok(())
}

/// Takes the items of an order, one after another. An item of a core that is between calls and has finished its list does nothing.
pub fn follow<W: Watcher>(
    kernel: &mut LoneKernel,
    watcher: &mut W,
    items: &[Item],
) -> Result<(), AllocError>
    requires { All (λ item. item.core < kernel.old.setup.cores) items.now }
    ensures setup { kernel.new.setup ≡ kernel.old.setup }
    ensures lists { kernel.new.lists ≡ kernel.old.lists }
    ensures goes { OnOk result (GoesByItems W.has_seen record { machine = kernel.old; watcher = watcher.old }
        record { machine = kernel.new; watcher = watcher.new } items.now) }
{
    for item in items {
        take(kernel, watcher, item)?;
    }
    Ok(())
}

// Runs the core through its remaining calls.
fn run_out<W: Watcher>(
    kernel: &mut LoneKernel,
    watcher: &mut W,
    core: CoreNo,
) -> Result<(), AllocError>
    requires { core < kernel.old.setup.cores }
    ensures setup { kernel.new.setup ≡ kernel.old.setup }
    ensures lists { kernel.new.lists ≡ kernel.old.lists }
    ensures goes { OnOk result (RunsCoreOut W.has_seen record { machine = kernel.old; watcher = watcher.old }
        record { machine = kernel.new; watcher = watcher.new } core) }
{
    'going: loop {
        match move_told(kernel, watcher, core, How::Return)? {
            Moved::Went => {}
            Moved::Idle => return Ok(()),
        }
    }
}

/// Runs each core, from 0 upwards, through its remaining calls. The setup is the machine's.
pub fn run_rest<W: Watcher>(
    kernel: &mut LoneKernel,
    watcher: &mut W,
    setup: &Setup,
) -> Result<(), AllocError>
    requires { setup.now ≡ kernel.old.setup }
    ensures setup { kernel.new.setup ≡ kernel.old.setup }
    ensures lists { kernel.new.lists ≡ kernel.old.lists }
    ensures goes { OnOk result (RunsCoresOut W.has_seen record { machine = kernel.old; watcher = watcher.old }
        record { machine = kernel.new; watcher = watcher.new } kernel.old.setup.cores) }
{
    for core in 0..setup.cores() {
        run_out(kernel, watcher, CoreNo::new(core))?;
    }
    Ok(())
}
