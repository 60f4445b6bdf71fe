//! Orders over the machine for given orders: the items of an order one after another, then each core to its list's end.
ghost use Rattle.std.specs.Prelude.{◌≡◌, ◌<◌, All};
ghost use Rattle.trace_run.specs.lone_kernel.specs.Machine.{IsFinished};
ghost use Rattle.speck_run.specs.Orders.{GoesByItem, GoesByItems, RunsCoreOut, RunsCoresOut};

use spk_nums::{CoreNo, Item, Setup};
use trace_run::lone_kernel::{LoneKernel, Moved};

fn take(kernel: &mut LoneKernel, item: &Item) -> Moved
    requires { item.now.core < kernel.old.setup.cores }
    ensures setup { kernel.new.setup ≡ kernel.old.setup }
    ensures lists { kernel.new.lists ≡ kernel.old.lists }
    ensures goes { GoesByItem kernel.old kernel.new item.now }
{
    kernel.go_on(item.core, item.how)
}

/// Takes the items of an order, one after another. An item of a core that is between calls and has finished its list does
/// nothing.
pub fn follow(kernel: &mut LoneKernel, items: &[Item])
    requires { All (λ item. item.core < kernel.old.setup.cores) items.now }
    ensures setup { kernel.new.setup ≡ kernel.old.setup }
    ensures lists { kernel.new.lists ≡ kernel.old.lists }
    ensures goes { GoesByItems kernel.old kernel.new items.now }
{
    for item in items {
        take(kernel, item);
    }
}

// Runs the core through its remaining calls.
fn run_out(kernel: &mut LoneKernel, core: CoreNo)
    requires { core < kernel.old.setup.cores }
    ensures setup { kernel.new.setup ≡ kernel.old.setup }
    ensures lists { kernel.new.lists ≡ kernel.old.lists }
    ensures goes { RunsCoreOut kernel.old kernel.new core }
{
    'going: while let Moved::Went = kernel.to_return(core) {}
}

/// Runs each core, from 0 upwards, through its remaining calls. The setup is the machine's.
pub fn run_rest(kernel: &mut LoneKernel, setup: &Setup)
    requires { setup.now ≡ kernel.old.setup }
    ensures setup { kernel.new.setup ≡ kernel.old.setup }
    ensures lists { kernel.new.lists ≡ kernel.old.lists }
    ensures goes { RunsCoresOut kernel.old kernel.new kernel.old.setup.cores }
{
    for core in 0..setup.cores() {
        run_out(kernel, CoreNo::new(core));
    }
}
