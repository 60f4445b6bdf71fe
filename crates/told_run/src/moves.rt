//! Moves over the machine for given orders, one step after another, each of which is told.
ghost use Rattle.std.specs.Prelude.{◌≡◌, ◌<◌, ◌↔◌, OnOk, IfOk};
ghost use Rattle.lone_kernel.specs.Machine.{IsFinished, IsDone};
ghost use Rattle.lone_kernel.specs.Moves.{GoesFurther, calls_left};
ghost use Rattle.spk_nums.specs.Setting.{IsSetting};
ghost use Rattle.spk_nums.specs.declared.steps.How.TheVariants.{Return};
ghost use Rattle.told_run.specs.Watching.{GoesOnBy, IsOneStep, IsStretch, IsToldMove};

use crate::watcher::Watcher;
use lone_kernel::{LoneKernel, Moved};
use spk_nums::{CoreNo, How};
use std::alloc::AllocError;

// Makes one step of a core that has a turn, and tells it.
fn tell_step<W: Watcher>(
    kernel: &mut LoneKernel,
    watcher: &mut W,
    core: CoreNo,
) -> Result<(), AllocError>
    requires here { core < kernel.old.setup.cores }
    requires begins { IsFinished kernel.old core → ⊥ }
    requires setting { IsSetting kernel.old.setup }
    ensures setup { kernel.new.setup ≡ kernel.old.setup }
    ensures lists { kernel.new.lists ≡ kernel.old.lists }
    ensures goes { OnOk result (GoesOnBy W.has_seen record { machine = kernel.old; watcher = watcher.old }
        record { machine = kernel.new; watcher = watcher.new } (IsOneStep kernel.old core)) }
    ensures work { GoesFurther kernel.old kernel.new core }
{
    let Some(made) = kernel.step_told(core) else {
        unreachable!()
    };
    watcher.tell(&made)?;
    Ok(())
}

// Makes steps of the core until it is there, and tells each.
fn until<W: Watcher>(
    kernel: &mut LoneKernel,
    watcher: &mut W,
    core: CoreNo,
    how: How,
) -> Result<(), AllocError>
    requires here { core < kernel.old.setup.cores }
    requires begins { IsFinished kernel.old core → ⊥ }
    requires undone { IsDone how kernel.old core → ⊥ }
    requires setting { IsSetting kernel.old.setup }
    ensures setup { kernel.new.setup ≡ kernel.old.setup }
    ensures lists { kernel.new.lists ≡ kernel.old.lists }
    ensures goes { OnOk result (GoesOnBy W.has_seen record { machine = kernel.old; watcher = watcher.old }
        record { machine = kernel.new; watcher = watcher.new } (IsStretch kernel.old how core)) }
    ensures fewer { OnOk result (how ≡ Return → calls_left kernel.new core < calls_left kernel.old core) }
{
    'going: loop {
        tell_step(kernel, watcher, core)?;
        if kernel.is_there(core, how) {
            return Ok(());
        }
    }
}

/// Takes the core this far, as an item of an order does, and tells each step. Idle comes exactly where it is between calls and its
/// list is finished.
pub fn move_told<W: Watcher>(
    kernel: &mut LoneKernel,
    watcher: &mut W,
    core: CoreNo,
    how: How,
) -> Result<Moved, AllocError>
    requires { core < kernel.old.setup.cores }
    ensures setup { kernel.new.setup ≡ kernel.old.setup }
    ensures lists { kernel.new.lists ≡ kernel.old.lists }
    ensures idle { IfOk result (λ moved. (moved ≡ Moved.Idle) ↔ IsFinished kernel.old core) }
    ensures goes { IfOk result (λ moved. IsToldMove W.has_seen moved how record { machine = kernel.old; watcher = watcher.old }
        record { machine = kernel.new; watcher = watcher.new } core) }
    ensures fewer { OnOk result (how ≡ Return → (IsFinished kernel.old core → ⊥)
        → calls_left kernel.new core < calls_left kernel.old core) }
{
    let _cores = kernel.setup().cores();
    if kernel.is_finished(core) {
        return Ok(Moved::Idle);
    }
    if !kernel.is_done(core, how) {
        until(kernel, watcher, core, how)?;
    }
    Ok(Moved::Went)
}
