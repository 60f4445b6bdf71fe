//! Who watches the steps of a machine.

ghost use Rattle.std.specs.Prelude.{◌∷◌, OnOk};
ghost use Rattle.spk_nums.specs.Setting.{Setting};
ghost use Rattle.lone_kernel.specs.kernel_history.specs.Trace.{Step, Trace};
ghost use Rattle.told_run.specs.Watching.{IsNext};

use lone_kernel::step_views::StepMade;
use std::alloc::AllocError;

/// What is told each step of a machine, in the order of its trace.
pub trait Watcher {
    ghost use Rattle.std.specs.Prelude.{◌∷◌, OnOk};
    ghost use Rattle.spk_nums.specs.Setting.{Setting};
    ghost use Rattle.lone_kernel.specs.kernel_history.specs.Trace.{Step, Trace};
    ghost use Rattle.told_run.specs.Watching.{IsNext};

    // In a machine of this setting, what it was before the first step, a trace, and what it is after it.
    ghost has_seen: { Setting → Self → Trace → Self → Type 0 };

    /// Is told the next step. It fails only where memory runs out; what it is then is not said.
    fn tell(&mut self, made: &StepMade) -> Result<(), AllocError>
        ensures { OnOk result ((setup : Setting) (first : Self) (t : Trace) (e : Step) → IsNext setup t made.now e
            → has_seen setup first t self.old → has_seen setup first (e ∷ t) self.new) };
}
