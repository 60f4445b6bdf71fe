//! Whether a core may act: the component in which it works lives, or was killed while the core was in its call.

ghost use Rattle.std.specs.Prelude.{◌≡◌, ◌<◌};
ghost use Rattle.seq_state.specs.kernel_rules.specs.Life.{is_live_in, is_dead_in, may_act};
ghost use Rattle.seq_state.specs.Parts.{number_of, comp_fields_of};
ghost use Rattle.seq_state.specs.Maps.{state_of};

use crate::objects::comp_of;
use seq_state::spk_nums::CoreNo;
use seq_state::{Liveness, SeqKernel, Thing};

/// Whether a liveness number is live in an epoch.
pub fn is_live_in(number: &Liveness, epoch: u32) -> bool
    ensures { result ≡ is_live_in (number_of number.now) epoch }
{
    match number {
        Liveness::Unused => false,
        Liveness::Live { epoch: live, .. } => u32::from(*live) == epoch,
        Liveness::Dead { .. } => false,
    }
}

/// Whether a liveness number is dead after this epoch.
fn is_dead_in(number: &Liveness, epoch: u16) -> bool
    ensures { result ≡ is_dead_in (number_of number.now) epoch }
{
    match number {
        Liveness::Unused => false,
        Liveness::Live { .. } => false,
        Liveness::Dead { epoch: last } => *last == epoch,
    }
}

/// Whether a core of the machine may act: the liveness number of the component in which it works is live in that component's epoch, or
/// dead after it, and the core is still in the call in which the kill met it.
pub fn may_act(k: &SeqKernel, core: CoreNo) -> bool
    requires { core < (state_of k.now).limits.cores }
    ensures { result ≡ may_act (state_of k.now) core }
{
    let comp = comp_of(k, core);
    let number = k.number(comp.number);
    is_live_in(&number, u32::from(comp.epoch))
        || (is_dead_in(&number, comp.epoch) && k.pending(Thing::NumberOf(comp.number), core).waits)
}
