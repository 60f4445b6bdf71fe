//! The families of calls, and a call decided by its family.

ghost use Rattle.std.specs.Prelude.{◌≡◌, ◌<◌, IsOk, IfOk};
ghost use Rattle.seq_caps.specs.spk_nums.specs.CallLimits.{InLimits};
ghost use Rattle.seq_caps.specs.seq_lookups.specs.seq_state.specs.kernel_rules.specs.CallRelation.{change_of};
ghost use Rattle.seq_caps.specs.seq_lookups.specs.seq_state.specs.Maps.{state_of};
ghost use Rattle.seq_caps.specs.seq_lookups.specs.Carried.{IsCarriedOut};
ghost use Rattle.seq_caps.specs.seq_lookups.specs.Ranges.{IsInRange};
ghost use Rattle.plain_kernel.specs.Families.{IsOf};

use seq_caps::seq_lookups::seq_state::SeqKernel;
use seq_caps::spk_nums::{Call, CoreNo, Memory, Reply};
use std::alloc::Global;

/// The family of a call.
#[derive(Clone, Copy)]
pub enum Family {
    /// On capabilities, and `make`.
    Caps,
    /// On frames, mappings and translations.
    Memory,
    /// On threads, invocation and time.
    Time,
}

/// The family that a call is of.
pub fn family_of(call: &Call) -> Family
    ensures { IsOf result call.now }
{
    match call {
        Call::Look { .. }
        | Call::Copy { .. }
        | Call::Remove { .. }
        | Call::Grow { .. }
        | Call::Shrink { .. }
        | Call::Make { .. }
        | Call::Part { .. } => Family::Caps,
        Call::Retype { .. }
        | Call::Map { .. }
        | Call::Unmap { .. }
        | Call::Touch { .. }
        | Call::Flush => Family::Memory,
        _ => Family::Time,
    }
}

/// Decides a call of a core by its family: it is carried out, or refused with the first refusal of its rule.
pub fn decide(alloc: Global, k: &mut SeqKernel, core: CoreNo, call: &Call) -> Result<Reply, Memory>
    requires limits { InLimits call.now }
    requires core { core < (state_of k.old).limits.cores }
    ensures answers { IsOk result }
    ensures exact { IsInRange (state_of k.old) core call.now
        → IfOk result (λ r. IsCarriedOut (state_of k.old) (change_of (state_of k.old) core call.now) r k.new) }
{
    match family_of(call) {
        Family::Caps => seq_caps::step(alloc, k, core, call),
        Family::Memory => seq_memory::step(alloc, k, core, call),
        Family::Time => seq_time::step(alloc, k, core, call),
    }
}
