//! One call on capabilities.

ghost use Rattle.std.specs.Prelude.{◌<◌, IsOk, IfOk};
ghost use Rattle.seq_lookups.specs.spk_nums.specs.CallLimits.{InLimits};
ghost use Rattle.seq_lookups.specs.seq_state.specs.kernel_rules.specs.CallRelation.{change_of};
ghost use Rattle.seq_lookups.specs.seq_state.specs.Maps.{state_of};
ghost use Rattle.seq_lookups.specs.Carried.{IsCarriedOut};
ghost use Rattle.seq_lookups.specs.Ranges.{IsInRange};
ghost use Rattle.seq_caps.specs.Own.{IsCapCall};

use crate::carrying::carry_out;
use crate::own_causes::causes;
use call_plans::plan_of;
use seq_lookups::seq_state::SeqKernel;
use seq_lookups::spk_nums::{Call, CoreNo, Memory, Reply};
use seq_plans::{first_cause, resolve};
use std::alloc::Global;

/// Carries out a call on capabilities of a core of the machine, its numbers within their limits: answers the reply, the first
/// cause in order or else `ok`, and makes the call's change. A refused call changes nothing. No memory is taken.
pub fn step(_alloc: Global, k: &mut SeqKernel, core: CoreNo, call: &Call) -> Result<Reply, Memory>
    requires own { IsCapCall call.now }
    requires limits { InLimits call.now }
    requires core { core < (state_of k.old).limits.cores }
    ensures answers { IsOk result }
    ensures exact { IsInRange (state_of k.old) core call.now
        → IfOk result (λ r. IsCarriedOut (state_of k.old) (change_of (state_of k.old) core call.now) r k.new) }
{
    let plan = plan_of(call);
    match resolve(k, core, &plan) {
        Err(refusal) => Ok(refusal),
        Ok(looked) => {
            let own = causes(k, core, call, &looked);
            match first_cause(k, core, &own) {
                Some(refusal) => Ok(refusal),
                None => Ok(Reply::Ok(carry_out(k, core, call, &looked))),
            }
        }
    }
}
