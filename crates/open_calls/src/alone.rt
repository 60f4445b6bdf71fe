//! The reply to a call that is made alone.

ghost use Rattle.std.specs.Prelude.{◌≡◌, ◌<◌, IfOk};
ghost use Rattle.spk_nums.specs.CallLimits.{InLimits};
ghost use Rattle.plain_kernel.specs.seq_state.specs.kernel_rules.specs.Alone.{alone};
ghost use Rattle.plain_kernel.specs.seq_state.specs.Maps.{state_of};
ghost use Rattle.plain_kernel.specs.seq_lookups.specs.Ranges.{IsInRange};

use plain_kernel::{acts, are_spent, decide};
use seq_state::SeqKernel;
use spk_nums::{Call, CoreNo, Memory, Reply};
use std::alloc::Global;

/// The reply to a call of a core that is in it: that where no other core is in a call. What the kernel then stands for is not said.
pub fn alone(alloc: Global, k: &mut SeqKernel, core: CoreNo, call: &Call) -> Result<Reply, Memory>
    requires limits { InLimits call.now }
    requires core { core < (state_of k.old).limits.cores }
    ensures { IsInRange (state_of k.old) core call.now → IfOk result (λ r. r ≡ alone (state_of k.old) core call.now) }
{
    if are_spent(k, core) {
        return Ok(Reply::CallsSpent);
    }
    if !acts(k, core, call) {
        return Ok(Reply::Dead);
    }
    decide(alloc, k, core, call)
}
