//! One call, entered, decided and returned from.

ghost use Rattle.std.specs.Prelude.{◌≡◌, ◌<◌, ◌≤◌, ◌-◌, ◌^◌, IsOk, IfOk};
ghost use Rattle.seq_caps.specs.spk_nums.specs.CallLimits.{InLimits};
ghost use Rattle.seq_caps.specs.seq_lookups.specs.seq_state.specs.kernel_rules.specs.GracePeriods.{returned};
ghost use Rattle.seq_caps.specs.seq_lookups.specs.seq_state.specs.kernel_rules.specs.Life.{asks_life, acts};
ghost use Rattle.seq_caps.specs.seq_lookups.specs.seq_state.specs.kernel_rules.specs.CallRelation.{are_calls_spent, counted};
ghost use Rattle.seq_caps.specs.seq_lookups.specs.seq_state.specs.Maps.{state_of};
ghost use Rattle.seq_caps.specs.seq_lookups.specs.seq_state.specs.Representation.{Represents};
ghost use Rattle.plain_kernel.specs.Step.{StepsExactly};

use crate::families::decide;
use seq_caps::seq_lookups::may_act;
use seq_caps::seq_lookups::seq_state::{Core, SeqKernel};
use seq_caps::spk_nums::{Call, CoreNo, Memory, Reply};
use std::alloc::Global;

/// Whether a core has made as many calls as its limit.
pub fn are_spent(k: &SeqKernel, core: CoreNo) -> bool
    requires { core < (state_of k.now).limits.cores }
    ensures value { result ≡ are_calls_spent (state_of k.now) core }
    ensures limit { (state_of k.now).limits.calls ≤ 2 ^ 40 - 1 }
{
    k.calls() <= k.core(core).counted
}

/// Whether a call asks first that its core may act.
fn asks_life(call: &Call) -> bool
    ensures { result ≡ asks_life call.now }
{
    match call {
        Call::Flush | Call::Ret | Call::Tick { .. } => false,
        _ => true,
    }
}

/// Whether a core may make a call: it may act, or the call does not ask for it.
pub fn acts(k: &SeqKernel, core: CoreNo, call: &Call) -> bool
    requires { core < (state_of k.now).limits.cores }
    ensures { result ≡ acts (state_of k.now) core call.now }
{
    !asks_life(call) || may_act(k, core)
}

/// Counts one more call of a core.
fn count(k: &mut SeqKernel, core: CoreNo)
    requires { core < (state_of k.old).limits.cores }
    ensures value { ((state_of k.old).core core).counted < 2 ^ 40 - 1 → state_of k.new ≡ counted (state_of k.old) core }
    ensures limits { (state_of k.new).limits ≡ (state_of k.old).limits }
{
    let now = *k.core(core);
    let next = Core {
        counted: now.counted.saturating_add(1),
        ..now
    };
    k.set_core(core, next);
}

/// Counts the call of a core, and returns from it. Of a core that the machine does not have nothing is counted.
fn finish(k: &mut SeqKernel, core: CoreNo)
    ensures { core < (state_of k.old).limits.cores → ((state_of k.old).core core).counted < 2 ^ 40 - 1
        → Represents k.new (returned (counted (state_of k.old) core) core) }
{
    if core.number() < k.cores() {
        count(k, core);
        k.leave(core);
    }
}

/// Makes a call of a core of the machine that is in no call, its numbers within their limits: enters it, decides it, counts it
/// and returns. The reply is `calls-spent`, not counted, exactly where the core has made as many calls as its limit; else `dead`,
/// of any call but `ret`, `flush` and `tick`, where the component in which the core works does not live; else it is the first
/// refusal in order, or `ok` with its value. A refused call changes nothing but the count. No memory is taken.
pub fn plain_step(
    alloc: Global,
    k: &mut SeqKernel,
    core: CoreNo,
    call: &Call,
) -> Result<Reply, Memory>
    requires limits { InLimits call.now }
    requires core { core < (state_of k.old).limits.cores }
    ensures answers { IsOk result }
    ensures exact { IfOk result (λ r. StepsExactly k.old core call.now r k.new) }
{
    k.enter(core);
    if are_spent(k, core) {
        k.leave(core);
        return Ok(Reply::CallsSpent);
    }
    if !acts(k, core, call) {
        finish(k, core);
        return Ok(Reply::Dead);
    }
    let reply = decide(alloc, k, core, call)?;
    finish(k, core);
    Ok(reply)
}
