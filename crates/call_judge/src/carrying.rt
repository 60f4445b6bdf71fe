//! Carrying out a call with a given value, or leaving all as it was.

ghost use Rattle.std.specs.Prelude.{◌≡◌, ◌<◌, IsOk, IfOk, IsTrue, IsFalse};
ghost use Rattle.spk_nums.specs.CallLimits.{InLimits};
ghost use Rattle.plain_kernel.specs.kernel_rules.specs.CallRelation.{change_of};
ghost use Rattle.plain_kernel.specs.kernel_rules.specs.State.{with_frame, with_core};
ghost use Rattle.plain_kernel.specs.seq_state.specs.Parts.{frame_of, core_of};
ghost use Rattle.plain_kernel.specs.seq_state.specs.Maps.{state_of};
ghost use Rattle.plain_kernel.specs.seq_state.specs.Representation.{Represents};
ghost use Rattle.plain_kernel.specs.seq_lookups.specs.Ranges.{IsInRange};
ghost use Rattle.call_judge.specs.Judged.{CarriesOut, RefusesPlainly, IsAnswerOf};
ghost use Rattle.call_judge.specs.Putting.{answers_value};

use crate::values::is_value;
use plain_kernel::decide;
use seq_state::{Core, Frame, SeqKernel};
use spk_nums::{Call, CoreNo, Memory, Reply, Value};
use std::alloc::Global;

/// Puts back a core, in its call as it is, and the frame of its temporal capability.
fn put_back(k: &mut SeqKernel, core: CoreNo, kept: Core, tcap: Frame)
    ensures { core < (state_of k.old).limits.cores → kept.inside ≡ ((state_of k.old).core core).inside
        → Represents k.new (with_core (with_frame (state_of k.old) kept.tcap (frame_of tcap)) core (core_of kept)) }
{
    if core.number() < k.cores() {
        let inside = k.core(core).inside;
        k.set_core(core, Core { inside, ..kept });
        k.set_frame(kept.tcap, tcap);
    }
}

/// The value of a reply, if it is no refusal.
fn answer_of(reply: &Reply) -> Option<Value>
    ensures { IsAnswerOf result reply.now }
{
    match *reply {
        Reply::Ok(value) => Some(value),
        _ => None,
    }
}

/// Whether a call answers a value where it is carried out.
fn answers_value(call: &Call) -> bool
    ensures { result ≡ answers_value call.now }
{
    match call {
        Call::Look { .. } | Call::Touch { .. } | Call::Tick { .. } | Call::Test { .. } => true,
        _ => false,
    }
}

/// Carries out a call that answers a value, where it answers this one. What such a call may change is its core, and the frame of
/// the core's temporal capability.
fn carry_out_with(
    alloc: Global,
    k: &mut SeqKernel,
    core: CoreNo,
    call: &Call,
    value: &Value,
) -> Result<bool, Memory>
    requires limits { InLimits call.now }
    requires core { core < (state_of k.old).limits.cores }
    requires answers { IsTrue (answers_value call.now) }
    ensures answers { IsOk result }
    ensures exact { IsInRange (state_of k.old) core call.now
        → RefusesPlainly (change_of (state_of k.old) core call.now)
        → IfOk result (λ b. CarriesOut (state_of k.old) (change_of (state_of k.old) core call.now) value.now b k.new) }
{
    let kept = *k.core(core);
    let tcap = k.frame(kept.tcap);
    let reply = decide(alloc, k, core, call)?;
    match answer_of(&reply) {
        Some(found) => {
            if is_value(&found, value) {
                Ok(true)
            } else {
                put_back(k, core, kept, tcap);
                Ok(false)
            }
        }
        None => Ok(false),
    }
}

/// Carries out a call that answers nothing.
fn carry_out_plain(
    alloc: Global,
    k: &mut SeqKernel,
    core: CoreNo,
    call: &Call,
) -> Result<bool, Memory>
    requires limits { InLimits call.now }
    requires core { core < (state_of k.old).limits.cores }
    requires answers { IsFalse (answers_value call.now) }
    ensures answers { IsOk result }
    ensures exact { IsInRange (state_of k.old) core call.now
        → RefusesPlainly (change_of (state_of k.old) core call.now)
        → IfOk result (λ b. CarriesOut (state_of k.old) (change_of (state_of k.old) core call.now) Nothing b k.new) }
{
    let reply = decide(alloc, k, core, call)?;
    Ok(answer_of(&reply).is_some())
}

/// Whether a value is none.
fn is_nothing(value: &Value) -> bool
    ensures { Decides result (value.now ≡ Nothing) }
{
    matches!(*value, Value::Nothing)
}

/// Carries out a call, where it may be carried out and answers this value; else all is as before.
pub(crate) fn carry_out(
    alloc: Global,
    k: &mut SeqKernel,
    core: CoreNo,
    call: &Call,
    value: &Value,
) -> Result<bool, Memory>
    requires limits { InLimits call.now }
    requires core { core < (state_of k.old).limits.cores }
    ensures answers { IsOk result }
    ensures exact { IsInRange (state_of k.old) core call.now
        → RefusesPlainly (change_of (state_of k.old) core call.now)
        → IfOk result (λ b. CarriesOut (state_of k.old) (change_of (state_of k.old) core call.now) value.now b k.new) }
{
    if answers_value(call) {
        return carry_out_with(alloc, k, core, call, value);
    }
    if is_nothing(value) {
        carry_out_plain(alloc, k, core, call)
    } else {
        Ok(false)
    }
}

ghost use Rattle.spk_nums.specs.declared.replies.Value.TheVariants.{Nothing};
ghost use Rattle.plain_kernel.specs.seq_plans.specs.Refusals.{Decides};
