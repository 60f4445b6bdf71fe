//! The own causes of refusal of the calls of invocation and of time.

ghost use Rattle.std.specs.Prelude.{◌≡◌, ◌<◌, ◌≤◌, [], ◌∷◌, length, Option, Some, None};
ghost use Rattle.seq_lookups.specs.spk_nums.specs.declared.calls.Call.TheVariants.{Call as call_gate, Kill, Switch, Ret};
ghost use Rattle.seq_lookups.specs.seq_state.specs.kernel_rules.specs.State.{comp_in, thread_in};
ghost use Rattle.seq_lookups.specs.seq_state.specs.kernel_rules.specs.InvocationCalls.{not_live};
ghost use Rattle.seq_lookups.specs.seq_state.specs.kernel_rules.specs.TimeCalls.{are_same, is_short, are_unlike, are_many, is_finer};
ghost use Rattle.seq_lookups.specs.seq_state.specs.kernel_rules.specs.TimeCalls.{is_less};
ghost use Rattle.seq_lookups.specs.seq_state.specs.Maps.{state_of};
ghost use Rattle.seq_plans.specs.Reaches.{named_of};
ghost use Rattle.seq_plans.specs.Walks.{left_of, causes_of};
ghost use Rattle.seq_plans.specs.OwnCauses.{cause_of, causes_in, AreFitCauses, judged_rule};
ghost use Rattle.seq_time.specs.Own.{IsTimeCall};

use crate::budgets::{are_alike, merged_for};
use crate::ticks::left_back;
use seq_lookups::seq_state::SeqKernel;
use seq_lookups::spk_nums::{Call, Cap, CoreNo, FrameNo, Reply};
use seq_lookups::{comp_at, is_live_in, tcap_at, thread_at, thread_of};
use seq_plans::{Cause, Causes, Looked};

/// The frame to which a name has led; frame 0 where it led to none.
fn frame_of(cap: &Option<Cap>) -> FrameNo
    ensures { result ≡ (named_of cap.now).frame }
{
    match cap {
        None => FrameNo::new(0),
        Some(cap) => cap.frame(),
    }
}

/// The number of the capability to which a name has led; 0 where it led to none.
fn arg_of(cap: &Option<Cap>) -> u32
    ensures { result ≡ (named_of cap.now).arg }
{
    match cap {
        None => 0,
        Some(cap) => cap.arg(),
    }
}

/// Whether a name has led to a capability.
fn is_found(cap: &Option<Cap>) -> bool
    ensures { result ≡ (named_of cap.now).found }
{
    cap.is_some()
}

/// That a component, or that of a gate, is not live in this epoch, where a name has led to it.
fn not_live(k: &SeqKernel, name: &Option<Cap>, number: u8, epoch: u32) -> Cause
    ensures { cause_of result ≡ not_live (state_of k.now) (named_of name.now) number epoch }
{
    Cause::When {
        stands: is_found(name) && !is_live_in(&k.number(number), epoch),
        refusal: Reply::Dead,
    }
}

/// Why a component is not killed.
fn not_killed(k: &SeqKernel, name: &Option<Cap>) -> Cause
    ensures { cause_of result ≡ not_live (state_of k.now) (named_of name.now)
        (comp_in ((state_of k.now).frame (named_of name.now).frame)).number
        (comp_in ((state_of k.now).frame (named_of name.now).frame)).epoch }
{
    let comp = comp_at(k, frame_of(name));
    not_live(k, name, comp.number, u32::from(comp.epoch))
}

/// Why the component of a gate is not entered.
fn not_entered(k: &SeqKernel, core: CoreNo, name: &Option<Cap>) -> Causes
    requires { core < (state_of k.now).limits.cores }
    ensures { causes_in result ≡ When (nat_le 16 (length (thread_of (state_of k.now) core).stack)) Deep
        ∷ not_live (state_of k.now) (named_of name.now) (comp_in ((state_of k.now).frame (named_of name.now).frame)).number
        (named_of name.now).arg ∷ [] }
{
    let deep = Cause::When {
        stands: 16 <= thread_of(k, core).stack.len(),
        refusal: Reply::Deep,
    };
    let comp = comp_at(k, frame_of(name));
    Causes::two(deep, not_live(k, name, comp.number, arg_of(name)))
}

/// Why the component on top of the stack is not left.
fn not_left(k: &SeqKernel, core: CoreNo) -> Cause
    requires { core < (state_of k.now).limits.cores }
    ensures { cause_of result ≡ When (nat_le (length (thread_of (state_of k.now) core).stack) 1) Bottom }
{
    Cause::When {
        stands: thread_of(k, core).stack.len() <= 1,
        refusal: Reply::Bottom,
    }
}

/// Why a core does not go on as a thread.
fn running(k: &SeqKernel, name: &Option<Cap>) -> Causes
    ensures { causes_in result
        ≡ running_by (named_of name.now) (thread_in ((state_of k.now).frame (named_of name.now).frame)).runs_on }
{
    match thread_at(k, frame_of(name)).runs_on {
        None => Causes::none(),
        Some(other) => Causes::one(Cause::When {
            stands: is_found(name),
            refusal: Reply::Running(other),
        }),
    }
}

/// Why a core does not go on as a thread, as the rule of a `switch` has it.
fn not_switched(k: &SeqKernel, looked: &Looked) -> Causes
    ensures exact { (core h q : ℕ) → causes_in result
        ≡ causes_of (left_of (judged_rule (state_of k.now) core (Switch h q)) looked.now) }
    ensures fit { AreFitCauses (causes_in result) }
{
    running(k, &looked.first)
}

/// That two names have led to one temporal capability.
fn are_same(a: &Option<Cap>, b: &Option<Cap>) -> Cause
    ensures { cause_of result ≡ are_same (named_of a.now) (named_of b.now) }
{
    Cause::When {
        stands: is_found(a) && (is_found(b) && frame_of(a) == frame_of(b)),
        refusal: Reply::Same,
    }
}

/// That the budget of a temporal capability is less than the amount.
fn is_short(k: &SeqKernel, a: &Option<Cap>, amount: u32) -> Cause
    ensures { cause_of result ≡ is_short (state_of k.now) (named_of a.now) amount }
{
    let budget = tcap_at(k, frame_of(a)).budget;
    Cause::When {
        stands: is_found(a) && budget < amount,
        refusal: Reply::Short(budget),
    }
}

/// That two lists of qualities differ.
fn are_unlike(k: &SeqKernel, a: &Option<Cap>, b: &Option<Cap>) -> Cause
    ensures { cause_of result ≡ are_unlike (state_of k.now) (named_of a.now) (named_of b.now) }
{
    let from = tcap_at(k, frame_of(a));
    let to = tcap_at(k, frame_of(b));
    Cause::When {
        stands: is_found(a) && (is_found(b) && !are_alike(&from.qualities, &to.qualities)),
        refusal: Reply::Unlike,
    }
}

/// That the merged list of two temporal capabilities has more than 8 schedulers.
fn are_many(k: &SeqKernel, a: &Option<Cap>, b: &Option<Cap>) -> Cause
    ensures { cause_of result ≡ are_many (state_of k.now) (named_of a.now) (named_of b.now) }
{
    Cause::When {
        stands: is_found(a) && (is_found(b) && merged_for(k, frame_of(a), frame_of(b)).is_none()),
        refusal: Reply::TooMany,
    }
}

/// That the list of a temporal capability is better than the core's grant.
fn is_finer(k: &SeqKernel, core: CoreNo, a: &Option<Cap>) -> Cause
    requires { core < (state_of k.now).limits.cores }
    ensures { cause_of result ≡ is_finer (state_of k.now) core (named_of a.now) }
{
    let list = tcap_at(k, frame_of(a)).qualities;
    Cause::When {
        stands: is_found(a) && !list.covers(k.core(core).grant),
        refusal: Reply::Unlike,
    }
}

/// That the core has fewer ticks left to have back than the amount.
fn is_less(k: &SeqKernel, core: CoreNo, amount: u32) -> Cause
    requires { core < (state_of k.now).limits.cores }
    ensures { cause_of result ≡ is_less (state_of k.now) core amount }
{
    let left = left_back(k, core);
    let stands = left < u64::from(amount);
    Cause::When {
        stands,
        refusal: Reply::Short(if stands { left as u32 } else { amount }),
    }
}

/// The own causes of a call of invocation or of time of a core of the machine that has looked this up, in order.
pub fn causes(k: &SeqKernel, core: CoreNo, call: &Call, looked: &Looked) -> Causes
    requires own { IsTimeCall call.now }
    requires core { core < (state_of k.now).limits.cores }
    ensures exact { causes_in result ≡ causes_of (left_of (judged_rule (state_of k.now) core call.now) looked.now) }
    ensures fit { AreFitCauses (causes_in result) }
{
    let (a, b) = (&looked.first, &looked.second);
    match *call {
        Call::Gate { .. } | Call::Tick { .. } => Causes::none(),
        Call::Kill { c: _ } => Causes::one(not_killed(k, a)),
        Call::Call { g: _ } => not_entered(k, core, a),
        Call::Ret => Causes::one(not_left(k, core)),
        Call::Switch { h: _, q: _ } => not_switched(k, looked),
        Call::Transfer { a: _, b: _, m } => {
            Causes::three(are_same(a, b), is_short(k, a, m), are_unlike(k, a, b))
        }
        Call::Delegate { a: _, b: _, m } => {
            Causes::three(are_same(a, b), is_short(k, a, m), are_many(k, a, b))
        }
        Call::Test { a: _, b: _ } => Causes::one(are_same(a, b)),
        Call::Replenish { a: _, m } => Causes::two(is_finer(k, core, a), is_less(k, core, m)),
        _ => unreachable!(),
    }
}

ghost use Rattle.std.specs.Prelude.{nat_le, ℕ};
ghost use Rattle.seq_lookups.specs.spk_nums.specs.declared.replies.Reply.TheVariants.{Deep, Bottom};
ghost use Rattle.seq_lookups.specs.seq_state.specs.kernel_rules.specs.State.{thread_of};
ghost use Rattle.seq_lookups.specs.seq_state.specs.kernel_rules.specs.Rules.{When};
ghost use Rattle.seq_time.specs.Left.{running_by};
