//! The changes of the calls of invocation and of time, given what was looked up.

ghost use Rattle.std.specs.Prelude.{◌≡◌, ◌≢◌, ◌<◌, ◌≤◌, ◌+◌, ◌^◌, ℕ, length};
ghost use Rattle.seq_lookups.specs.spk_nums.specs.declared.calls.Call.TheVariants.{Gate, Kill, Call as call_gate, Ret, Switch, Transfer};
ghost use Rattle.seq_lookups.specs.spk_nums.specs.declared.calls.Call.TheVariants.{Delegate, Test};
ghost use Rattle.seq_lookups.specs.spk_nums.specs.declared.calls.Call.TheVariants.{Replenish};
ghost use Rattle.seq_lookups.specs.spk_nums.specs.declared.replies.Value.TheVariants.{Nothing};
ghost use Rattle.seq_lookups.specs.spk_nums.specs.declared.replies.Reply.TheVariants.{Ok as ok};
ghost use Rattle.seq_lookups.specs.seq_state.specs.kernel_rules.specs.CallRelation.{rule_of};
ghost use Rattle.seq_lookups.specs.seq_state.specs.Maps.{state_of};
ghost use Rattle.seq_lookups.specs.Carried.{IsCarriedOut};
ghost use Rattle.seq_plans.specs.declared.walking.Looked.{Looked};
ghost use Rattle.seq_plans.specs.Walks.{left_of};
ghost use Rattle.seq_plans.specs.Carrying.{change_in, MayCarry};
ghost use Rattle.seq_time.specs.Own.{IsTimeCall};

use crate::budgets::{delegate_ticks, move_ticks, preemption};
use crate::invocation::{end_life, gate_to, pop, set_stack};
use crate::switching::go_on;
use crate::ticks::{give_back, tick};
use preempt_test::preempts;
use seq_lookups::seq_state::{Liveness, SeqKernel};
use seq_lookups::spk_nums::{Call, CoreNo, Value};
use seq_lookups::{comp_at, fill, tcap_at, thread_at, thread_of};
use seq_plans::Looked;

/// `gate`: the place holds a gate to the component, in the component's epoch.
fn gate(k: &mut SeqKernel, looked: &Looked) -> Value
    ensures { (core c t b : ℕ) → MayCarry (state_of k.old) core (Gate c t b) looked.now → IsCarriedOut (state_of k.old)
        (change_in (state_of k.old) core (left_of (rule_of (state_of k.old) core (Gate c t b)) looked.now)) (ok result) k.new }
{
    if let Some(comp) = looked.first {
        if let Some(at) = looked.at {
            let cap = gate_to(k, comp.frame());
            fill(k, at, cap);
            return Value::Nothing;
        }
    }
    Value::Nothing
}

/// `kill`: the liveness number of the component, which is live in the component's epoch, is dead.
fn kill(k: &mut SeqKernel, looked: &Looked) -> Value
    ensures { (core c : ℕ) → MayCarry (state_of k.old) core (Kill c) looked.now → IsCarriedOut (state_of k.old)
        (change_in (state_of k.old) core (left_of (rule_of (state_of k.old) core (Kill c)) looked.now)) (ok result) k.new }
{
    if let Some(cap) = looked.first {
        let comp = comp_at(k, cap.frame());
        if let Liveness::Live { epoch, frame } = k.number(comp.number) {
            end_life(k, comp.number, epoch, frame);
            return Value::Nothing;
        }
    }
    Value::Nothing
}

/// `call`: the component of the gate is entered.
fn enter(k: &mut SeqKernel, core: CoreNo, looked: &Looked) -> Value
    requires { core < (state_of k.old).limits.cores }
    ensures { (g : ℕ) → MayCarry (state_of k.old) core (call_gate g) looked.now → IsCarriedOut (state_of k.old)
        (change_in (state_of k.old) core (left_of (rule_of (state_of k.old) core (call_gate g)) looked.now)) (ok result) k.new }
{
    if let Some(gate) = looked.first {
        let mut stack = thread_of(k, core).stack;
        if stack.len() < 16 {
            stack.push(gate.frame());
            set_stack(k, core, stack);
            return Value::Nothing;
        }
    }
    Value::Nothing
}

/// `ret`: the component on top of the stack is left.
fn leave(k: &mut SeqKernel, core: CoreNo) -> Value
    requires { core < (state_of k.old).limits.cores }
    ensures { (l : Looked) → MayCarry (state_of k.old) core Ret l → IsCarriedOut (state_of k.old)
        (change_in (state_of k.old) core (left_of (rule_of (state_of k.old) core Ret) l)) (ok result) k.new }
{
    let mut stack = thread_of(k, core).stack;
    if let Some(top) = stack.top() {
        stack.pop();
        pop(k, core, top, stack);
        return Value::Nothing;
    }
    Value::Nothing
}

/// `switch`: the core goes on as the thread, which is idle.
fn switch(k: &mut SeqKernel, core: CoreNo, looked: &Looked) -> Value
    requires { core < (state_of k.old).limits.cores }
    ensures { (h q : ℕ) → MayCarry (state_of k.old) core (Switch h q) looked.now → IsCarriedOut (state_of k.old)
        (change_in (state_of k.old) core (left_of (rule_of (state_of k.old) core (Switch h q)) looked.now)) (ok result) k.new }
{
    if let Some(thread) = looked.first {
        if let Some(tcap) = looked.second {
            if thread_at(k, thread.frame()).runs_on.is_none() {
                go_on(k, core, thread.frame(), tcap.frame());
                return Value::Nothing;
            }
        }
    }
    Value::Nothing
}

/// `transfer`: ticks move from the one temporal capability to the other.
fn transfer(k: &mut SeqKernel, looked: &Looked, amount: u32) -> Value
    ensures { (core a b : ℕ) → MayCarry (state_of k.old) core (Transfer a b amount) looked.now → IsCarriedOut (state_of k.old)
        (change_in (state_of k.old) core (left_of (rule_of (state_of k.old) core (Transfer a b amount)) looked.now)) (ok result) k.new }
{
    if let Some(from) = looked.first {
        if let Some(to) = looked.second {
            move_ticks(k, from.frame(), to.frame(), amount);
            return Value::Nothing;
        }
    }
    Value::Nothing
}

/// `delegate`: ticks move, and the other temporal capability has the merged list.
fn delegate(k: &mut SeqKernel, looked: &Looked, amount: u32) -> Value
    ensures { (core a b : ℕ) → MayCarry (state_of k.old) core (Delegate a b amount) looked.now → IsCarriedOut (state_of k.old)
        (change_in (state_of k.old) core (left_of (rule_of (state_of k.old) core (Delegate a b amount)) looked.now)) (ok result) k.new }
{
    if let Some(from) = looked.first {
        if let Some(to) = looked.second {
            delegate_ticks(k, from.frame(), to.frame(), amount);
            return Value::Nothing;
        }
    }
    Value::Nothing
}

/// `test`: whether the one temporal capability preempts the other.
fn test(k: &SeqKernel, looked: &Looked) -> Value
    ensures { (core a b : ℕ) → MayCarry (state_of k.now) core (Test a b) looked.now → IsCarriedOut (state_of k.now)
        (change_in (state_of k.now) core (left_of (rule_of (state_of k.now) core (Test a b)) looked.now)) (ok result) k.now }
{
    let Some(a) = looked.first else {
        return Value::Nothing;
    };
    let Some(b) = looked.second else {
        return Value::Nothing;
    };
    let one = tcap_at(k, a.frame());
    let other = tcap_at(k, b.frame());
    let wins = preempts(one.budget, &one.qualities, other.budget, &other.qualities);
    preemption(wins)
}

/// `replenish`: ticks that the core has spent are given back to the temporal capability.
fn replenish(k: &mut SeqKernel, core: CoreNo, looked: &Looked, amount: u32) -> Value
    requires { core < (state_of k.old).limits.cores }
    ensures { (a : ℕ) → MayCarry (state_of k.old) core (Replenish a amount) looked.now → IsCarriedOut (state_of k.old)
        (change_in (state_of k.old) core (left_of (rule_of (state_of k.old) core (Replenish a amount)) looked.now)) (ok result) k.new }
{
    if let Some(tcap) = looked.first {
        give_back(k, core, tcap.frame(), amount);
        return Value::Nothing;
    }
    Value::Nothing
}

/// Carries out a call of invocation or of time of a core of the machine that has looked this up, and answers its value: the change of
/// the call's rule. None of its causes may stand, and what it refers to must have been found (`MayCarry`); of any other call nothing is
/// said.
pub fn carry_out(k: &mut SeqKernel, core: CoreNo, call: &Call, looked: &Looked) -> Value
    requires own { IsTimeCall call.now }
    requires core { core < (state_of k.old).limits.cores }
    ensures { MayCarry (state_of k.old) core call.now looked.now → IsCarriedOut (state_of k.old)
        (change_in (state_of k.old) core (left_of (rule_of (state_of k.old) core call.now) looked.now)) (ok result) k.new }
{
    match *call {
        Call::Gate { c: _, t: _, b: _ } => gate(k, looked),
        Call::Kill { c: _ } => kill(k, looked),
        Call::Call { g: _ } => enter(k, core, looked),
        Call::Ret => leave(k, core),
        Call::Switch { h: _, q: _ } => switch(k, core, looked),
        Call::Tick { n } => tick(k, core, n),
        Call::Transfer { a: _, b: _, m } => transfer(k, looked, m),
        Call::Delegate { a: _, b: _, m } => delegate(k, looked, m),
        Call::Test { a: _, b: _ } => test(k, looked),
        Call::Replenish { a: _, m } => replenish(k, core, looked, m),
        _ => unreachable!(),
    }
}
