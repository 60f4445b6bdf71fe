//! The names of any call, looked up straight.
//!
//! A call makes its entry straight through, the question whether its core's component lives where it asks it, and the look-ups of its names.
//! It is then written down as it stands before its target's look-up or its act, and goes on from there step by step.

ghost use Rattle.std.specs.Prelude.{◌<◌, ◌≡◌, [], IsSome, false};
ghost use Rattle.step_looks.specs.call_plans.specs.PlanOf.{plan_for};
ghost use Rattle.step_looks.specs.call_stages.specs.Fits.{IsOwn};
ghost use Rattle.step_looks.specs.call_stages.specs.declared.stages.Stage.TheVariants.{Enter};
ghost use Rattle.straight_acts.specs.straight_looks.specs.Outcomes.{ended_so, went_so};
ghost use Rattle.straight_acts.specs.straight_looks.specs.Standing.{going, onward, stands};
ghost use Rattle.call_steps.specs.Naming.{IsOnward, further_so, named_so, own_told};

use crate::core_state::calls_counted;
use spk_nums::Call;
use step_lands::act_states::Own;
use step_lands::act_states::call_plans::{Caps, Next};
use step_lands::act_states::stage_pins::AcquiredCounts;
use step_lands::call_stages::{ActiveCall, Stage, Told};
use step_looks::{is_living, look_next, next_of};
use straight_acts::{Went, Words};
use straight_looks::{Asked, Named, ask, entry_op, name};

/// How one name more of a call went.
#[derive(Clone, Copy)]
pub(crate) enum Further {
    /// It has led to a capability.
    Finds,
    /// There is none, or its number is past the table.
    Ends,
    /// The call stands where it was left, and the step made there has told this word.
    Falls { found: u64 },
}

/// How the names of a call went.
#[derive(Clone, Copy)]
pub(crate) enum Naming {
    /// They have led to capabilities, after so many steps but for the last.
    Stands { steps: u32 },
    /// The call stands where it was left, and the step made there has told this word.
    Falls { found: u64 },
}

/// Makes the entry of a call, the question whether its core's component lives where it asks it, and the look-ups of its names straight
/// through, and writes down where it stands then.
#[inline(never)]
#[tactic(auto, using(crate::proofs::Naming::starting))]
pub(crate) fn to_names<W: Words>(
    own: &mut Own,
    active: &mut Option<ActiveCall>,
    call: &Call,
    words: &mut W,
) -> Went
    requires own { IsOwn own.old }
    requires room { own.old.made < own.old.limit }
    requires begins { W.core words.old ≡ stands own.old call.now 0 Enter [] }
    ensures { went_so own.old own.new active.old active.new (W.core words.old) (W.core words.new) (W.last words.new) result }
{
    if is_living(call) {
        match ask(own, active, call, words) {
            Asked::Falls { found } => Went::Falls { found },
            Asked::Lives => from_names(own, active, call, words),
        }
    } else {
        enter(own, active, call, words)
    }
}

// The entry of a call that does not ask whether its core's component lives, and that names nothing.
#[inline(always)]
fn enter<W: Words>(
    own: &mut Own,
    active: &mut Option<ActiveCall>,
    call: &Call,
    words: &mut W,
) -> Went
    requires own { IsOwn own.old }
    requires room { own.old.made < own.old.limit }
    requires asks { (plan_for call.now).living ≡ false }
    requires begins { W.core words.old ≡ stands own.old call.now 0 Enter [] }
    ensures { ended_so own.new active.old active.new (W.core words.new) (W.last words.new) result }
{
    words.make(entry_op(own));
    stand(own, active, call, 0, &Caps::none());
    Went::Stands
}

// A call whose core's component lives looks its names up, and is written down where it stands then.
#[inline(always)]
#[tactic(auto, using(crate::proofs::Naming::standing))]
fn from_names<W: Words>(
    own: &mut Own,
    active: &mut Option<ActiveCall>,
    call: &Call,
    words: &mut W,
) -> Went
    requires own { IsOwn own.old }
    requires room { own.old.made < own.old.limit }
    requires on { IsOnward own.old call.now 2 [] (W.core words.old) }
    ensures { ended_so own.new active.old active.new (W.core words.new) (W.last words.new) result }
{
    let mut caps = Caps::none();
    match name_all(own, active, call, &mut caps, words) {
        Naming::Falls { found } => Went::Falls { found },
        Naming::Stands { steps } => {
            stand(own, active, call, steps, &caps);
            Went::Stands
        }
    }
}

// The names of a call are looked up, one after another.
#[inline(always)]
fn name_all<W: Words>(
    own: &Own,
    active: &mut Option<ActiveCall>,
    call: &Call,
    caps: &mut Caps,
    words: &mut W,
) -> Naming
    requires on { IsOnward own.now call.now 2 caps.old (W.core words.old) }
    ensures { named_so own.now call.now caps.new active.new (W.core words.new) (W.last words.new) result }
{
    let mut steps = 2;
    let mut left: u8 = 4;
    'naming: while 0 < left {
        left -= 1;
        match name_next(own, active, call, steps, caps, words) {
            Further::Finds => steps += 2,
            Further::Ends => return Naming::Stands { steps },
            Further::Falls { found } => return Naming::Falls { found },
        }
    }
    Naming::Stands { steps }
}

// The next name of a call is looked up, if there is one.
#[inline(always)]
#[tactic(auto, using(crate::proofs::Naming::naming))]
fn name_next<W: Words>(
    own: &Own,
    active: &mut Option<ActiveCall>,
    call: &Call,
    steps: u32,
    caps: &mut Caps,
    words: &mut W,
) -> Further
    requires few { steps < 900 }
    requires on { IsOnward own.now call.now steps caps.old (W.core words.old) }
    ensures { further_so own.now call.now steps caps.new active.new (W.core words.new) (W.last words.new) result }
{
    match next_of(call, caps) {
        Next::Name { name: wanted } => {
            if 4095 < wanted.number.number() {
                return Further::Ends;
            }
            match name(own, active, call, steps + 1, &wanted, caps, words) {
                Named::Falls { found } => Further::Falls { found },
                Named::Finds { cap } => {
                    caps.push(cap);
                    Further::Finds
                }
            }
        }
        _ => Further::Ends,
    }
}

// A call whose names have led to these is written down as it stands one step later, at what comes next of it.
#[inline(never)]
#[tactic(auto, using(crate::proofs::Naming::stood))]
fn stand(own: &mut Own, active: &mut Option<ActiveCall>, call: &Call, steps: u32, caps: &Caps)
    requires own { IsOwn own.old }
    requires room { own.old.made < own.old.limit }
    requires few { steps < 1000 }
    ensures state { record { own = own.new; active = active.new } ≡ onward own.old call.now steps caps.now }
    ensures in_call { IsSome active.new }
{
    *active = Some(named_at(call, steps, caps));
    let mut tells = Told::Going;
    match active {
        Some(at) => look_next(at, own, &mut tells),
        None => unreachable!(),
    }
    take_told(own, &tells);
}

// A call whose names have led to these.
#[inline(always)]
fn named_at(call: &Call, steps: u32, caps: &Caps) -> ActiveCall
    ensures { result ≡ going call.now steps Enter caps.now [] }
{
    ActiveCall {
        steps,
        stage: Stage::Enter,
        found: *caps,
        read: None,
        counts: AcquiredCounts::none(),
        call: *call,
    }
}

// What a core has of its own after it has told this.
#[inline(always)]
#[tactic(auto, using(crate::proofs::Naming::change_counts))]
fn take_told(own: &mut Own, tells: &Told)
    requires own { IsOwn own.old }
    requires room { own.old.made < own.old.limit }
    ensures { own.new ≡ own_told own.old tells.now }
{
    match tells {
        Told::Going => {}
        Told::Decided { reply } => own.made += calls_counted(reply),
        Told::Returned { reply: _, stamp } => own.exit = *stamp,
        Told::Changed { reply, change } => {
            own.made += calls_counted(reply);
            own.change(change);
        }
    }
}
