//! The first step of a call, the question whether its core's component lives, and the steps of its look-ups.

ghost use Rattle.std.specs.Prelude.{◌<◌, ◌≡◌, ◌≤◌};
ghost use Rattle.step_starts.specs.call_plans.specs.After.{next_of};
ghost use Rattle.step_starts.specs.call_plans.specs.PlanOf.{plan_for};
ghost use Rattle.step_starts.specs.call_stages.specs.Fits.{StageFits};
ghost use Rattle.step_starts.specs.call_stages.specs.Steps.{call_after, named_one, told, took, took_enter, took_first, took_found};
ghost use Rattle.step_starts.specs.call_stages.specs.Steps.{took_read};
ghost use Rattle.step_starts.specs.step_lands.specs.Standing.{IsAsking, IsLooking, IsReading, asked_to, looked_to};

use crate::next::{is_living, next_of};
use crate::places::{look_next, looks_up};
use begin_acts::met_name;
use spk_nums::StageEnd;
use step_lands::act_states::call_plans::Next;
use step_lands::act_states::frame_words::CompWord;
use step_lands::act_states::stage_look::{Found, Look};
use step_lands::act_states::stage_thread::Alive;
use step_lands::act_states::{Met, Own, Refusal, Work};
use step_lands::call_stages::{ActiveCall, Stage, Told};
use step_lands::{go_on, goes_on, refused};
use step_starts::{found_free, found_held};

/// A step of the question whether the core's component lives.
#[inline(never)]
#[tactic(auto, using(crate::proofs::Looked::told_asked, crate::proofs::Looked::call_asked))]
pub fn ask(active: &mut ActiveCall, own: &Own, found: u64, tells: &mut Told)
    requires core { own.now.core < own.now.layout.cores }
    requires cores { own.now.layout.cores ≤ 8 }
    requires fits { StageFits own.now.layout active.old.stage }
    requires asks { IsAsking active.old.stage }
    requires few { active.old.steps < 1000 }
    requires going { tells.old ≡ Told.Going }
    ensures told { tells.new ≡ told (took own.now active.old found) }
    ensures after { active.new ≡ call_after active.old (took own.now active.old found) }
{
    match &mut active.stage {
        Stage::Living { alive } => match alive.take(&own.layout, found) {
            StageEnd::Going => goes_on(active),
            end => asked(active, own, &end, tells),
        },
        Stage::Enter | Stage::Undecided { .. } | Stage::Decided { .. } | Stage::Leave { .. } =>
            unreachable!(),
    }
}

/// A step of a look-up.
#[inline(never)]
#[tactic(auto, using(crate::proofs::Looked::told_looked, crate::proofs::Looked::call_looked))]
pub fn look_up(active: &mut ActiveCall, own: &Own, found: u64, tells: &mut Told)
    requires core { own.now.core < own.now.layout.cores }
    requires cores { own.now.layout.cores ≤ 8 }
    requires fits { StageFits own.now.layout active.old.stage }
    requires looks { IsLooking active.old.stage }
    requires few { active.old.steps < 1000 }
    requires going { tells.old ≡ Told.Going }
    ensures told { tells.new ≡ told (took own.now active.old found) }
    ensures after { active.new ≡ call_after active.old (took own.now active.old found) }
{
    match &mut active.stage {
        Stage::Undecided { work } => match work {
            Work::Lookup { look } => match look.take(&own.layout, found) {
                StageEnd::Going => goes_on(active),
                end => looked(active, own, &end, tells),
            },
            Work::Read { .. } | Work::Scan { .. } | Work::Acquire { .. } | Work::Act { .. } =>
                unreachable!(),
        },
        Stage::Enter | Stage::Living { .. } | Stage::Decided { .. } | Stage::Leave { .. } =>
            unreachable!(),
    }
}

/// The load of a component's word before a look-up.
#[inline(never)]
pub fn read(active: &mut ActiveCall, own: &Own, found: u64, tells: &mut Told)
    requires reads { IsReading active.old.stage }
    requires few { active.old.steps < 1000 }
    requires going { tells.old ≡ Told.Going }
    ensures told { tells.new ≡ told (took own.now active.old found) }
    ensures after { active.new ≡ call_after active.old (took own.now active.old found) }
{
    let _own = own;
    match &active.stage {
        Stage::Undecided { work } => match work {
            Work::Read { comp: _, look } => {
                let look = *look;
                has_read(active, look, CompWord::unpack(found), tells)
            }
            Work::Lookup { .. } | Work::Scan { .. } | Work::Acquire { .. } | Work::Act { .. } =>
                unreachable!(),
        },
        Stage::Enter | Stage::Living { .. } | Stage::Decided { .. } | Stage::Leave { .. } =>
            unreachable!(),
    }
}

/// The first step of a call.
#[inline(never)]
pub fn enter(active: &mut ActiveCall, spent: bool, own: &Own, tells: &mut Told)
    requires core { own.now.core < own.now.layout.cores }
    requires cores { own.now.layout.cores ≤ 8 }
    requires few { active.old.steps < 1000 }
    requires going { tells.old ≡ Told.Going }
    ensures told { tells.new ≡ told (took_enter spent own.now active.old) }
    ensures after { active.new ≡ call_after active.old (took_enter spent own.now active.old) }
{
    if spent {
        refused(active, Refusal::CallsSpent, tells)
    } else {
        begin(active, own, tells)
    }
}

// A call that may still be made begins: it asks first whether its core's component lives, where its plan says so.
#[inline]
fn begin(active: &mut ActiveCall, own: &Own, tells: &mut Told)
    requires core { own.now.core < own.now.layout.cores }
    requires cores { own.now.layout.cores ≤ 8 }
    requires few { active.old.steps < 1000 }
    requires going { tells.old ≡ Told.Going }
    ensures told { tells.new ≡ told (took_first (plan_for active.old.call).living own.now active.old) }
    ensures after { active.new ≡ call_after active.old (took_first (plan_for active.old.call).living own.now active.old) }
{
    if is_living(&active.call) {
        go_on(
            active,
            Stage::Living {
                alive: Alive::new(own.comp),
            },
        )
    } else {
        look_next(active, own, tells)
    }
}

// A step of the question whether the core's component lives, after which it is not asked further.
#[inline]
fn asked(active: &mut ActiveCall, own: &Own, end: &StageEnd<()>, tells: &mut Told)
    requires core { own.now.core < own.now.layout.cores }
    requires cores { own.now.layout.cores ≤ 8 }
    requires few { active.old.steps < 1000 }
    requires going { tells.old ≡ Told.Going }
    ensures told { tells.new ≡ told (asked_to own.now active.old end.now) }
    ensures after { active.new ≡ call_after active.old (asked_to own.now active.old end.now) }
{
    match end {
        StageEnd::Going => goes_on(active),
        StageEnd::Decided(reply) => refused(active, Refusal::of(reply), tells),
        StageEnd::Done(_) => look_next(active, own, tells),
        StageEnd::Refuse(reply) => refused(active, Refusal::of(reply), tells),
    }
}

// A step of a look-up, after which it does not go on.
#[inline]
fn looked(active: &mut ActiveCall, own: &Own, end: &StageEnd<Found>, tells: &mut Told)
    requires core { own.now.core < own.now.layout.cores }
    requires cores { own.now.layout.cores ≤ 8 }
    requires few { active.old.steps < 1000 }
    requires going { tells.old ≡ Told.Going }
    ensures told { tells.new ≡ told (looked_to own.now active.old end.now) }
    ensures after { active.new ≡ call_after active.old (looked_to own.now active.old end.now) }
{
    match end {
        StageEnd::Going => goes_on(active),
        StageEnd::Decided(reply) => refused(active, Refusal::of(reply), tells),
        StageEnd::Done(found) => found_place(active, own, found, tells),
        StageEnd::Refuse(reply) => refused(active, Refusal::of(reply), tells),
    }
}

// The place of a name or of the target was found.
#[inline]
fn found_place(active: &mut ActiveCall, own: &Own, found: &Found, tells: &mut Told)
    requires core { own.now.core < own.now.layout.cores }
    requires cores { own.now.layout.cores ≤ 8 }
    requires few { active.old.steps < 1000 }
    requires going { tells.old ≡ Told.Going }
    ensures told { tells.new ≡ told (took_found own.now active.old (next_of (plan_for active.old.call) active.old.found) found.now) }
    ensures after { active.new
        ≡ call_after active.old (took_found own.now active.old (next_of (plan_for active.old.call) active.old.found) found.now) }
{
    match next_of(&active.call, &active.found) {
        Next::Name { name } => {
            let met = met_name(&active.found, &name, &found.value);
            named_one(active, own, &met, tells)
        }
        Next::Free { spot: _ } => found_free(active, own, found, tells),
        Next::Held { spot: _ } => found_held(active, own, found, tells),
        Next::Own { page: _ } => refused(active, Refusal::Raced, tells),
        Next::Nothing => refused(active, Refusal::Raced, tells),
    }
}

// A name has led to this.
#[inline]
#[tactic(auto, using(call_fits::proofs::Landing::same_call))]
fn named_one(active: &mut ActiveCall, own: &Own, met: &Met, tells: &mut Told)
    requires core { own.now.core < own.now.layout.cores }
    requires cores { own.now.layout.cores ≤ 8 }
    requires few { active.old.steps < 1000 }
    requires going { tells.old ≡ Told.Going }
    ensures told { tells.new ≡ told (named_one own.now active.old met.now) }
    ensures after { active.new ≡ call_after active.old (named_one own.now active.old met.now) }
{
    match met {
        Met::Finds { cap } => {
            active.found.push(*cap);
            look_next(active, own, tells)
        }
        Met::Refused { refusal } => refused(active, *refusal, tells),
    }
}

// A component's word was loaded, which names this, and this look-up comes next.
#[inline]
#[tactic(auto, using(call_fits::proofs::Landing::same_call))]
fn has_read(active: &mut ActiveCall, look: Look, life: Option<CompWord>, tells: &mut Told)
    requires few { active.old.steps < 1000 }
    requires going { tells.old ≡ Told.Going }
    ensures told { tells.new ≡ told (took_read active.old look life) }
    ensures after { active.new ≡ call_after active.old (took_read active.old look life) }
{
    match life {
        None => refused(active, Refusal::Raced, tells),
        Some(life) => {
            active.read = Some(life.epoch);
            looks_up(active, look)
        }
    }
}
