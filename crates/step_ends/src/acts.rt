//! The steps of acts, each in its place.
//!
//! **In place.** A step changes where the call's act stands, and the number of its steps. The small `StageEnd` that it leads to says whether
//! that is all.
//!
//! **Apart.** A function makes room on the stack for all that it may build, and clears it, at each of its calls. So the step of each act
//! that builds something stands in a function of its own, which is never inlined, and the one that chooses among them builds nothing.

ghost use Rattle.act_ends.specs.step_lands.specs.spk_nums.specs.declared.replies.Value.TheVariants.{Nothing};
ghost use Rattle.std.specs.Prelude.{None, ◌<◌, ◌≡◌};
ghost use Rattle.act_ends.specs.step_lands.specs.Standing.{IsActing, IsRemoving, IsSharing, IsTicking};
ghost use Rattle.act_ends.specs.step_lands.specs.act_states.specs.declared.work.WorkStep.TheVariants.{Answers};
ghost use Rattle.act_ends.specs.step_lands.specs.call_stages.specs.Fits.{StageFits};
ghost use Rattle.act_ends.specs.step_lands.specs.call_stages.specs.Steps.{call_after, landed, told, took};

use act_counts::ticks_of;
use act_ends::{
    act_lands, charged, flushed, invoke_ends, removed, return_ends, share_ends, stays_owed,
    switch_ends,
};
use call_acts::act_moves;
use spk_nums::{Reply, StageEnd, Value};
use step_lands::act_states::{Act, Own, Refusal, Tail, Work};
use step_lands::call_stages::{ActiveCall, Stage, Told};
use step_lands::{decide, goes_on, refused_late};

/// A step of the call's act.
#[inline(always)]
#[tactic(auto, using(crate::proofs::Staged::told_from, crate::proofs::Staged::call_from))]
pub fn act_step(active: &mut ActiveCall, own: &Own, found: u64, tells: &mut Told)
    requires fits { StageFits own.now.layout active.old.stage }
    requires acting { IsActing active.old.stage }
    requires few { active.old.steps < 1000 }
    requires going { tells.old ≡ Told.Going }
    ensures told { tells.new ≡ told (took own.now active.old found) }
    ensures after { active.new ≡ call_after active.old (took own.now active.old found) }
{
    match &mut active.stage {
        Stage::Undecided { work } => match work {
            Work::Act { act } => match act {
                Act::Fill { fill } => {
                    if found == fill.word {
                        carried_out(active, tells)
                    } else {
                        refused_late(active, Refusal::Raced, tells)
                    }
                }
                Act::Remove { close: _, cap: _ } => remove_step(active, own, found, tells),
                Act::Tick { charge: _ } => tick_step(active, own, found, tells),
                Act::Flush { core } => {
                    let core = *core;
                    flushed(active, own, core, found, tells)
                }
                Act::Share { pair } => {
                    if pair.passes(&own.layout, found) {
                        goes_on(active)
                    } else {
                        share_step(active, own, found, tells)
                    }
                }
                _ => other_step(active, own, found, tells),
            },
            Work::Lookup { .. } | Work::Read { .. } | Work::Scan { .. } | Work::Acquire { .. } =>
                unreachable!(),
        },
        Stage::Enter | Stage::Living { .. } | Stage::Decided { .. } | Stage::Leave { .. } =>
            unreachable!(),
    }
}

// The call is carried out without a value, and has drawn no stamp and nothing to store.
#[inline(never)]
fn carried_out(active: &mut ActiveCall, tells: &mut Told)
    requires few { active.old.steps < 1000 }
    requires going { tells.old ≡ Told.Going }
    ensures told { tells.new ≡ told (landed active.old (Answers Nothing None Tail.Nothing)) }
    ensures after { active.new ≡ call_after active.old (landed active.old (Answers Nothing None Tail.Nothing)) }
{
    decide(
        active,
        &Reply::Ok(Value::Nothing),
        None,
        &Tail::Nothing,
        tells,
    )
}

// A step of a removal.
#[inline(never)]
#[tactic(auto, using(crate::proofs::Staged::told_from, crate::proofs::Staged::call_from))]
fn remove_step(active: &mut ActiveCall, own: &Own, found: u64, tells: &mut Told)
    requires fits { StageFits own.now.layout active.old.stage }
    requires removes { IsRemoving active.old.stage }
    requires few { active.old.steps < 1000 }
    requires going { tells.old ≡ Told.Going }
    ensures told { tells.new ≡ told (took own.now active.old found) }
    ensures after { active.new ≡ call_after active.old (took own.now active.old found) }
{
    match &mut active.stage {
        Stage::Undecided { work } => match work {
            Work::Act { act } => match act {
                Act::Remove { close, cap: _ } => match close.take(&own.layout, found) {
                    StageEnd::Going => goes_on(active),
                    StageEnd::Decided(_) => {
                        let close = *close;
                        removed(active, &close, tells)
                    }
                    StageEnd::Done(_) => refused_late(active, Refusal::Raced, tells),
                    StageEnd::Refuse(reply) => refused_late(active, Refusal::of(&reply), tells),
                },
                _ => unreachable!(),
            },
            Work::Lookup { .. } | Work::Read { .. } | Work::Scan { .. } | Work::Acquire { .. } =>
                unreachable!(),
        },
        Stage::Enter | Stage::Living { .. } | Stage::Decided { .. } | Stage::Leave { .. } =>
            unreachable!(),
    }
}

// A step of a tick.
#[inline(never)]
#[tactic(auto, using(crate::proofs::Staged::told_from, crate::proofs::Staged::call_from))]
fn tick_step(active: &mut ActiveCall, own: &Own, found: u64, tells: &mut Told)
    requires fits { StageFits own.now.layout active.old.stage }
    requires ticks { IsTicking active.old.stage }
    requires few { active.old.steps < 1000 }
    requires going { tells.old ≡ Told.Going }
    ensures told { tells.new ≡ told (took own.now active.old found) }
    ensures after { active.new ≡ call_after active.old (took own.now active.old found) }
{
    match &mut active.stage {
        Stage::Undecided { work } => match work {
            Work::Act { act } => match act {
                Act::Tick { charge } => {
                    let due = ticks_of(charge);
                    match charge.take(&own.layout, found) {
                        StageEnd::Going => goes_on(active),
                        StageEnd::Decided(reply) => stays_owed(active, due, &reply, tells),
                        StageEnd::Done(value) => charged(active, due, &value, tells),
                        StageEnd::Refuse(reply) => stays_owed(active, due, &reply, tells),
                    }
                }
                _ => unreachable!(),
            },
            Work::Lookup { .. } | Work::Read { .. } | Work::Scan { .. } | Work::Acquire { .. } =>
                unreachable!(),
        },
        Stage::Enter | Stage::Living { .. } | Stage::Decided { .. } | Stage::Leave { .. } =>
            unreachable!(),
    }
}

// A step of a call on two temporal capabilities.
#[inline(never)]
#[tactic(auto, using(crate::proofs::Staged::told_from, crate::proofs::Staged::call_from))]
fn share_step(active: &mut ActiveCall, own: &Own, found: u64, tells: &mut Told)
    requires fits { StageFits own.now.layout active.old.stage }
    requires shares { IsSharing active.old.stage }
    requires few { active.old.steps < 1000 }
    requires going { tells.old ≡ Told.Going }
    ensures told { tells.new ≡ told (took own.now active.old found) }
    ensures after { active.new ≡ call_after active.old (took own.now active.old found) }
{
    match &mut active.stage {
        Stage::Undecided { work } => match work {
            Work::Act { act } => match act {
                Act::Share { pair } => match pair.take(&own.layout, found) {
                    StageEnd::Going => goes_on(active),
                    end => share_ends(active, &end, tells),
                },
                _ => unreachable!(),
            },
            Work::Lookup { .. } | Work::Read { .. } | Work::Scan { .. } | Work::Acquire { .. } =>
                unreachable!(),
        },
        Stage::Enter | Stage::Living { .. } | Stage::Decided { .. } | Stage::Leave { .. } =>
            unreachable!(),
    }
}

// A step of another act.
#[inline(never)]
fn other_step(active: &mut ActiveCall, own: &Own, found: u64, tells: &mut Told)
    requires fits { StageFits own.now.layout active.old.stage }
    requires acting { IsActing active.old.stage }
    requires few { active.old.steps < 1000 }
    requires going { tells.old ≡ Told.Going }
    ensures told { tells.new ≡ told (took own.now active.old found) }
    ensures after { active.new ≡ call_after active.old (took own.now active.old found) }
{
    match &mut active.stage {
        Stage::Undecided { work } => match work {
            Work::Act { act } => {
                if act_moves(act, &own.layout, found) {
                    goes_on(active)
                } else {
                    act_ends(active, own, found, tells)
                }
            }
            Work::Lookup { .. } | Work::Read { .. } | Work::Scan { .. } | Work::Acquire { .. } =>
                unreachable!(),
        },
        Stage::Enter | Stage::Living { .. } | Stage::Decided { .. } | Stage::Leave { .. } =>
            unreachable!(),
    }
}

// A step of the call's act, after which the same act does not go on: one that ends in its place, or another.
#[inline]
fn act_ends(active: &mut ActiveCall, own: &Own, found: u64, tells: &mut Told)
    requires fits { StageFits own.now.layout active.old.stage }
    requires acting { IsActing active.old.stage }
    requires few { active.old.steps < 1000 }
    requires going { tells.old ≡ Told.Going }
    ensures told { tells.new ≡ told (took own.now active.old found) }
    ensures after { active.new ≡ call_after active.old (took own.now active.old found) }
{
    match &active.stage {
        Stage::Undecided { work } => match work {
            Work::Act { act } => match act {
                Act::Invoke { invoking: _ } => invoke_ends(active, own, found, tells),
                Act::Return { returning: _ } => return_ends(active, own, found, tells),
                Act::Switch { switching: _ } => switch_ends(active, own, found, tells),
                _ => act_lands(active, own, found, tells),
            },
            Work::Lookup { .. } | Work::Read { .. } | Work::Scan { .. } | Work::Acquire { .. } =>
                unreachable!(),
        },
        Stage::Enter | Stage::Living { .. } | Stage::Decided { .. } | Stage::Leave { .. } =>
            unreachable!(),
    }
}
