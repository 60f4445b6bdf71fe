//! Steps that end an act in their place: those that most calls make.
//!
//! **In place.** A step that decides writes the call's stage, with what is still to be stored, and tells of it. One after which a count is
//! acquired writes where the act then stands and the acquiring. All others are told by `act_took`.

ghost use Rattle.step_lands.specs.spk_nums.specs.declared.replies.Reply.TheVariants.{Ok};
ghost use Rattle.step_lands.specs.spk_nums.specs.declared.replies.Value.TheVariants.{Nothing};
ghost use Rattle.std.specs.Prelude.{None, ◌-◌, ◌<◌, ◌≡◌};
ghost use Rattle.step_lands.specs.Standing.{IsActing, IsSharing, shared_to};
ghost use Rattle.step_lands.specs.act_states.specs.Acts.{drawn_by};
ghost use Rattle.step_lands.specs.act_states.specs.Flushes.{took_flush};
ghost use Rattle.step_lands.specs.act_states.specs.Shares.{shared};
ghost use Rattle.step_lands.specs.act_states.specs.Ticks.{charged_in, owes};
ghost use Rattle.step_lands.specs.act_states.specs.declared.own.OwnChange.TheVariants.{Ticks};
ghost use Rattle.step_lands.specs.act_states.specs.declared.work.WorkStep.TheVariants.{Answers, Changes};
ghost use Rattle.step_lands.specs.call_stages.specs.Fits.{StageFits};
ghost use Rattle.step_lands.specs.call_stages.specs.Steps.{call_after, landed, told, took};
ghost use Rattle.step_lands.specs.act_states.specs.declared.work.Tail.TheVariants as tail;

use act_counts::{charged_in, drawn_by};
use call_acts::act_took;
use spk_nums::{CoreNo, Reply, StageEnd, Value};
use step_lands::act_states::stage_quiet::{Close, FlushMark, drawn};
use step_lands::act_states::stage_tcap::Pair;
use step_lands::act_states::{Act, Own, OwnChange, Refusal, Tail, Work};
use step_lands::call_stages::{ActiveCall, Stage, Told};
use step_lands::{decide, go_on, goes_on, land, refused, refused_late};

/// A removal is carried out, and has the entry still to store: it stands here.
#[inline(never)]
pub fn removed(active: &mut ActiveCall, close: &Close, tells: &mut Told)
    requires few { active.old.steps < 1000 }
    requires going { tells.old ≡ Told.Going }
    ensures told { tells.new ≡ told (landed active.old (Answers Nothing (drawn_by close.now) (tail.Quiesce close.now))) }
    ensures after { active.new ≡ call_after active.old (landed active.old (Answers Nothing (drawn_by close.now) (tail.Quiesce close.now))) }
{
    go_on(
        active,
        Stage::Decided {
            reply: Reply::Ok(Value::Nothing),
            drawn: drawn_by(close),
            tail: Tail::Quiesce { close: *close },
        },
    );
    *tells = Told::Decided {
        reply: Reply::Ok(Value::Nothing),
    };
}

/// So many ticks, as this value says, are charged of those that are due.
#[inline(never)]
pub fn charged(active: &mut ActiveCall, due: u64, value: &Value, tells: &mut Told)
    requires few { active.old.steps < 1000 }
    requires going { tells.old ≡ Told.Going }
    ensures told { tells.new
        ≡ told (landed active.old (Changes (Ok value.now) (Ticks (charged_in value.now) (due - charged_in value.now)) None tail.Nothing)) }
    ensures after { active.new ≡ call_after active.old
        (landed active.old (Changes (Ok value.now) (Ticks (charged_in value.now) (due - charged_in value.now)) None tail.Nothing)) }
{
    let charged = charged_in(value);
    let owed = due.saturating_sub(u64::from(charged));
    changes(
        active,
        &Reply::Ok(*value),
        &OwnChange::Ticks { charged, owed },
        tells,
    )
}

/// A tick is refused with this reply, and all ticks that are due stay owed.
#[inline(never)]
pub fn stays_owed(active: &mut ActiveCall, due: u64, reply: &Reply, tells: &mut Told)
    requires few { active.old.steps < 1000 }
    requires going { tells.old ≡ Told.Going }
    ensures told { tells.new ≡ told (landed active.old (owes reply.now due)) }
    ensures after { active.new ≡ call_after active.old (landed active.old (owes reply.now due)) }
{
    changes(
        active,
        reply,
        &OwnChange::Ticks {
            charged: 0,
            owed: due,
        },
        tells,
    )
}

// The call is decided with this reply, has nothing to store, and changes this of what its core has of its own.
#[inline]
fn changes(active: &mut ActiveCall, reply: &Reply, change: &OwnChange, tells: &mut Told)
    requires few { active.old.steps < 1000 }
    requires going { tells.old ≡ Told.Going }
    ensures told { tells.new ≡ told (landed active.old (Changes reply.now change.now None tail.Nothing)) }
    ensures after { active.new ≡ call_after active.old (landed active.old (Changes reply.now change.now None tail.Nothing)) }
{
    go_on(
        active,
        Stage::Decided {
            reply: *reply,
            drawn: None,
            tail: Tail::Nothing,
        },
    );
    *tells = Told::Changed {
        reply: *reply,
        change: *change,
    };
}

/// A flush of a core has found this clock: it is carried out, and has its stamp still to store.
#[inline(never)]
pub fn flushed(active: &mut ActiveCall, own: &Own, core: CoreNo, found: u64, tells: &mut Told)
    requires core { core < own.now.layout.cores }
    requires few { active.old.steps < 1000 }
    requires going { tells.old ≡ Told.Going }
    ensures told { tells.new ≡ told (landed active.old (took_flush core found)) }
    ensures after { active.new ≡ call_after active.old (landed active.old (took_flush core found)) }
{
    let mut mark = FlushMark::new(core);
    let _ = mark.take(&own.layout, found);
    match mark {
        FlushMark::AtLoad { core: _ } => refused_late(active, Refusal::Raced, tells),
        FlushMark::AtStore { core, stamp } => {
            go_on(
                active,
                Stage::Decided {
                    reply: Reply::Ok(Value::Nothing),
                    drawn: None,
                    tail: Tail::StoreFlush { core, stamp },
                },
            );
            *tells = Told::Changed {
                reply: Reply::Ok(Value::Nothing),
                change: OwnChange::Empties,
            };
        }
    }
}

/// A step of the call's act, after which the same act does not go on, or of an act whose steps are not made in its place.
#[inline(never)]
pub fn act_lands(active: &mut ActiveCall, own: &Own, found: u64, tells: &mut Told)
    requires fits { StageFits own.now.layout active.old.stage }
    requires acting { IsActing active.old.stage }
    requires few { active.old.steps < 1000 }
    requires going { tells.old ≡ Told.Going }
    ensures told { tells.new ≡ told (took own.now active.old found) }
    ensures after { active.new ≡ call_after active.old (took own.now active.old found) }
{
    match &active.stage {
        Stage::Undecided { work } => match work {
            Work::Act { act } => {
                let step = act_took(act, &own.layout, found);
                land(active, &step, tells)
            }
            Work::Lookup { .. } | Work::Read { .. } | Work::Scan { .. } | Work::Acquire { .. } =>
                unreachable!(),
        },
        Stage::Enter | Stage::Living { .. } | Stage::Decided { .. } | Stage::Leave { .. } =>
            unreachable!(),
    }
}

/// A step of a call on two temporal capabilities, after which it does not go on.
#[inline(never)]
pub fn share_ends(active: &mut ActiveCall, end: &StageEnd<Value>, tells: &mut Told)
    requires shares { IsSharing active.old.stage }
    requires few { active.old.steps < 1000 }
    requires going { tells.old ≡ Told.Going }
    ensures told { tells.new ≡ told (shared_to active.old active.old.stage end.now) }
    ensures after { active.new ≡ call_after active.old (shared_to active.old active.old.stage end.now) }
{
    match &active.stage {
        Stage::Undecided { work } => match work {
            Work::Act { act } => match act {
                Act::Share { pair } => match end {
                    StageEnd::Going => goes_on(active),
                    StageEnd::Decided(reply) => {
                        let pair = *pair;
                        share_decides(active, &pair, reply, tells)
                    }
                    StageEnd::Done(_) => refused(active, Refusal::Raced, tells),
                    StageEnd::Refuse(reply) => refused(active, Refusal::of(reply), tells),
                },
                _ => unreachable!(),
            },
            Work::Lookup { .. } | Work::Read { .. } | Work::Scan { .. } | Work::Acquire { .. } =>
                unreachable!(),
        },
        Stage::Enter | Stage::Living { .. } | Stage::Decided { .. } | Stage::Leave { .. } =>
            unreachable!(),
    }
}

// A call on two temporal capabilities is decided with this reply, and has still to store what stands here.
#[inline]
fn share_decides(active: &mut ActiveCall, pair: &Pair, reply: &Reply, tells: &mut Told)
    requires few { active.old.steps < 1000 }
    requires going { tells.old ≡ Told.Going }
    ensures told { tells.new ≡ told (landed active.old (shared pair.now reply.now)) }
    ensures after { active.new ≡ call_after active.old (landed active.old (shared pair.now reply.now)) }
{
    let tail = Tail::Share { pair: *pair };
    match reply {
        Reply::Ok(value) => decide(active, &Reply::Ok(*value), None, &tail, tells),
        _ => decide(active, &Refusal::of(reply).reply(), None, &tail, tells),
    }
}
