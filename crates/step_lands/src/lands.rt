//! Where a call lands: it has made one more step, and goes on, or is decided, each in its place.

ghost use Rattle.call_stages.specs.Steps.{Changes, call_after, decided, landed, told, went};
ghost use Rattle.call_stages.specs.act_states.specs.WorkSteps.{refuse};
ghost use Rattle.call_stages.specs.declared.stages.Stage.TheVariants.{Decided};
ghost use Rattle.std.specs.Prelude.{◌<◌, ◌≡◌};

use call_stages::act_states::{OwnChange, Refusal, Tail, WorkStep};
use call_stages::{ActiveCall, Stage, Told};
use spk_nums::{Reply, Stamp};

/// The call is refused, with nothing to store.
#[inline]
pub fn refused(active: &mut ActiveCall, refusal: Refusal, tells: &mut Told)
    requires few { active.old.steps < 1000 }
    requires going { tells.old ≡ Told.Going }
    ensures told { tells.new ≡ told (landed active.old (refuse refusal)) }
    ensures after { active.new ≡ call_after active.old (landed active.old (refuse refusal)) }
{
    decide(active, &refusal.reply(), None, &Tail::Nothing, tells)
}

/// The call goes where a step of its work takes it.
#[inline]
pub fn land(active: &mut ActiveCall, step: &WorkStep, tells: &mut Told)
    requires few { active.old.steps < 1000 }
    requires going { tells.old ≡ Told.Going }
    ensures told { tells.new ≡ told (landed active.old step.now) }
    ensures after { active.new ≡ call_after active.old (landed active.old step.now) }
{
    match step {
        WorkStep::Goes { work } => {
            go_on(active, Stage::Undecided { work: *work });
        }
        WorkStep::Acquires { count, work } => {
            active.counts.push(*count);
            go_on(active, Stage::Undecided { work: *work });
        }
        WorkStep::Refuses { refusal, tail } => decide(active, &refusal.reply(), None, tail, tells),
        WorkStep::Answers { value, drawn, tail } => {
            decide(active, &Reply::Ok(*value), *drawn, tail, tells)
        }
        WorkStep::Changes {
            reply,
            change,
            drawn,
            tail,
        } => decide_changing(active, reply, change, *drawn, tail, tells),
    }
}

// The call is decided with this reply, has drawn this stamp or none and has this to store, and changes this of what its core has of its
// own.
#[inline(never)]
fn decide_changing(
    active: &mut ActiveCall,
    reply: &Reply,
    change: &OwnChange,
    drawn: Option<Stamp>,
    tail: &Tail,
    tells: &mut Told,
)
    requires few { active.old.steps < 1000 }
    requires going { tells.old ≡ Told.Going }
    ensures told { tells.new ≡ told (Changes reply.now change.now (went active.old (Decided reply.now drawn tail.now))) }
    ensures after { active.new ≡ went active.old (Decided reply.now drawn tail.now) }
{
    go_on(
        active,
        Stage::Decided {
            reply: *reply,
            drawn,
            tail: *tail,
        },
    );
    *tells = Told::Changed {
        reply: *reply,
        change: *change,
    };
}

/// The call is decided with this reply, and has drawn this stamp or none.
#[inline]
pub fn decide(
    active: &mut ActiveCall,
    reply: &Reply,
    drawn: Option<Stamp>,
    tail: &Tail,
    tells: &mut Told,
)
    requires few { active.old.steps < 1000 }
    requires going { tells.old ≡ Told.Going }
    ensures told { tells.new ≡ told (decided active.old reply.now drawn tail.now) }
    ensures after { active.new ≡ call_after active.old (decided active.old reply.now drawn tail.now) }
{
    go_on(
        active,
        Stage::Decided {
            reply: *reply,
            drawn,
            tail: *tail,
        },
    );
    *tells = Told::Decided { reply: *reply };
}

/// The call has made one more step, in its place.
#[inline]
pub fn goes_on(active: &mut ActiveCall)
    requires { active.old.steps < 1000 }
    ensures { active.new ≡ went active.old active.old.stage }
{
    active.steps += 1;
}

/// The call has made one more step, and stands at this stage.
#[inline]
pub fn go_on(active: &mut ActiveCall, stage: Stage)
    requires { active.old.steps < 1000 }
    ensures { active.new ≡ went active.old stage }
{
    active.steps += 1;
    active.stage = stage;
}

/// The call is refused, with nothing to store.
#[inline(never)]
pub fn refused_late(active: &mut ActiveCall, refusal: Refusal, tells: &mut Told)
    requires few { active.old.steps < 1000 }
    requires going { tells.old ≡ Told.Going }
    ensures told { tells.new ≡ told (landed active.old (refuse refusal)) }
    ensures after { active.new ≡ call_after active.old (landed active.old (refuse refusal)) }
{
    refused(active, refusal, tells)
}
