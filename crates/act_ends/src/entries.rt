//! Where entering a component through a gate ends, and where leaving it does.

ghost use Rattle.std.specs.Prelude.{Some, true, ◌<◌, ◌==◌, ◌≡◌};
ghost use Rattle.step_lands.specs.Standing.{IsInvoking, IsReturning};
ghost use Rattle.step_lands.specs.act_states.specs.Acts.{meets_below_pages, meets_gate};
ghost use Rattle.step_lands.specs.act_states.specs.Invocations.{enters_if, left_to};
ghost use Rattle.step_lands.specs.call_stages.specs.Fits.{StageFits};
ghost use Rattle.step_lands.specs.call_stages.specs.Steps.{call_after, landed, told, took};

use crate::ends::act_lands;
use act_counts::frame_in;
use spk_nums::{FrameNo, Reply, Stamp, Value};
use step_lands::act_states::frame_words::{CompWord, LiveWord};
use step_lands::act_states::stage_pins::Pin;
use step_lands::act_states::stage_quiet::drawn;
use step_lands::act_states::stage_thread::{Pop, Push};
use step_lands::act_states::{
    Act, Invoking, InvokingAt, Own, OwnChange, Refusal, Returning, ReturningAt, Tail, Work,
};
use step_lands::call_stages::{ActiveCall, Stage, Told};
use step_lands::{go_on, refused_late};

/// A step of an entering that does not go on to the next load: after it the count of the component's frame is acquired, or the call is
/// decided.
#[inline(never)]
pub fn invoke_ends(active: &mut ActiveCall, own: &Own, found: u64, tells: &mut Told)
    requires fits { StageFits own.now.layout active.old.stage }
    requires invokes { IsInvoking active.old.stage }
    requires few { active.old.steps < 1000 }
    requires going { tells.old ≡ Told.Going }
    ensures told { tells.new ≡ told (took own.now active.old found) }
    ensures after { active.new ≡ call_after active.old (took own.now active.old found) }
{
    match &active.stage {
        Stage::Undecided { work } => match work {
            Work::Act { act } => match act {
                Act::Invoke { invoking } => {
                    let invoking = *invoking;
                    let at = invoking.at;
                    match at {
                        InvokingAt::LoadComp { table, pages } => match CompWord::unpack(found) {
                            None => refused_late(active, Refusal::Raced, tells),
                            Some(life) => gate_met(active, &invoking, table, pages, life),
                        },
                        InvokingAt::LoadLive {
                            table,
                            pages,
                            life: _,
                        } => match LiveWord::unpack(found) {
                            Some(LiveWord::Live { epoch, frame: _ }) => {
                                enters(active, &invoking, table, pages, epoch, tells)
                            }
                            _ => act_lands(active, own, found, tells),
                        },
                        _ => act_lands(active, own, found, tells),
                    }
                }
                _ => unreachable!(),
            },
            Work::Lookup { .. } | Work::Read { .. } | Work::Scan { .. } | Work::Acquire { .. } =>
                unreachable!(),
        },
        Stage::Enter | Stage::Living { .. } | Stage::Decided { .. } | Stage::Leave { .. } =>
            unreachable!(),
    }
}

// The number's word is live in this epoch: the component is entered where that is the gate's, and is dead else.
#[inline]
fn enters(
    active: &mut ActiveCall,
    invoking: &Invoking,
    table: FrameNo,
    pages: FrameNo,
    epoch: u16,
    tells: &mut Told,
)
    requires few { active.old.steps < 1000 }
    requires going { tells.old ≡ Told.Going }
    ensures told { tells.new ≡ told (landed active.old (enters_if invoking.now table pages (epoch == invoking.now.epoch))) }
    ensures after { active.new ≡ call_after active.old (landed active.old (enters_if invoking.now table pages (epoch == invoking.now.epoch))) }
{
    if u32::from(epoch) == invoking.epoch {
        entered(active, invoking, table, pages, tells)
    } else {
        refused_late(active, Refusal::Dead, tells)
    }
}

// The words of the component are loaded: the count of its frame is acquired before it is looked whether it lives.
#[inline]
fn gate_met(
    active: &mut ActiveCall,
    invoking: &Invoking,
    table: FrameNo,
    pages: FrameNo,
    life: CompWord,
)
    requires few { active.old.steps < 1000 }
    ensures { active.new ≡ call_after active.old (landed active.old (meets_gate invoking.now table pages (Some life))) }
{
    go_on(
        active,
        Stage::Undecided {
            work: Work::Acquire {
                pin: Pin::new(invoking.comp, invoking.core),
                change: 1,
                act: Act::Invoke {
                    invoking: Invoking {
                        at: InvokingAt::LoadLive { table, pages, life },
                        ..*invoking
                    },
                },
            },
        },
    );
}

// The component lives: it is entered, and still to be pushed.
#[inline]
fn entered(
    active: &mut ActiveCall,
    invoking: &Invoking,
    table: FrameNo,
    pages: FrameNo,
    tells: &mut Told,
)
    requires few { active.old.steps < 1000 }
    requires going { tells.old ≡ Told.Going }
    ensures told { tells.new ≡ told (landed active.old (enters_if invoking.now table pages true)) }
    ensures after { active.new ≡ call_after active.old (landed active.old (enters_if invoking.now table pages true)) }
{
    go_on(
        active,
        Stage::Decided {
            reply: Reply::Ok(Value::Nothing),
            drawn: None,
            tail: Tail::Push {
                push: Push::new(
                    invoking.thread,
                    invoking.core,
                    invoking.depth,
                    invoking.comp,
                ),
            },
        },
    );
    *tells = Told::Changed {
        reply: Reply::Ok(Value::Nothing),
        change: OwnChange::Works {
            comp: invoking.comp,
            table,
            pages,
            depth: invoking.depth.saturating_add(1),
        },
    };
}

/// A step of a leaving that does not go on to the next load: after it the count of the top's frame is acquired, or the call is decided.
#[inline(never)]
pub fn return_ends(active: &mut ActiveCall, own: &Own, found: u64, tells: &mut Told)
    requires fits { StageFits own.now.layout active.old.stage }
    requires returns { IsReturning active.old.stage }
    requires few { active.old.steps < 1000 }
    requires going { tells.old ≡ Told.Going }
    ensures told { tells.new ≡ told (took own.now active.old found) }
    ensures after { active.new ≡ call_after active.old (took own.now active.old found) }
{
    match &active.stage {
        Stage::Undecided { work } => match work {
            Work::Act { act } => match act {
                Act::Return { returning } => {
                    let returning = *returning;
                    let at = returning.at;
                    match at {
                        ReturningAt::LoadPages { comp, table } => {
                            match frame_in(returning.frames, found) {
                                None => refused_late(active, Refusal::Raced, tells),
                                Some(pages) => below_met(active, &returning, comp, table, pages),
                            }
                        }
                        ReturningAt::Draw { comp, table, pages } => {
                            left(active, &returning, comp, table, pages, drawn(found), tells)
                        }
                        _ => act_lands(active, own, found, tells),
                    }
                }
                _ => unreachable!(),
            },
            Work::Lookup { .. } | Work::Read { .. } | Work::Scan { .. } | Work::Acquire { .. } =>
                unreachable!(),
        },
        Stage::Enter | Stage::Living { .. } | Stage::Decided { .. } | Stage::Leave { .. } =>
            unreachable!(),
    }
}

// The words of the component below are loaded: the count of the top's frame is acquired before the stamp is drawn.
#[inline]
fn below_met(
    active: &mut ActiveCall,
    returning: &Returning,
    comp: FrameNo,
    table: FrameNo,
    pages: FrameNo,
)
    requires few { active.old.steps < 1000 }
    ensures { active.new ≡ call_after active.old (landed active.old (meets_below_pages returning.now comp table (Some pages))) }
{
    go_on(
        active,
        Stage::Undecided {
            work: Work::Acquire {
                pin: Pin::new(returning.top, returning.core),
                change: -1,
                act: Act::Return {
                    returning: Returning {
                        at: ReturningAt::Draw { comp, table, pages },
                        ..*returning
                    },
                },
            },
        },
    );
}

// The component is left, and the top still to be popped.
#[inline]
fn left(
    active: &mut ActiveCall,
    returning: &Returning,
    comp: FrameNo,
    table: FrameNo,
    pages: FrameNo,
    stamp: Stamp,
    tells: &mut Told,
)
    requires few { active.old.steps < 1000 }
    requires going { tells.old ≡ Told.Going }
    ensures told { tells.new ≡ told (landed active.old (left_to returning.now comp table pages stamp)) }
    ensures after { active.new ≡ call_after active.old (landed active.old (left_to returning.now comp table pages stamp)) }
{
    go_on(
        active,
        Stage::Decided {
            reply: Reply::Ok(Value::Nothing),
            drawn: Some(stamp),
            tail: Tail::Pop {
                pop: Pop::new(returning.thread, returning.core, returning.depth),
            },
        },
    );
    *tells = Told::Changed {
        reply: Reply::Ok(Value::Nothing),
        change: OwnChange::Works {
            comp,
            table,
            pages,
            depth: returning.depth.saturating_sub(1),
        },
    };
}
