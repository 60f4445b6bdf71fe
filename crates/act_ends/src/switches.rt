//! Where a switch to another thread ends.

ghost use Rattle.std.specs.Prelude.{Some, ◌<◌, ◌≡◌};
ghost use Rattle.step_lands.specs.Standing.{IsSwitching};
ghost use Rattle.step_lands.specs.act_states.specs.Acts.{switch_pages};
ghost use Rattle.step_lands.specs.act_states.specs.Switches.{switched};
ghost use Rattle.step_lands.specs.call_stages.specs.Fits.{StageFits};
ghost use Rattle.step_lands.specs.call_stages.specs.Steps.{call_after, landed, told, took};

use crate::ends::act_lands;
use act_counts::frame_in;
use spk_nums::{FrameNo, Reply, Stamp, Value};
use step_lands::act_states::stage_pins::Pin;
use step_lands::act_states::stage_quiet::drawn;
use step_lands::act_states::stage_thread::Claimed;
use step_lands::act_states::{Act, Own, OwnChange, SwitchAt, Switching, Tail, Work};
use step_lands::call_stages::{ActiveCall, Stage, Told};
use step_lands::go_on;

/// A step of a switch that does not go on to the next: after it the first count is acquired, or the call is decided.
#[inline(never)]
pub fn switch_ends(active: &mut ActiveCall, own: &Own, found: u64, tells: &mut Told)
    requires fits { StageFits own.now.layout active.old.stage }
    requires switches { IsSwitching active.old.stage }
    requires few { active.old.steps < 1000 }
    requires going { tells.old ≡ Told.Going }
    ensures told { tells.new ≡ told (took own.now active.old found) }
    ensures after { active.new ≡ call_after active.old (took own.now active.old found) }
{
    match &active.stage {
        Stage::Undecided { work } => match work {
            Work::Act { act } => match act {
                Act::Switch { switching } => {
                    let switching = *switching;
                    let at = switching.at;
                    match at {
                        SwitchAt::LoadPages { to, table } => {
                            match frame_in(switching.frames, found) {
                                None => act_lands(active, own, found, tells),
                                Some(pages) => pages_met(active, &switching, &to, table, pages),
                            }
                        }
                        SwitchAt::Draw { to, table, pages } => {
                            went_to(active, &switching, &to, table, pages, drawn(found), tells)
                        }
                        _ => act_lands(active, own, found, tells),
                    }
                }
                _ => unreachable!(),
            },
            Work::Lookup { .. } | Work::Read { .. } | Work::Scan { .. } | Work::Acquire { .. } =>
                unreachable!(),
        },
        Stage::Enter | Stage::Living { .. } | Stage::Decided { .. } | Stage::Leave { .. } =>
            unreachable!(),
    }
}

// The words of the component at the top are loaded: the counts are acquired, that of the thread first, before the own thread is left.
#[inline]
fn pages_met(
    active: &mut ActiveCall,
    switching: &Switching,
    to: &Claimed,
    table: FrameNo,
    pages: FrameNo,
)
    requires few { active.old.steps < 1000 }
    ensures { active.new ≡ call_after active.old (landed active.old (switch_pages switching.now to.now table (Some pages))) }
{
    go_on(
        active,
        Stage::Undecided {
            work: Work::Acquire {
                pin: Pin::new(to.thread, switching.core),
                change: 1,
                act: Act::Switch {
                    switching: Switching {
                        at: SwitchAt::Leave {
                            to: *to,
                            table,
                            pages,
                        },
                        ..*switching
                    },
                },
            },
        },
    );
}

// The core goes on as the thread, and the words of both threads are still to be stored.
#[inline]
fn went_to(
    active: &mut ActiveCall,
    switching: &Switching,
    to: &Claimed,
    table: FrameNo,
    pages: FrameNo,
    stamp: Stamp,
    tells: &mut Told,
)
    requires few { active.old.steps < 1000 }
    requires going { tells.old ≡ Told.Going }
    ensures told { tells.new ≡ told (landed active.old (switched switching.now to.now table pages stamp)) }
    ensures after { active.new ≡ call_after active.old (landed active.old (switched switching.now to.now table pages stamp)) }
{
    go_on(
        active,
        Stage::Decided {
            reply: Reply::Ok(Value::Nothing),
            drawn: Some(stamp),
            tail: Tail::StoreRunning {
                thread: to.thread,
                core: switching.core,
                depth: to.depth,
                old: switching.old,
                old_depth: switching.old_depth,
            },
        },
    );
    *tells = Told::Changed {
        reply: Reply::Ok(Value::Nothing),
        change: OwnChange::Switches {
            thread: to.thread,
            depth: to.depth,
            comp: to.comp,
            table,
            pages,
            tcap: switching.tcap,
        },
    };
}
