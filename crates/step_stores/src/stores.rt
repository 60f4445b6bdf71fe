//! What a decided call stores, and its exit, each step in its place.

ghost use Rattle.std.specs.Prelude.{◌<◌, ◌≡◌};
ghost use Rattle.step_lands.specs.Standing.{IsStoring, IsStoringShare};
ghost use Rattle.step_lands.specs.call_stages.specs.Fits.{StageFits};
ghost use Rattle.step_lands.specs.call_stages.specs.Steps.{call_after, told, took};
ghost use Rattle.step_lands.specs.call_stages.specs.declared.stages.Told.TheVariants as told_as;

use crate::tails::{commits, stamp_of, took_tail};
use spk_nums::StageEnd;
use step_lands::act_states::stage_thread::{Pop, Push};
use step_lands::act_states::{Own, Tail};
use step_lands::call_stages::{ActiveCall, Stage};
use step_lands::{go_on, goes_on};

/// A step of a call that is decided: a store, a commit, or the load of the clock.
#[inline(always)]
pub fn store(active: &mut ActiveCall, own: &Own, found: u64)
    requires fits { StageFits own.now.layout active.old.stage }
    requires decided { IsStoring active.old.stage }
    requires few { active.old.steps < 1000 }
    ensures told { told (took own.now active.old found) ≡ told_as.Going }
    ensures after { active.new ≡ call_after active.old (took own.now active.old found) }
{
    match &mut active.stage {
        Stage::Decided {
            reply,
            drawn: _,
            tail,
        } => match tail {
            Tail::Nothing => match active.counts.first() {
                None => {
                    let reply = *reply;
                    go_on(
                        active,
                        Stage::Leave {
                            reply,
                            stamp: stamp_of(found),
                        },
                    );
                }
                Some(_) => {
                    active.counts.pop();
                    goes_on(active)
                }
            },
            Tail::Share { pair: _ } => store_share(active, own, found),
            Tail::Quiesce { close: _ }
            | Tail::Unmark { frame: _, word: _ }
            | Tail::StoreFlush { core: _, stamp: _ }
            | Tail::StoreIdle {
                thread: _,
                depth: _,
            } => {
                *tail = Tail::Nothing;
                goes_on(active)
            }
            Tail::StoreRunning {
                thread: _,
                core: _,
                depth: _,
                old,
                old_depth,
            } => {
                let (thread, depth) = (*old, *old_depth);
                *tail = Tail::StoreIdle { thread, depth };
                goes_on(active)
            }
            Tail::Push { push } => {
                let at = *push;
                match at {
                    Push::AtStack {
                        thread,
                        core,
                        depth,
                        comp: _,
                    } => {
                        *push = Push::AtThread {
                            thread,
                            core,
                            depth,
                        }
                    }
                    Push::AtThread { .. } => *tail = Tail::Nothing,
                }
                goes_on(active)
            }
            Tail::Pop { pop } => {
                let at = *pop;
                match at {
                    Pop::AtThread {
                        thread,
                        core: _,
                        depth,
                    } => *pop = Pop::AtStack { thread, depth },
                    Pop::AtStack { .. } => *tail = Tail::Nothing,
                }
                goes_on(active)
            }
            _ => store_other(active, own, found),
        },
        Stage::Enter | Stage::Living { .. } | Stage::Undecided { .. } | Stage::Leave { .. } =>
            unreachable!(),
    }
}

// A store of a call on two temporal capabilities that is decided.
#[inline(never)]
fn store_share(active: &mut ActiveCall, own: &Own, found: u64)
    requires fits { StageFits own.now.layout active.old.stage }
    requires shares { IsStoringShare active.old.stage }
    requires few { active.old.steps < 1000 }
    ensures told { told (took own.now active.old found) ≡ told_as.Going }
    ensures after { active.new ≡ call_after active.old (took own.now active.old found) }
{
    match &mut active.stage {
        Stage::Decided {
            reply: _,
            drawn: _,
            tail,
        } => match tail {
            Tail::Share { pair } => match pair.take(&own.layout, found) {
                StageEnd::Going => goes_on(active),
                _ => {
                    *tail = Tail::Nothing;
                    goes_on(active)
                }
            },
            _ => unreachable!(),
        },
        Stage::Enter | Stage::Living { .. } | Stage::Undecided { .. } | Stage::Leave { .. } =>
            unreachable!(),
    }
}

// A store of a call that is decided, after which another may come.
#[inline(never)]
fn store_other(active: &mut ActiveCall, own: &Own, found: u64)
    requires fits { StageFits own.now.layout active.old.stage }
    requires decided { IsStoring active.old.stage }
    requires few { active.old.steps < 1000 }
    ensures told { told (took own.now active.old found) ≡ told_as.Going }
    ensures after { active.new ≡ call_after active.old (took own.now active.old found) }
{
    match &active.stage {
        Stage::Decided { reply, drawn, tail } => {
            let (reply, drawn, tail) = (*reply, *drawn, *tail);
            let stage = took_tail(reply, drawn, &tail, &active.counts, &own.layout, found);
            if commits(&tail) {
                active.counts.pop();
            }
            go_on(active, stage);
        }
        Stage::Enter | Stage::Living { .. } | Stage::Undecided { .. } | Stage::Leave { .. } =>
            unreachable!(),
    }
}
