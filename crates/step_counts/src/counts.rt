//! The counts that a call acquires, and the scan before them, each step in its place.

ghost use Rattle.std.specs.Prelude.{length, ◌+◌, ◌<◌, ◌≡◌};
ghost use Rattle.step_lands.specs.Standing.{IsAcquiring, IsScanning, counted, counted_to, given_up, scanned};
ghost use Rattle.step_lands.specs.act_states.specs.Acts.{next_work};
ghost use Rattle.step_lands.specs.act_states.specs.declared.work.WorkStep.TheVariants.{Acquires};
ghost use Rattle.step_lands.specs.call_stages.specs.Fits.{StageFits};
ghost use Rattle.step_lands.specs.call_stages.specs.Steps.{call_after, landed, told, took};

use act_counts::{cap_due, next_work, starts, undo};
use spk_nums::{Cap, StageEnd};
use step_lands::act_states::stage_pins::{Acquired, Pin, Pinned};
use step_lands::act_states::stage_quiet::Close;
use step_lands::act_states::{Act, Fill, Own, Refusal, Work};
use step_lands::call_stages::{ActiveCall, Stage, Told};
use step_lands::{decide, go_on, goes_on, land, refused_late};

/// A step of the scan before a call's act.
#[inline(never)]
#[tactic(auto, using(step_lands::proofs::Staged::told_from, step_lands::proofs::Staged::call_from))]
pub fn scan_step(active: &mut ActiveCall, own: &Own, found: u64, tells: &mut Told)
    requires fits { StageFits own.now.layout active.old.stage }
    requires scans { IsScanning active.old.stage }
    requires few { active.old.steps < 1000 }
    requires going { tells.old ≡ Told.Going }
    ensures told { tells.new ≡ told (took own.now active.old found) }
    ensures after { active.new ≡ call_after active.old (took own.now active.old found) }
{
    match &mut active.stage {
        Stage::Undecided { work } => match work {
            Work::Scan { quiet, act: _ } => match quiet.take(&own.layout, found) {
                StageEnd::Going => goes_on(active),
                StageEnd::Decided(reply) => refused_late(active, Refusal::of(&reply), tells),
                StageEnd::Done(_) => starts_act(active, own, tells),
                StageEnd::Refuse(reply) => refused_late(active, Refusal::of(&reply), tells),
            },
            Work::Lookup { .. } | Work::Read { .. } | Work::Acquire { .. } | Work::Act { .. } =>
                unreachable!(),
        },
        Stage::Enter | Stage::Living { .. } | Stage::Decided { .. } | Stage::Leave { .. } =>
            unreachable!(),
    }
}

/// A step by which a call acquires a count.
#[inline(never)]
#[tactic(auto, using(step_lands::proofs::Staged::told_from, step_lands::proofs::Staged::call_from))]
pub fn acquire_step(active: &mut ActiveCall, own: &Own, found: u64, tells: &mut Told)
    requires fits { StageFits own.now.layout active.old.stage }
    requires acquires { IsAcquiring active.old.stage }
    requires few { active.old.steps < 1000 }
    requires going { tells.old ≡ Told.Going }
    ensures told { tells.new ≡ told (took own.now active.old found) }
    ensures after { active.new ≡ call_after active.old (took own.now active.old found) }
{
    match &mut active.stage {
        Stage::Undecided { work } => match work {
            Work::Acquire { pin, .. } => match pin.take(&own.layout, found) {
                StageEnd::Going => goes_on(active),
                StageEnd::Decided(reply) => gives_up(active, Refusal::of(&reply), tells),
                StageEnd::Done(pin) => acquires(active, own, &pin),
                StageEnd::Refuse(reply) => gives_up(active, Refusal::of(&reply), tells),
            },
            Work::Lookup { .. } | Work::Read { .. } | Work::Scan { .. } | Work::Act { .. } =>
                unreachable!(),
        },
        Stage::Enter | Stage::Living { .. } | Stage::Decided { .. } | Stage::Leave { .. } =>
            unreachable!(),
    }
}

// The act of a call starts whose scan is done.
#[inline(never)]
fn starts_act(active: &mut ActiveCall, own: &Own, tells: &mut Told)
    requires scans { IsScanning active.old.stage }
    requires few { active.old.steps < 1000 }
    requires going { tells.old ≡ Told.Going }
    ensures told { tells.new ≡ told (scanned own.now active.old active.old.stage) }
    ensures after { active.new ≡ call_after active.old (scanned own.now active.old active.old.stage) }
{
    match &active.stage {
        Stage::Undecided { work } => match work {
            Work::Scan { quiet: _, act } => {
                let step = starts(own.core, act);
                land(active, &step, tells)
            }
            Work::Lookup { .. } | Work::Read { .. } | Work::Acquire { .. } | Work::Act { .. } =>
                unreachable!(),
        },
        Stage::Enter | Stage::Living { .. } | Stage::Decided { .. } | Stage::Leave { .. } =>
            unreachable!(),
    }
}

// The call has acquired a count, and goes on to the next, or to its act.
#[inline]
fn acquires(active: &mut ActiveCall, own: &Own, pin: &Pinned)
    requires acquires { IsAcquiring active.old.stage }
    requires few { active.old.steps < 1000 }
    ensures told { told (counted own.now active.old active.old.stage pin.now) ≡ Told.Going }
    ensures after { active.new ≡ call_after active.old (counted own.now active.old active.old.stage pin.now) }
{
    match &active.stage {
        Stage::Undecided { work } => match work {
            Work::Acquire {
                pin: _,
                change,
                act,
            } => {
                let count = Acquired {
                    pin: *pin,
                    change: *change,
                };
                match act {
                    Act::Fill { fill } => {
                        let fill = *fill;
                        fill_counted(active, own, &fill, &count)
                    }
                    Act::Remove { close, cap } => {
                        let (close, cap) = (*close, *cap);
                        remove_counted(active, own, &close, &cap, &count)
                    }
                    _ => act_counted(active, own, &count),
                }
            }
            Work::Lookup { .. } | Work::Read { .. } | Work::Scan { .. } | Work::Act { .. } =>
                unreachable!(),
        },
        Stage::Enter | Stage::Living { .. } | Stage::Decided { .. } | Stage::Leave { .. } =>
            unreachable!(),
    }
}

// A call that fills has acquired this count, and goes on to the next, or to its act.
#[inline(never)]
fn fill_counted(active: &mut ActiveCall, own: &Own, fill: &Fill, count: &Acquired)
    requires few { active.old.steps < 1000 }
    ensures { active.new ≡ call_after active.old
        (landed active.old (Acquires count.now (next_work own.now.core (length active.old.counts + 1) (Act.Fill fill.now)))) }
{
    let due = cap_due(&fill.cap, 1, active.counts.count() + 1);
    active.counts.push(*count);
    match due {
        None => go_on(
            active,
            Stage::Undecided {
                work: Work::Act {
                    act: Act::Fill { fill: *fill },
                },
            },
        ),
        Some(due) => go_on(
            active,
            Stage::Undecided {
                work: Work::Acquire {
                    pin: Pin::new(due.frame, own.core),
                    change: due.change,
                    act: Act::Fill { fill: *fill },
                },
            },
        ),
    }
}

// A call that removes has acquired this count, and goes on to the next, or to its act.
#[inline(never)]
fn remove_counted(active: &mut ActiveCall, own: &Own, close: &Close, cap: &Cap, count: &Acquired)
    requires few { active.old.steps < 1000 }
    ensures { active.new ≡ call_after active.old (landed active.old
        (Acquires count.now (next_work own.now.core (length active.old.counts + 1) (Act.Remove close.now cap.now)))) }
{
    let due = cap_due(cap, -1, active.counts.count() + 1);
    active.counts.push(*count);
    match due {
        None => go_on(
            active,
            Stage::Undecided {
                work: Work::Act {
                    act: Act::Remove {
                        close: *close,
                        cap: *cap,
                    },
                },
            },
        ),
        Some(due) => go_on(
            active,
            Stage::Undecided {
                work: Work::Acquire {
                    pin: Pin::new(due.frame, own.core),
                    change: due.change,
                    act: Act::Remove {
                        close: *close,
                        cap: *cap,
                    },
                },
            },
        ),
    }
}

// A call has acquired this count, and goes on to the next, or to its act.
#[inline(never)]
fn act_counted(active: &mut ActiveCall, own: &Own, count: &Acquired)
    requires acquires { IsAcquiring active.old.stage }
    requires few { active.old.steps < 1000 }
    ensures { active.new ≡ call_after active.old (counted_to own.now active.old active.old.stage count.now) }
{
    match &active.stage {
        Stage::Undecided { work } => match work {
            Work::Acquire {
                pin: _,
                change: _,
                act,
            } => {
                let work = next_work(own.core, active.counts.count() + 1, act);
                active.counts.push(*count);
                go_on(active, Stage::Undecided { work });
            }
            Work::Lookup { .. } | Work::Read { .. } | Work::Scan { .. } | Work::Act { .. } =>
                unreachable!(),
        },
        Stage::Enter | Stage::Living { .. } | Stage::Decided { .. } | Stage::Leave { .. } =>
            unreachable!(),
    }
}

// The call does not acquire a count, and is refused, with what it has then still to store.
#[inline(never)]
fn gives_up(active: &mut ActiveCall, refusal: Refusal, tells: &mut Told)
    requires acquires { IsAcquiring active.old.stage }
    requires few { active.old.steps < 1000 }
    requires going { tells.old ≡ Told.Going }
    ensures told { tells.new ≡ told (given_up active.old active.old.stage refusal) }
    ensures after { active.new ≡ call_after active.old (given_up active.old active.old.stage refusal) }
{
    match &active.stage {
        Stage::Undecided { work } => match work {
            Work::Acquire {
                pin: _,
                change: _,
                act,
            } => {
                let tail = undo(act);
                decide(active, &refusal.reply(), None, &tail, tells)
            }
            Work::Lookup { .. } | Work::Read { .. } | Work::Scan { .. } | Work::Act { .. } =>
                unreachable!(),
        },
        Stage::Enter | Stage::Living { .. } | Stage::Decided { .. } | Stage::Leave { .. } =>
            unreachable!(),
    }
}
