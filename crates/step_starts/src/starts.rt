//! Acts that begin in their place: those that most calls make.
//!
//! **In place.** Where an act begins, the call's stage is written, and nothing else. The others begin by `begin_act`, which builds a whole
//! `WorkStep`, in functions that are never inlined.

ghost use Rattle.std.specs.Prelude.{None, Some, false, nat_le, ◌<◌, ◌==◌, ◌≡◌, ◌≤◌};
ghost use Rattle.step_lands.specs.act_states.specs.Acts.{act_begun, filling, fills_at, fills_with, invokes_at, invokes_if, kept_of};
ghost use Rattle.step_lands.specs.act_states.specs.Acts.{removes_at, returns_at, starts, switches_at};
ghost use Rattle.step_lands.specs.act_states.specs.Flushes.{flushes};
ghost use Rattle.step_lands.specs.act_states.specs.Lookups.{met_free, met_held};
ghost use Rattle.step_lands.specs.act_states.specs.Shares.{shares_at, shares_if};
ghost use Rattle.step_lands.specs.act_states.specs.Ticks.{charges};
ghost use Rattle.step_lands.specs.call_plans.specs.Plans.{at_place};
ghost use Rattle.step_lands.specs.call_plans.specs.declared.plans.Nth.TheVariants.{First, Second};
ghost use Rattle.step_lands.specs.call_stages.specs.Steps.{call_after, landed, told};
ghost use Rattle.step_lands.specs.entry_words.specs.declared.entry.Entry.TheVariants.{Held};

use act_counts::{cap_due, stamp_in};
use begin_acts::begin_act;
use spk_nums::{Call, Cap, FrameNo, Kind, Rights};
use step_lands::act_states::call_plans::Nth;
use step_lands::act_states::entry_words::Entry;
use step_lands::act_states::stage_look::Found;
use step_lands::act_states::stage_pins::Pin;
use step_lands::act_states::stage_quiet::{Close, Quiet};
use step_lands::act_states::stage_tcap::{Charge, Pair, PairWork};
use step_lands::act_states::stage_thread::Claim;
use step_lands::act_states::{
    Act, Fill, Invoking, InvokingAt, Own, Refusal, Returning, ReturningAt, SwitchAt, Switching,
    Work,
};
use step_lands::call_stages::{ActiveCall, Stage, Told};
use step_lands::{go_on, land, refused};

/// The act of a call without a target begins.
#[inline(never)]
pub fn act_begins(active: &mut ActiveCall, own: &Own, tells: &mut Told)
    requires core { own.now.core < own.now.layout.cores }
    requires cores { own.now.layout.cores ≤ 8 }
    requires few { active.old.steps < 1000 }
    requires going { tells.old ≡ Told.Going }
    ensures told { tells.new ≡ told (landed active.old (act_begun own.now active.old.call active.old.found None None)) }
    ensures after { active.new ≡ call_after active.old (landed active.old (act_begun own.now active.old.call active.old.found None None)) }
{
    match &active.call {
        Call::Tick { n } => {
            let n = *n;
            ticks(active, own, n)
        }
        Call::Flush => flushes(active, own),
        Call::Ret => returns(active, own, tells),
        Call::Call { g: _ } => invokes(active, own, tells),
        Call::Switch { h: _, q: _ } => switches(active, own, tells),
        Call::Transfer { a: _, b: _, m } => {
            let what = PairWork::Transfer(*m);
            shares(active, own, what, tells)
        }
        Call::Delegate { a: _, b: _, m } => {
            let what = PairWork::Delegate(*m);
            shares(active, own, what, tells)
        }
        Call::Test { a: _, b: _ } => shares(active, own, PairWork::Test, tells),
        _ => other_begins(active, own, tells),
    }
}

// Another act begins.
#[inline(never)]
fn other_begins(active: &mut ActiveCall, own: &Own, tells: &mut Told)
    requires core { own.now.core < own.now.layout.cores }
    requires cores { own.now.layout.cores ≤ 8 }
    requires few { active.old.steps < 1000 }
    requires going { tells.old ≡ Told.Going }
    ensures told { tells.new ≡ told (landed active.old (act_begun own.now active.old.call active.old.found None None)) }
    ensures after { active.new ≡ call_after active.old (landed active.old (act_begun own.now active.old.call active.old.found None None)) }
{
    let step = begin_act(own, &active.call, &active.found, None, &None);
    land(active, &step, tells)
}

// So many ticks, and those that the core owes, are charged to the core's temporal capability.
#[inline]
fn ticks(active: &mut ActiveCall, own: &Own, ticks: u32)
    requires few { active.old.steps < 1000 }
    ensures { active.new ≡ call_after active.old (landed active.old (charges own.now ticks)) }
{
    let due = own.owed.saturating_add(u64::from(ticks));
    go_on(
        active,
        Stage::Undecided {
            work: Work::Act {
                act: Act::Tick {
                    charge: Charge::new(own.tcap, due),
                },
            },
        },
    );
}

// The translations of the core are dropped.
#[inline]
fn flushes(active: &mut ActiveCall, own: &Own)
    requires few { active.old.steps < 1000 }
    ensures { active.new ≡ call_after active.old (landed active.old (flushes own.now.core)) }
{
    go_on(
        active,
        Stage::Undecided {
            work: Work::Act {
                act: Act::Flush { core: own.core },
            },
        },
    );
}

// The core leaves its component, unless that is the bottom of its stack.
#[inline]
fn returns(active: &mut ActiveCall, own: &Own, tells: &mut Told)
    requires few { active.old.steps < 1000 }
    requires going { tells.old ≡ Told.Going }
    ensures told { tells.new ≡ told (landed active.old (returns_at own.now)) }
    ensures after { active.new ≡ call_after active.old (landed active.old (returns_at own.now)) }
{
    if own.depth <= 1 {
        refused(active, Refusal::Bottom, tells)
    } else {
        go_on(
            active,
            Stage::Undecided {
                work: Work::Act {
                    act: Act::Return {
                        returning: Returning {
                            top: own.comp,
                            thread: own.thread,
                            depth: own.depth,
                            core: own.core,
                            frames: own.layout.frames(),
                            at: ReturningAt::LoadBelow,
                        },
                    },
                },
            },
        )
    }
}

// The core enters the component to whose gate its name has led.
#[inline]
fn invokes(active: &mut ActiveCall, own: &Own, tells: &mut Told)
    requires few { active.old.steps < 1000 }
    requires going { tells.old ≡ Told.Going }
    ensures told { tells.new ≡ told (landed active.old (invokes_at own.now (at_place active.old.found First))) }
    ensures after { active.new ≡ call_after active.old (landed active.old (invokes_at own.now (at_place active.old.found First))) }
{
    match active.found.get(Nth::First) {
        None => refused(active, Refusal::Raced, tells),
        Some(gate) => match gate.kind() {
            Kind::Gate => invokes_by(active, own, &gate, tells),
            _ => refused(active, Refusal::Raced, tells),
        },
    }
}

// The core enters the component of this gate, unless its stack is full.
#[inline]
fn invokes_by(active: &mut ActiveCall, own: &Own, gate: &Cap, tells: &mut Told)
    requires few { active.old.steps < 1000 }
    requires going { tells.old ≡ Told.Going }
    ensures told { tells.new ≡ told (landed active.old (invokes_if (nat_le 16 own.now.depth) own.now gate.now.frame gate.now.arg)) }
    ensures after { active.new
        ≡ call_after active.old (landed active.old (invokes_if (nat_le 16 own.now.depth) own.now gate.now.frame gate.now.arg)) }
{
    if 16 <= own.depth {
        refused(active, Refusal::Deep, tells)
    } else {
        go_on(
            active,
            Stage::Undecided {
                work: Work::Act {
                    act: Act::Invoke {
                        invoking: Invoking {
                            comp: gate.frame(),
                            epoch: gate.arg(),
                            thread: own.thread,
                            depth: own.depth,
                            core: own.core,
                            frames: own.layout.frames(),
                            at: InvokingAt::LoadTable,
                        },
                    },
                },
            },
        )
    }
}

// The core switches to the thread and the temporal capability to which its names have led.
#[inline]
fn switches(active: &mut ActiveCall, own: &Own, tells: &mut Told)
    requires few { active.old.steps < 1000 }
    requires going { tells.old ≡ Told.Going }
    ensures told { tells.new
        ≡ told (landed active.old (switches_at own.now (at_place active.old.found First) (at_place active.old.found Second))) }
    ensures after { active.new ≡ call_after active.old
        (landed active.old (switches_at own.now (at_place active.old.found First) (at_place active.old.found Second))) }
{
    match (active.found.get(Nth::First), active.found.get(Nth::Second)) {
        (Some(thread), Some(tcap)) => go_on(
            active,
            Stage::Undecided {
                work: Work::Act {
                    act: Act::Switch {
                        switching: Switching {
                            core: own.core,
                            frames: own.layout.frames(),
                            tcap: tcap.frame(),
                            old: own.thread,
                            old_depth: own.depth,
                            old_tcap: own.tcap,
                            at: SwitchAt::Claim {
                                claim: Claim::new(thread.frame(), own.core),
                            },
                        },
                    },
                },
            },
        ),
        _ => refused(active, Refusal::Raced, tells),
    }
}

// This is done with the two temporal capabilities to which the names have led.
#[inline]
fn shares(active: &mut ActiveCall, own: &Own, what: PairWork, tells: &mut Told)
    requires few { active.old.steps < 1000 }
    requires going { tells.old ≡ Told.Going }
    ensures told { tells.new ≡ told (landed active.old
        (shares_at own.now.core what (at_place active.old.found First) (at_place active.old.found Second))) }
    ensures after { active.new ≡ call_after active.old
        (landed active.old (shares_at own.now.core what (at_place active.old.found First) (at_place active.old.found Second))) }
{
    match (active.found.get(Nth::First), active.found.get(Nth::Second)) {
        (Some(a), Some(b)) => shares_of(active, own, what, a.frame(), b.frame(), tells),
        _ => refused(active, Refusal::Raced, tells),
    }
}

// This is done with these two, unless they are the same.
#[inline]
fn shares_of(
    active: &mut ActiveCall,
    own: &Own,
    what: PairWork,
    a: FrameNo,
    b: FrameNo,
    tells: &mut Told,
)
    requires few { active.old.steps < 1000 }
    requires going { tells.old ≡ Told.Going }
    ensures told { tells.new ≡ told (landed active.old (shares_if (a == b) own.now.core what a b)) }
    ensures after { active.new ≡ call_after active.old (landed active.old (shares_if (a == b) own.now.core what a b)) }
{
    if a == b {
        refused(active, Refusal::Same, tells)
    } else {
        go_on(
            active,
            Stage::Undecided {
                work: Work::Act {
                    act: Act::Share {
                        pair: Pair::new(a, b, what, own.core),
                    },
                },
            },
        )
    }
}

/// The place of a target that is to be free was found.
#[inline(never)]
pub fn found_free(active: &mut ActiveCall, own: &Own, found: &Found, tells: &mut Told)
    requires core { own.now.core < own.now.layout.cores }
    requires cores { own.now.layout.cores ≤ 8 }
    requires few { active.old.steps < 1000 }
    requires going { tells.old ≡ Told.Going }
    ensures told { tells.new
        ≡ told (landed active.old (met_free own.now active.old.call active.old.found active.old.read found.now found.now.value)) }
    ensures after { active.new ≡ call_after active.old
        (landed active.old (met_free own.now active.old.call active.old.found active.old.read found.now found.now.value)) }
{
    match found.value {
        Entry::Free => free_place(active, own, found, tells),
        Entry::Held(_) => refused(active, Refusal::Occupied, tells),
        Entry::Closing { by } => refused(active, Refusal::Busy(by), tells),
        Entry::Quiescing { stamp: _ } => free_place(active, own, found, tells),
    }
}

// The act of a call begins whose target is free.
#[inline]
fn free_place(active: &mut ActiveCall, own: &Own, found: &Found, tells: &mut Told)
    requires core { own.now.core < own.now.layout.cores }
    requires cores { own.now.layout.cores ≤ 8 }
    requires few { active.old.steps < 1000 }
    requires going { tells.old ≡ Told.Going }
    ensures told { tells.new ≡ told (landed active.old (act_begun own.now active.old.call active.old.found active.old.read (Some found.now))) }
    ensures after { active.new
        ≡ call_after active.old (landed active.old (act_begun own.now active.old.call active.old.found active.old.read (Some found.now))) }
{
    match &active.call {
        Call::Copy {
            a: _,
            t: _,
            b: _,
            rights,
        } => {
            let rights = *rights;
            copies(active, own, rights, found, tells)
        }
        _ => {
            let read = active.read;
            target_begins(active, own, read, found, tells)
        }
    }
}

// Another act begins, of a call that has read this and whose target was found.
#[inline(never)]
fn target_begins(
    active: &mut ActiveCall,
    own: &Own,
    read: Option<u16>,
    found: &Found,
    tells: &mut Told,
)
    requires core { own.now.core < own.now.layout.cores }
    requires cores { own.now.layout.cores ≤ 8 }
    requires few { active.old.steps < 1000 }
    requires going { tells.old ≡ Told.Going }
    ensures told { tells.new ≡ told (landed active.old (act_begun own.now active.old.call active.old.found read (Some found.now))) }
    ensures after { active.new
        ≡ call_after active.old (landed active.old (act_begun own.now active.old.call active.old.found read (Some found.now))) }
{
    let step = begin_act(own, &active.call, &active.found, read, &Some(*found));
    land(active, &step, tells)
}

// The target is filled with the capability to which the first name has led, with those of its rights that are among these.
#[inline]
fn copies(active: &mut ActiveCall, own: &Own, rights: Rights, found: &Found, tells: &mut Told)
    requires core { own.now.core < own.now.layout.cores }
    requires cores { own.now.layout.cores ≤ 8 }
    requires few { active.old.steps < 1000 }
    requires going { tells.old ≡ Told.Going }
    ensures told { tells.new
        ≡ told (landed active.old (fills_with own.now (kept_of rights.0 (at_place active.old.found First)) false (Some found.now))) }
    ensures after { active.new ≡ call_after active.old
        (landed active.old (fills_with own.now (kept_of rights.0 (at_place active.old.found First)) false (Some found.now))) }
{
    match active.found.get(Nth::First) {
        None => refused(active, Refusal::Raced, tells),
        Some(cap) => fills(active, own, &cap.keep(rights), found),
    }
}

// The target is filled with this capability, after a scan where it is quiescing.
#[inline]
fn fills(active: &mut ActiveCall, own: &Own, cap: &Cap, found: &Found)
    requires core { own.now.core < own.now.layout.cores }
    requires cores { own.now.layout.cores ≤ 8 }
    requires few { active.old.steps < 1000 }
    ensures { active.new ≡ call_after active.old (landed active.old (fills_at own.now cap.now false found.now)) }
{
    match Quiet::entry(stamp_in(&found.value), own.core, own.layout.cores()) {
        None => fill_starts(active, own, cap, found),
        Some(quiet) => go_on(
            active,
            Stage::Undecided {
                work: Work::Scan {
                    quiet,
                    act: Act::Fill {
                        fill: fill_of(found, cap),
                    },
                },
            },
        ),
    }
}

// The filling of the place that was found with this capability.
#[inline]
fn fill_of(found: &Found, cap: &Cap) -> Fill
    ensures { result ≡ record { node = found.now.node; entry = found.now.entry; word = found.now.word; cap = cap.now } }
{
    Fill {
        node: found.node,
        entry: found.entry,
        word: found.word,
        cap: *cap,
    }
}

// The filling of the place that was found starts, with the count of the capability's frame if it has one.
#[inline]
fn fill_starts(active: &mut ActiveCall, own: &Own, cap: &Cap, found: &Found)
    requires few { active.old.steps < 1000 }
    ensures { active.new ≡ call_after active.old (landed active.old (starts own.now.core (filling cap.now found.now))) }
{
    match cap_due(cap, 1, 0) {
        None => go_on(
            active,
            Stage::Undecided {
                work: Work::Act {
                    act: Act::Fill {
                        fill: fill_of(found, cap),
                    },
                },
            },
        ),
        Some(due) => go_on(
            active,
            Stage::Undecided {
                work: Work::Acquire {
                    pin: Pin::new(due.frame, own.core),
                    change: due.change,
                    act: Act::Fill {
                        fill: fill_of(found, cap),
                    },
                },
            },
        ),
    }
}

/// The place of a target that is to be held was found.
#[inline(never)]
pub fn found_held(active: &mut ActiveCall, own: &Own, found: &Found, tells: &mut Told)
    requires core { own.now.core < own.now.layout.cores }
    requires cores { own.now.layout.cores ≤ 8 }
    requires few { active.old.steps < 1000 }
    requires going { tells.old ≡ Told.Going }
    ensures told { tells.new ≡ told (landed active.old (met_held own.now active.old.call active.old.found found.now found.now.value)) }
    ensures after { active.new
        ≡ call_after active.old (landed active.old (met_held own.now active.old.call active.old.found found.now found.now.value)) }
{
    match found.value {
        Entry::Free => refused(active, Refusal::Empty, tells),
        Entry::Held(cap) => held_place(active, own, &cap, found, tells),
        Entry::Closing { by } => refused(active, Refusal::Busy(by), tells),
        Entry::Quiescing { stamp: _ } => refused(active, Refusal::Empty, tells),
    }
}

// The act of a call begins whose target holds this capability.
#[inline]
fn held_place(active: &mut ActiveCall, own: &Own, cap: &Cap, found: &Found, tells: &mut Told)
    requires core { own.now.core < own.now.layout.cores }
    requires cores { own.now.layout.cores ≤ 8 }
    requires holds { found.now.value ≡ Held cap.now }
    requires few { active.old.steps < 1000 }
    requires going { tells.old ≡ Told.Going }
    ensures told { tells.new ≡ told (landed active.old (act_begun own.now active.old.call active.old.found None (Some found.now))) }
    ensures after { active.new
        ≡ call_after active.old (landed active.old (act_begun own.now active.old.call active.old.found None (Some found.now))) }
{
    match &active.call {
        Call::Remove { t: _, b: _ } => removes(active, own, cap, found),
        Call::Shrink { t: _, i: _ } => removes(active, own, cap, found),
        Call::Unmap { p: _, v: _ } => removes(active, own, cap, found),
        _ => target_begins(active, own, None, found, tells),
    }
}

// What the target holds, this capability, is removed, after the count of its frame is acquired if it has one.
#[inline]
fn removes(active: &mut ActiveCall, own: &Own, cap: &Cap, found: &Found)
    requires few { active.old.steps < 1000 }
    requires holds { found.now.value ≡ Held cap.now }
    ensures { active.new ≡ call_after active.old (landed active.old (removes_at own.now.core (Some found.now))) }
{
    let close = Close::new(found.node, found.entry, found.word, own.core);
    match cap_due(cap, -1, 0) {
        None => go_on(
            active,
            Stage::Undecided {
                work: Work::Act {
                    act: Act::Remove { close, cap: *cap },
                },
            },
        ),
        Some(due) => go_on(
            active,
            Stage::Undecided {
                work: Work::Acquire {
                    pin: Pin::new(due.frame, own.core),
                    change: due.change,
                    act: Act::Remove { close, cap: *cap },
                },
            },
        ),
    }
}
