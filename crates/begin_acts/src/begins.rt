//! How the act of each call begins after its look-ups.
//!
//! A call that is new here adds a line to `begin_act`: where its act begins.

ghost use Rattle.act_counts.specs.act_states.specs.Acts.{act_begun, frame_named, gate_to, is_pages, kept_of, link_to, looked, reads_of};
ghost use Rattle.act_counts.specs.act_states.specs.Shares.{shares_at};
ghost use Rattle.act_counts.specs.call_plans.specs.Plans.{at_place};
ghost use Rattle.act_counts.specs.call_plans.specs.declared.plans.Nth.TheVariants.{First, Second};
ghost use Rattle.std.specs.Prelude.{◌<◌, ◌≡◌, ◌≤◌};

use crate::no_target::{
    charges, flushes, invokes_at, kills_at, refills_at, returns_at, shares_at, switches_at,
    types_at,
};
use crate::targets::{fills_with, made_begun, maps_at, parts_at, removes_at};
use act_counts::act_states::call_plans::{Caps, Nth};
use act_counts::act_states::stage_look::Found;
use act_counts::act_states::stage_tcap::PairWork;
use act_counts::act_states::{Own, Refusal, Tail, WorkStep};
use act_counts::refuse;
use spk_nums::{Call, Cap, FrameNo, Kind, Rights, Value};

/// What a call of a core does whose names have led to these, which has read this, and whose target, if it has one, was found: a look
/// answers at once, a copy, a grow, a map, a gate and a part begin to fill their target, a remove, a shrink and an unmap to remove what
/// their target holds, a retype to type its frame, a make to make its object, a flush to drop its translations, a tick to charge its
/// ticks, a call to enter its gate's component, a ret to leave its own, a replenish to give ticks back. The core is one of the layout's at
/// most 8.
#[inline]
pub fn begin_act(
    own: &Own,
    call: &Call,
    found: &Caps,
    read: Option<u16>,
    target: &Option<Found>,
) -> WorkStep
    requires core { own.now.core < own.now.layout.cores }
    requires cores { own.now.layout.cores ≤ 8 }
    ensures { result ≡ act_begun own.now call.now found.now read target.now }
{
    match call {
        Call::Look { a: _ } => looked(&found.get(Nth::First)),
        Call::Copy {
            a: _,
            t: _,
            b: _,
            rights,
        } => fills_with(
            own,
            &kept_of(*rights, &found.get(Nth::First)),
            false,
            target,
        ),
        Call::Grow { t: _, i: _, l: _ } => fills_with(
            own,
            &link_to(&found.get(Nth::Second)),
            is_pages(&found.get(Nth::First)),
            target,
        ),
        Call::Map {
            p: _,
            v: _,
            r: _,
            f,
            w,
        } => maps_at(own, &found.get(Nth::Second), *f, *w, target),
        Call::Remove { t: _, b: _ } | Call::Shrink { t: _, i: _ } | Call::Unmap { p: _, v: _ } =>
            removes_at(own.core, target),
        Call::Make {
            what,
            range: _,
            frame,
            table: _,
            slot: _,
        } => made_begun(own, what, found, *frame, target),
        Call::Retype { r: _, f, k } => types_at(own, &found.get(Nth::First), *f, *k),
        Call::Flush => flushes(own.core),
        Call::Tick { n } => charges(own, *n),
        Call::Gate { .. } => fills_with(own, &gate_to(&found.get(Nth::First), read), false, target),
        Call::Kill { c: _ } => kills_at(own, &found.get(Nth::First)),
        Call::Call { g: _ } => invokes_at(own, &found.get(Nth::First)),
        Call::Ret => returns_at(own),
        Call::Switch { h: _, q: _ } => {
            switches_at(own, &found.get(Nth::First), &found.get(Nth::Second))
        }
        Call::Transfer { a: _, b: _, m } => shares(own, PairWork::Transfer(*m), found),
        Call::Delegate { a: _, b: _, m } => shares(own, PairWork::Delegate(*m), found),
        Call::Test { a: _, b: _ } => shares(own, PairWork::Test, found),
        Call::Part {
            r: _,
            f,
            n,
            t: _,
            b: _,
        } => parts_at(own, &found.get(Nth::First), *f, *n, target),
        Call::Replenish { a: _, m } => refills_at(own, *m, &found.get(Nth::First)),
        _ => refuse(Refusal::Raced),
    }
}

// A call on two temporal capabilities begins, to which its names have led.
#[inline]
fn shares(own: &Own, what: PairWork, found: &Caps) -> WorkStep
    ensures { result ≡ shares_at own.now.core what (at_place found.now First) (at_place found.now Second) }
{
    shares_at(
        own.core,
        what,
        &found.get(Nth::First),
        &found.get(Nth::Second),
    )
}

// The gate to a component whose word has been read in this epoch; an epoch of 0 is none.
#[inline]
fn gate_to(comp: &Option<Cap>, read: Option<u16>) -> Option<Cap>
    ensures { result ≡ gate_to comp.now read }
{
    match (comp, read) {
        (Some(comp), Some(epoch)) if 1 <= epoch => {
            Some(Cap::new(Kind::Gate, comp.frame(), u32::from(epoch)))
        }
        _ => None,
    }
}

/// The frame of the component whose word a call reads before it looks its target up, where its names have led to these; None of a call
/// that reads none.
#[inline]
pub fn reads_of(call: &Call, found: &Caps) -> Option<FrameNo>
    ensures { result ≡ reads_of call.now found.now }
{
    match call {
        Call::Gate { .. } => frame_named(&found.get(Nth::First)),
        _ => None,
    }
}

// The frame of what a name has led to.
#[inline]
fn frame_named(cap: &Option<Cap>) -> Option<FrameNo>
    ensures { result ≡ frame_named cap.now }
{
    match cap {
        Some(cap) => Some(cap.frame()),
        None => None,
    }
}

// A look answers what its name has led to.
#[inline]
fn looked(cap: &Option<Cap>) -> WorkStep
    ensures { result ≡ looked cap.now }
{
    match cap {
        Some(cap) => WorkStep::Answers {
            value: Value::Cap(*cap),
            drawn: None,
            tail: Tail::Nothing,
        },
        None => refuse(Refusal::Raced),
    }
}

// A link to the leaf to which a name has led.
#[inline]
fn link_to(leaf: &Option<Cap>) -> Option<Cap>
    ensures { result ≡ link_to leaf.now }
{
    match leaf {
        Some(leaf) => Some(Cap::new(Kind::Link, leaf.frame(), 0)),
        None => None,
    }
}

// Whether a name has led to the root of a page table.
#[inline]
fn is_pages(root: &Option<Cap>) -> bool
    ensures { result ≡ is_pages root.now }
{
    match root {
        Some(root) => matches!(root.kind(), Kind::Pages),
        None => false,
    }
}

// The capability that a name has led to, with those of its rights that are among these.
#[inline]
fn kept_of(rights: Rights, cap: &Option<Cap>) -> Option<Cap>
    ensures { result ≡ kept_of rights.0 cap.now }
{
    match cap {
        Some(cap) => Some(cap.keep(rights)),
        None => None,
    }
}
