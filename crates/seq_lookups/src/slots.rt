//! Slots, and how a core reaches them.

ghost use Rattle.std.specs.Prelude.{◌≡◌, ◌<◌, ◌≤◌, Some};
ghost use Rattle.seq_state.specs.kernel_rules.specs.Access.{place_at, usable, usable_in, linked, slot_in, reached, root_slot};
ghost use Rattle.seq_state.specs.Parts.{place_held, thing_of};
ghost use Rattle.seq_state.specs.Maps.{state_of};
ghost use Rattle.seq_lookups.specs.Places.{target_of};

use seq_state::spk_nums::{Cap, CoreNo, EntryNo, FrameNo, Kind};
use seq_state::{Place, SeqKernel, Thing};
use std::marker::Model;

/// A place in a node: the node's frame, and the index in it, below 64.
#[derive(Clone, Copy, PartialEq, Eq, Debug)]
pub struct Slot {
    node: FrameNo,
    index: EntryNo,
}

impl Model for Slot {
    ghost use Rattle.seq_state.specs.kernel_rules.specs.Access.{Slot};

    ghost Value = { Slot };

    ghost use Rattle.std.specs.Prelude.{◌<◌};

    ghost view = { λ at. record { node = at.node; index = at.index } };

    ghost invariant = { λ at. at.index < 64 };

    ghost inverse = { λ at. record { node = at.node; index = at.index } };
}

impl Slot {
    /// The place of a node, the index below 64.
    pub fn new(node: FrameNo, index: EntryNo) -> Slot
        requires { index < 64 }
        ensures { result ≡ record { node = node; index = index } }
    {
        Slot { node, index }
    }

    /// The node's frame.
    pub fn node(self) -> FrameNo
        ensures { result ≡ self.node }
    {
        self.node
    }

    /// The index in the node, below 64.
    pub fn index(self) -> EntryNo
        ensures value { result ≡ self.index }
        ensures range { self.index < 64 }
    {
        self.index
    }

    /// The place as a thing with a grace period.
    pub fn thing(self) -> Thing
        ensures value { thing_of result ≡ PlaceOf self.node self.index }
        ensures index { HasIndex (thing_of result) }
    {
        Thing::PlaceOf {
            node: self.node,
            index: self.index,
        }
    }
}

/// Where a place is asked for.
#[derive(Clone, Copy, PartialEq, Eq, Debug)]
pub enum Target {
    /// Under a number of the radix table with this root. Past 4,095 there is none.
    Under {
        /// The root's frame.
        root: FrameNo,
        /// The number as written.
        number: u16,
    },
    /// At an entry of the root itself. Past 63 there is none.
    InRoot {
        /// The root's frame.
        root: FrameNo,
        /// The entry as written.
        index: EntryNo,
    },
}

/// What stands at a slot.
pub(crate) fn place_at(k: &SeqKernel, at: Slot) -> Place
    ensures { place_held result ≡ place_at (state_of k.now) at }
{
    k.place(at.node(), at.index())
}

/// Whether a core waits in the grace period of a slot's place.
fn waits_at(k: &SeqKernel, core: CoreNo, at: Slot) -> bool
    ensures { result ≡ ((state_of k.now).grace (PlaceOf at.node at.index)).waits core }
{
    k.pending(at.thing(), core).waits
}

/// What a core may use of a place, in whose grace period it waits or not.
fn usable_in(place: Place, waits: bool) -> Option<Cap>
    ensures { result ≡ usable_in (place_held place) waits }
{
    match place {
        Place::Free => None,
        Place::Holds(cap) => Some(cap),
        Place::Quiescing(cap) => { if waits { Some(cap) } else { None } }
    }
}

/// What a core may use at a slot: what stands there; and what was removed, while the core waits for it. Only what was removed has
/// its grace period read.
pub fn usable(k: &SeqKernel, core: CoreNo, at: Slot) -> Option<Cap>
    ensures { result ≡ usable (state_of k.now) core at }
{
    let place = place_at(k, at);
    match place {
        Place::Free => None,
        Place::Holds(cap) => Some(cap),
        Place::Quiescing(_) => usable_in(place, waits_at(k, core, at)),
    }
}

/// The leaf to which a capability links.
fn linked(cap: Option<Cap>) -> Option<FrameNo>
    ensures { result ≡ linked cap }
{
    match cap {
        None => None,
        Some(cap) => link_of(cap),
    }
}

/// The leaf to which this capability links.
fn link_of(cap: Cap) -> Option<FrameNo>
    ensures { result ≡ linked (Some cap) }
{
    match cap.kind() {
        Kind::Link => Some(cap.frame()),
        _ => None,
    }
}

/// The slot of an index in a leaf, the index below 64.
fn slot_in(leaf: Option<FrameNo>, index: EntryNo) -> Option<Slot>
    requires { index < 64 }
    ensures { result ≡ slot_in leaf index }
{
    match leaf {
        None => None,
        Some(node) => Some(Slot::new(node, index)),
    }
}

/// The slot that a core reaches. It is None exactly where the number is past 4,095 or its root entry has no link that the
/// core may use, or where the entry is past 63.
pub fn reached(k: &SeqKernel, core: CoreNo, target: Target) -> Option<Slot>
    ensures { result ≡ reached (state_of k.now) core (target_of target) }
{
    match target {
        Target::Under { root, number } => {
            if number <= 4095 {
                let entry = Slot::new(root, EntryNo::new(number / 64));
                slot_in(linked(usable(k, core, entry)), EntryNo::new(number % 64))
            } else {
                None
            }
        }
        Target::InRoot { root, index } => {
            if index.number() <= 63 {
                Some(Slot::new(root, index))
            } else {
                None
            }
        }
    }
}

ghost use Rattle.seq_state.specs.kernel_rules.specs.State.{PlaceOf};
ghost use Rattle.seq_state.specs.Representation.{HasIndex};
