//! How far a look-up goes.

ghost use Rattle.std.specs.Prelude.{◌≡◌, ◌<◌, Some};
ghost use Rattle.seq_state.specs.kernel_rules.specs.Access.{own, place_at, linked, root_at, Under, InRoot};
ghost use Rattle.seq_state.specs.Parts.{place_held};
ghost use Rattle.seq_state.specs.Maps.{state_of};
ghost use Rattle.seq_plans.specs.Reaches.{named_of, target_of, shown_in, shown_slot, usable_by, reached_by};

use seq_lookups::{Slot, Target, comp_of, reached, usable};
use seq_state::{Place, SeqKernel};
use spk_nums::{Cap, CapId, CoreNo, EntryNo, FrameNo, Kind, PageNo};

/// How far a look-up goes.
#[derive(Clone, Copy, PartialEq, Eq, Debug)]
pub enum Reach {
    /// To what the core may use: what a place holds, and what was removed while the core waits for it.
    Own,
    /// To what places show, be it removed or not.
    Wide,
}

/// Where a place is asked for, by what the name of its table's root has led to.
#[derive(Clone, Copy)]
pub enum Aim {
    /// Under a number of the radix table with this root. Past 4,095 there is none.
    Under {
        /// The root, if it was found.
        root: Option<Cap>,
        /// The number as written.
        number: u16,
    },
    /// At an entry of the root itself. Past 63 there is none.
    InRoot {
        /// The root, if it was found.
        root: Option<Cap>,
        /// The entry as written.
        index: EntryNo,
    },
}

/// What stands at a slot.
pub(crate) fn place_at(k: &SeqKernel, at: Slot) -> Place
    ensures { place_held result ≡ place_at (state_of k.now) at }
{
    k.place(at.node(), at.index())
}

/// The capability that a place shows.
fn shown_in(place: Place) -> Option<Cap>
    ensures { result ≡ shown_in (place_held place) }
{
    match place {
        Place::Free => None,
        Place::Holds(cap) => Some(cap),
        Place::Quiescing(cap) => Some(cap),
    }
}

/// The leaf to which this capability links.
fn link_of(cap: Cap) -> Option<FrameNo>
    ensures { result ≡ linked (Some cap) }
{
    match cap.kind() {
        Kind::Link => Some(cap.frame()),
        _ => None,
    }
}

/// The leaf to which what a place shows links.
fn shown_leaf(place: Place) -> Option<FrameNo>
    ensures { result ≡ linked (shown_in (place_held place)) }
{
    match shown_in(place) {
        None => None,
        Some(cap) => link_of(cap),
    }
}

/// The slot under a number of a table with this root, where a root entry leads on though its link is removed.
fn shown_under(k: &SeqKernel, root: FrameNo, number: u16) -> Option<Slot>
    ensures { result ≡ shown_slot (state_of k.now) (Under (root_at root) number) }
{
    if number <= 4095 {
        let entry = Slot::new(root, EntryNo::new(number / 64));
        match shown_leaf(place_at(k, entry)) {
            None => None,
            Some(leaf) => Some(Slot::new(leaf, EntryNo::new(number % 64))),
        }
    } else {
        None
    }
}

/// The slot of a root entry.
fn shown_in_root(k: &SeqKernel, root: FrameNo, index: EntryNo) -> Option<Slot>
    ensures { result ≡ shown_slot (state_of k.now) (InRoot (root_at root) index) }
{
    if index.number() <= 63 {
        Some(Slot::new(root, index))
    } else {
        None
    }
}

/// What a core finds at a slot.
pub(crate) fn usable_by(k: &SeqKernel, core: CoreNo, reach: Reach, at: Slot) -> Option<Cap>
    ensures { result ≡ usable_by reach (state_of k.now) core at }
{
    match reach {
        Reach::Own => usable(k, core, at),
        Reach::Wide => shown_in(place_at(k, at)),
    }
}

/// The slot under a number of a table with this root, to which it leads a core.
fn under(k: &SeqKernel, core: CoreNo, reach: Reach, root: FrameNo, number: u16) -> Option<Slot>
    ensures { result ≡ reached_by reach (state_of k.now) core (Under (root_at root) number) }
{
    match reach {
        Reach::Own => reached(k, core, Target::Under { root, number }),
        Reach::Wide => shown_under(k, root, number),
    }
}

/// The slot of a root entry, to which it leads a core.
fn in_root(k: &SeqKernel, core: CoreNo, reach: Reach, root: FrameNo, index: EntryNo) -> Option<Slot>
    ensures { result ≡ reached_by reach (state_of k.now) core (InRoot (root_at root) index) }
{
    match reach {
        Reach::Own => reached(k, core, Target::InRoot { root, index }),
        Reach::Wide => shown_in_root(k, root, index),
    }
}

/// The slot to which a target leads a core.
pub(crate) fn reached_by(k: &SeqKernel, core: CoreNo, reach: Reach, aim: &Aim) -> Option<Slot>
    ensures { result ≡ reached_by reach (state_of k.now) core (target_of aim.now) }
{
    match aim {
        Aim::Under { root, number } => match root {
            None => None,
            Some(cap) => under(k, core, reach, cap.frame(), *number),
        },
        Aim::InRoot { root, index } => match root {
            None => None,
            Some(cap) => in_root(k, core, reach, cap.frame(), *index),
        },
    }
}

/// A root that is known by its frame.
pub(crate) fn root_at(frame: FrameNo) -> Option<Cap>
    ensures { named_of result ≡ root_at frame }
{
    Some(Cap::new(Kind::Table, frame, 0))
}

/// The target of a capability number of a core: it is looked up in the table of the component that the core works in.
pub(crate) fn own(k: &SeqKernel, core: CoreNo, number: CapId) -> Aim
    requires { core < (state_of k.now).limits.cores }
    ensures { target_of result ≡ own (state_of k.now) core number }
{
    Aim::Under {
        root: root_at(comp_of(k, core).table),
        number: number.number(),
    }
}

/// The target of a page of the component that a core works in.
pub(crate) fn own_page(k: &SeqKernel, core: CoreNo, page: PageNo) -> Aim
    requires { core < (state_of k.now).limits.cores }
    ensures { target_of result ≡ Under (root_at (comp_of (state_of k.now) core).pages) page }
{
    Aim::Under {
        root: root_at(comp_of(k, core).pages),
        number: page.number(),
    }
}

ghost use Rattle.seq_state.specs.kernel_rules.specs.State.{comp_of};
