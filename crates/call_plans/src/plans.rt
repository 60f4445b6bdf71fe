//! What a plan is made of.

ghost use Rattle.std.specs.Prelude.{◌≡◌, ◌≤◌, [], ◌∷◌, length, slice_get};
ghost use Rattle.call_plans.specs.Plans.{head, index_of, at_place, kind_of_spot, kind_of_target};
ghost use Rattle.call_plans.specs.After.{names_after};

use crate::found::Caps;
use kernel_invariant::spk_nums::{CapId, EntryNo, Kind, PageNo, Rights};
use std::marker::Model;

/// One of the names of a call, in their order.
#[derive(Clone, Copy, PartialEq, Eq, Debug)]
pub enum Nth {
    First,
    Second,
    Third,
    Fourth,
}

/// The capability that a name is to lead to.
#[derive(Clone, Copy, PartialEq, Eq, Debug)]
pub enum Wanted {
    /// Any capability.
    Any,
    /// One of this kind.
    Only { kind: Kind },
    /// The root of a table of capabilities or of pages.
    Root,
    /// A leaf of the kind that the root takes, to which an earlier name has led.
    LeafOf { root: Nth },
}

/// A number of the caller's own table, what it is to lead to, and the rights that are needed of that.
#[derive(Clone, Copy, PartialEq, Eq, Debug)]
pub struct Name {
    /// The number; one past 4,095 leads to no slot.
    pub number: CapId,
    /// What is wanted there.
    pub wanted: Wanted,
    /// The rights that are needed of it.
    pub needs: Rights,
}

/// The names of a call in the order in which they are looked up, at most four; contracts see their list.
#[derive(Clone, Copy, PartialEq, Eq, Debug)]
pub struct Names {
    cells: [Name; 4],
    len: u8,
}

impl Model for Names {
    ghost use Rattle.std.specs.Prelude.{List};
    ghost use Rattle.call_plans.specs.declared.plans.Name.{Name};

    ghost Value = { List Name };

    ghost use Rattle.call_plans.specs.NameCells.{names_of, AreNames, name_cells, name_cells-back};

    ghost view = { names_of };

    ghost invariant = { AreNames };

    ghost inverse = { name_cells };

    ghost inverse_ok = { name_cells-back };
}

/// A place in the table to whose root an earlier name has led.
#[derive(Clone, Copy, PartialEq, Eq, Debug)]
pub enum Spot {
    /// The place under this number, of a capability or of a page.
    Under { root: Nth, number: u16 },
    /// An entry of the root itself.
    InRoot { root: Nth, entry: EntryNo },
}

/// What a call looks up after its names.
#[derive(Clone, Copy, PartialEq, Eq, Debug)]
pub enum Target {
    /// Nothing.
    Nowhere,
    /// A place that is to be free.
    Free { spot: Spot },
    /// A place that is to be held.
    Held { spot: Spot },
    /// A page of the caller's own pages, unless its translation is cached.
    Own { page: PageNo },
}

/// Where the target of a call is.
#[derive(Clone, Copy, PartialEq, Eq, Debug)]
pub enum TargetKind {
    /// The call names no target.
    Nowhere,
    /// An entry of a table of capabilities, or a page.
    Place,
    /// An entry of a root.
    Root,
}

/// The step at which a call is decided, where it is carried out.
#[derive(Clone, Copy, PartialEq, Eq, Debug)]
pub enum Decides {
    /// The load of the leaf entry of its last name.
    LeafEntry,
    /// The compare of its target.
    Target,
    /// The draw of a stamp.
    Draw,
    /// The compare of a frame word.
    FrameWord,
    /// The load of the page's root entry where its translation is cached, else of its leaf entry.
    Translation,
    /// The load of the clock.
    Clock,
    /// The load of a liveness word.
    LiveWord,
    /// The compare of the head of a temporal capability.
    Head,
    /// The compare of the second temporal capability's head.
    HeadB,
    /// The second load of the second temporal capability's head.
    HeadBAgain,
}

/// The plan of a call: whether it asks first that its core's component lives, what it looks up, how many counts it acquires at most,
/// and where it is decided. A plan asks nothing else of the state.
#[derive(Clone, Copy, PartialEq, Eq, Debug)]
pub struct Plan {
    /// Whether it is asked, before all look-ups, that the component in which the core works lives.
    pub living: bool,
    /// Its names.
    pub names: Names,
    /// Its target.
    pub target: Target,
    /// The most counts of references that it acquires; each is committed by one store.
    pub pins: u8,
    /// The step at which it is decided, where it is carried out.
    pub decides: Decides,
}

/// What a call looks up next.
#[derive(Clone, Copy, PartialEq, Eq, Debug)]
pub enum Next {
    /// A name.
    Name { name: Name },
    /// The place of its target, which is to be free.
    Free { spot: Spot },
    /// The place of its target, which is to be held.
    Held { spot: Spot },
    /// A page of the caller's own pages.
    Own { page: PageNo },
    /// Nothing: the act begins.
    Nothing,
}

impl Nth {
    /// The place counted from 0, at most 3.
    #[inline]
    pub fn index(self) -> usize
        ensures index { result ≡ index_of self }
        ensures most { result ≤ 3 }
    {
        match self {
            Nth::First => 0,
            Nth::Second => 1,
            Nth::Third => 2,
            Nth::Fourth => 3,
        }
    }
}

// A cell that holds no name.
#[inline]
fn blank() -> Name
    ensures { result ≡ record { number = 0; wanted = Any; needs = record { 0 = 0 } } }
{
    Name {
        number: CapId::new(0),
        wanted: Wanted::Any,
        needs: Rights::none(),
    }
}

impl Names {
    /// No name.
    #[inline]
    pub fn none() -> Names
        ensures { result ≡ [] }
    {
        Names {
            cells: [blank(), blank(), blank(), blank()],
            len: 0,
        }
    }

    /// One name.
    #[inline]
    pub fn one(a: Name) -> Names
        ensures { result ≡ a ∷ [] }
    {
        Names {
            cells: [a, blank(), blank(), blank()],
            len: 1,
        }
    }

    /// Two names.
    #[inline]
    pub fn two(a: Name, b: Name) -> Names
        ensures { result ≡ a ∷ b ∷ [] }
    {
        Names {
            cells: [a, b, blank(), blank()],
            len: 2,
        }
    }

    /// Three names.
    #[inline]
    pub fn three(a: Name, b: Name, c: Name) -> Names
        ensures { result ≡ a ∷ b ∷ c ∷ [] }
    {
        Names {
            cells: [a, b, c, blank()],
            len: 3,
        }
    }

    /// Four names.
    #[inline]
    pub fn four(a: Name, b: Name, c: Name, d: Name) -> Names
        ensures { result ≡ a ∷ b ∷ c ∷ d ∷ [] }
    {
        Names {
            cells: [a, b, c, d],
            len: 4,
        }
    }

    /// How many names there are, at most 4.
    #[inline]
    pub fn count(&self) -> u8
        ensures count { result ≡ length self.now }
        ensures most { length self.now ≤ 4 }
    {
        self.len
    }

    // The name in a cell that is used.
    #[inline]
    fn cell(&self, at: usize) -> Option<Name>
        ensures { result ≡ slice_get self.now at }
    {
        if at < usize::from(self.len) {
            Some(self.cells[at])
        } else {
            None
        }
    }

    /// The name at this place, if there are so many.
    #[inline]
    #[tactic(auto, using(crate::proofs::Roots::at_is))]
    pub fn get(&self, at: Nth) -> Option<Name>
        ensures { result ≡ at_place self.now at }
    {
        self.cell(at.index())
    }

    /// The name that comes after those that have led to these, if there is one.
    #[inline]
    #[tactic(auto, using(crate::proofs::Roots::next_is))]
    pub fn after(&self, found: &Caps) -> Option<Name>
        ensures { result ≡ head (names_after self.now found.now) }
    {
        self.cell(usize::from(found.count()))
    }
}

impl Target {
    /// Where the target is; a page of the caller's own pages is none that the call names.
    pub fn kind(&self) -> TargetKind
        ensures { result ≡ kind_of_target self.now }
    {
        match self {
            Target::Nowhere => TargetKind::Nowhere,
            Target::Free { spot } => spot.kind(),
            Target::Held { spot } => spot.kind(),
            Target::Own { page: _ } => TargetKind::Nowhere,
        }
    }
}

impl Spot {
    // Whether the place is one under a number, or a root entry.
    fn kind(&self) -> TargetKind
        ensures { result ≡ kind_of_spot self.now }
    {
        match self {
            Spot::Under { root: _, number: _ } => TargetKind::Place,
            Spot::InRoot { root: _, entry: _ } => TargetKind::Root,
        }
    }
}

ghost use Rattle.call_plans.specs.declared.plans.Wanted.TheVariants.{Any};
