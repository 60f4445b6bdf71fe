//! The capabilities to which the first names of a call have led.

ghost use Rattle.std.specs.Prelude.{◌≡◌, ◌≤◌, [], length, slice_get};
ghost use Rattle.kernel_invariant.specs.kernel_rules.specs.Access.{kind_number};
ghost use Rattle.kernel_invariant.specs.kernel_rules.specs.CapabilityCalls.{leaf_of};
ghost use Rattle.call_plans.specs.Plans.{at_place, pushed};
ghost use Rattle.call_plans.specs.GoesBy.{wants};
ghost use Rattle.call_plans.specs.After.{with_found, next_of};
ghost use Rattle.call_plans.specs.Found.{said};

use crate::plans::{Next, Nth, Plan, Target, Wanted};
use kernel_invariant::spk_nums::{Cap, FrameNo, Kind};
use std::marker::Model;

/// The capabilities, at most four, the first name's first; contracts see their list.
#[derive(Clone, Copy, PartialEq, Eq, Debug)]
pub struct Caps {
    cells: [Cap; 4],
    len: u8,
}

impl Model for Caps {
    ghost use Rattle.std.specs.Prelude.{List};
    ghost use Rattle.kernel_invariant.specs.spk_nums.specs.Capability.{Capability};

    ghost Value = { List Capability };

    ghost use Rattle.call_plans.specs.CapCells.{caps_of, AreCaps, cap_cells, cap_cells-back};

    ghost view = { caps_of };

    ghost invariant = { AreCaps };

    ghost inverse = { cap_cells };

    ghost inverse_ok = { cap_cells-back };
}

impl Caps {
    /// No capability.
    #[inline]
    pub fn none() -> Caps
        ensures { result ≡ [] }
    {
        Caps {
            cells: [Cap::new(Kind::Range, FrameNo::new(0), 0); 4],
            len: 0,
        }
    }

    /// How many there are, at most 4.
    #[inline]
    pub fn count(&self) -> u8
        ensures count { result ≡ length self.now }
        ensures most { length self.now ≤ 4 }
    {
        self.len
    }

    // The capability in a cell that is used.
    #[inline]
    fn cell(&self, at: usize) -> Option<Cap>
        ensures { result ≡ slice_get self.now at }
    {
        if at < usize::from(self.len) {
            Some(self.cells[at])
        } else {
            None
        }
    }

    /// The capability to which this name has led, if it has.
    #[inline]
    #[tactic(auto, using(crate::proofs::Roots::at_is))]
    pub fn get(&self, at: Nth) -> Option<Cap>
        ensures { result ≡ at_place self.now at }
    {
        self.cell(at.index())
    }

    /// Appends one; four stay as they are.
    #[inline]
    pub fn push(&mut self, cap: Cap)
        ensures { self.new ≡ pushed self.old cap }
    {
        if self.len < 4 {
            self.cells[usize::from(self.len)] = cap;
            self.len += 1;
        }
    }

    /// Whether a capability of this kind is wanted, where the earlier names have led to these.
    #[inline]
    #[tactic(auto, using(crate::proofs::Roots::wants_leaf))]
    pub fn is_wanted(&self, wanted: Wanted, kind: Kind) -> bool
        ensures { result ≡ wants (with_found [] self.now) wanted kind }
    {
        match wanted {
            Wanted::Any => true,
            Wanted::Only { kind: only } => kind_number(kind) == kind_number(only),
            Wanted::Root => matches!(kind, Kind::Table | Kind::Pages),
            Wanted::LeafOf { root } => match self.get(root) {
                Some(cap) => kind_number(kind) == kind_number(leaf_of(cap.kind())),
                None => true,
            },
        }
    }
}

/// The number of a kind, in their order.
#[inline]
fn kind_number(kind: Kind) -> u8
    ensures { result ≡ kind_number kind }
{
    match kind {
        Kind::Range => 0,
        Kind::Table => 1,
        Kind::Leaf => 2,
        Kind::Pages => 3,
        Kind::Pleaf => 4,
        Kind::Comp => 5,
        Kind::Gate => 6,
        Kind::Thread => 7,
        Kind::Tcap => 8,
        Kind::Link => 9,
        Kind::Page => 10,
    }
}

/// The kind of the leaf that a root takes.
#[inline]
fn leaf_of(kind: Kind) -> Kind
    ensures { result ≡ leaf_of kind }
{
    match kind {
        Kind::Table => Kind::Leaf,
        _ => Kind::Pleaf,
    }
}

impl Plan {
    /// What the call looks up next, where its first names have led to these.
    #[inline]
    pub fn next(&self, found: &Caps) -> Next
        ensures { said (with_found [] found.now) result ≡ next_of self.now found.now }
    {
        match self.names.after(found) {
            Some(name) => Next::Name { name },
            None => match self.target {
                Target::Nowhere => Next::Nothing,
                Target::Free { spot } => Next::Free { spot },
                Target::Held { spot } => Next::Held { spot },
                Target::Own { page } => Next::Own { page },
            },
        }
    }
}
