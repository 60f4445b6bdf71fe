//! The counts that a call has acquired.
//!
//! A call acquires the counts that it may change one after another, and commits them in the same order once it is
//! decided: with their changes where it is carried out, and unchanged where it is refused.

ghost use Rattle.std.specs.Prelude.{◌≡◌, ◌≤◌, [], length};
ghost use Rattle.stage_pins.specs.Held.{pushed, first_of, rest_of, has_none, change_if, stamp_of_change, commit_of};
ghost use Rattle.stage_pins.specs.HeldCells.{blank_count};

use crate::pin::Pinned;
use crate::settle::Settle;
use frame_words::{CountWord, Hold};
use std::marker::Model;
use word_map::spk_nums::{CoreNo, FrameNo, Stamp};

/// A count that a call has acquired, and by how much the call changes the references that the core counts, if it is
/// carried out.
#[derive(Clone, Copy, PartialEq, Eq, Debug)]
pub struct Acquired {
    /// The acquired count.
    pub pin: Pinned,
    /// The change of a call that is carried out.
    pub change: i32,
}

impl Acquired {
    /// The commit of the count, where the call is or is not carried out and has drawn a stamp or none: a refused call
    /// gives the count back, and a stamp is stored only where the change releases a reference.
    #[inline]
    pub fn commit(&self, carried_out: bool, drawn: Option<Stamp>) -> Settle
        ensures { result ≡ commit_of carried_out drawn self.now }
    {
        if carried_out {
            Settle::new(self.pin, self.change, stamp_of_change(self.change, drawn))
        } else {
            Settle::new(self.pin, 0, None)
        }
    }
}

// An unused cell.
#[inline]
fn blank_count() -> Acquired
    ensures { result ≡ blank_count }
{
    let word = CountWord {
        hold: Hold::Unheld,
        count: 0,
        stamp: Stamp::new(0),
    };
    let pin = Pinned {
        frame: FrameNo::new(0),
        core: CoreNo::new(0),
        word,
    };
    Acquired { pin, change: 0 }
}

// The stamp that a commit brings: the drawn one, where its change releases a reference.
#[inline]
fn stamp_of_change(change: i32, drawn: Option<Stamp>) -> Option<Stamp>
    ensures { result ≡ stamp_of_change change drawn }
{
    if change < 0 { drawn } else { None }
}

/// The counts that a call has acquired and not committed, at most four, the earliest first; contracts see their list.
#[derive(Clone, Copy, PartialEq, Eq, Debug)]
pub struct AcquiredCounts {
    cells: [Acquired; 4],
    len: u8,
}

impl Model for AcquiredCounts {
    ghost use Rattle.std.specs.Prelude.{List};
    ghost use Rattle.stage_pins.specs.declared.held.Acquired.{Acquired};

    ghost Value = { List Acquired };

    ghost use Rattle.stage_pins.specs.HeldCells.{counts_of, AreCounts, count_cells, count_cells-back};

    ghost view = { counts_of };

    ghost invariant = { AreCounts };

    ghost inverse = { count_cells };

    ghost inverse_ok = { count_cells-back };
}

impl AcquiredCounts {
    /// No count.
    #[inline]
    pub fn none() -> AcquiredCounts
        ensures { result ≡ [] }
    {
        AcquiredCounts {
            cells: [blank_count(); 4],
            len: 0,
        }
    }

    /// How many there are, at most 4.
    #[inline]
    pub fn count(&self) -> u8
        ensures count { result ≡ length self.now }
        ensures most { length self.now ≤ 4 }
    {
        self.len
    }

    /// Appends a count that the call has acquired; four stay as they are.
    #[inline]
    pub fn push(&mut self, count: Acquired)
        ensures { self.new ≡ pushed self.old count }
    {
        if self.len < 4 {
            self.cells[usize::from(self.len)] = count;
            self.len += 1;
        }
    }

    /// The earliest count, which is committed next, if there is one.
    #[inline]
    pub fn first(&self) -> Option<Acquired>
        ensures { result ≡ first_of self.now }
    {
        if self.len == 0 {
            None
        } else {
            Some(self.cells[0])
        }
    }

    /// Removes the earliest count, if there is one.
    #[inline]
    pub fn pop(&mut self)
        ensures { self.new ≡ rest_of self.old }
    {
        if self.len > 0 {
            let [_, second, third, fourth] = self.cells;
            let cells = [second, third, fourth, blank_count()];
            self.cells = cells;
            self.len -= 1;
        }
    }

    /// Whether there is no count.
    #[inline]
    pub fn is_empty(&self) -> bool
        ensures { result ≡ has_none self.now }
    {
        self.len == 0
    }
}
