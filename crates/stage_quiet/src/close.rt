//! Removing what stands at a place.
//!
//! **Three steps.** A compare puts the core's mark in the place of the entry; an add draws a stamp from the clock, and
//! decides the removal; a store leaves the entry that quiesces since that stamp. The draw must come after the mark:
//! between them no core can find the entry and enter it into a call that the stamp takes for a later one.

ghost use Rattle.std.specs.Prelude.{◌≡◌, ◌<◌, ◌≤◌, ◌==◌};
ghost use Rattle.entry_words.specs.EntryWord.{word_of_entry};
ghost use Rattle.entry_words.specs.declared.entry.Entry.TheVariants.{Closing, Quiescing};
ghost use Rattle.word_map.specs.Places.{size_of};
ghost use Rattle.word_map.specs.spk_nums.specs.WordSteps.{place_in};
ghost use Rattle.word_map.specs.Moves.{op_of};
ghost use Rattle.stage_quiet.specs.Clocks.{drawn_stamp};
ghost use Rattle.stage_quiet.specs.Removal.{CloseFits, close_move, close_compared, close_end, close_after};

use entry_words::Entry;
use word_map::Layout;
use word_map::spk_nums::{CoreNo, EntryNo, FrameNo, Reply, StageEnd, Stamp, Value, WordOp};

/// The removal of what stands at a place, between two of its steps.
#[derive(Clone, Copy, PartialEq, Eq, Debug)]
pub enum Close {
    /// Before the compare of the entry, which was found to be this word.
    AtCompare {
        node: FrameNo,
        entry: EntryNo,
        word: u64,
        core: CoreNo,
    },
    /// Before the draw of the stamp.
    AtDraw {
        node: FrameNo,
        entry: EntryNo,
    },
    /// Before the store of the entry that quiesces since this stamp, at least 1.
    AtStore {
        node: FrameNo,
        entry: EntryNo,
        stamp: Stamp,
    },
}

impl Close {
    /// The removal by a core of the word found at an entry of a node.
    #[inline]
    pub fn new(node: FrameNo, entry: EntryNo, word: u64, core: CoreNo) -> Close
        ensures { result ≡ Close.AtCompare node entry word core }
    {
        Close::AtCompare {
            node,
            entry,
            word,
            core,
        }
    }

    /// The next step. The node is below the layout's frames, and the entry below 64.
    #[inline]
    pub fn next(&self, layout: &Layout) -> WordOp
        requires { CloseFits layout.now self.now }
        ensures step { result ≡ op_of layout.now (close_move self.now) }
        ensures below { place_in result < size_of layout.now }
    {
        match *self {
            Close::AtCompare {
                node,
                entry,
                word,
                core,
            } => WordOp::Compare {
                at: layout.entry_at(node, entry),
                expected: word,
                word: closing_word(core),
            },
            Close::AtDraw { node: _, entry: _ } => WordOp::Add {
                at: layout.clock_at(),
                by: 1,
            },
            Close::AtStore { node, entry, stamp } => WordOp::Store {
                at: layout.entry_at(node, entry),
                word: quiescing_word(stamp),
            },
        }
    }

    /// Takes the word that the step found. The compare is refused with `raced` where it finds another word than the
    /// entry's; the draw decides the removal with the clock found as its stamp; the store is done with that stamp. The
    /// node is below the layout's frames, and the entry below 64, and both stay so.
    #[inline]
    pub fn take(&mut self, layout: &Layout, found: u64) -> StageEnd<Stamp>
        requires { CloseFits layout.now self.old }
        ensures end { result ≡ close_end self.old found }
        ensures after { self.new ≡ close_after self.old found }
        ensures fits { CloseFits layout.now self.new }
    {
        let end = self.end(found);
        *self = self.after(found);
        end
    }

    // What the step leads to that finds this word.
    #[inline]
    fn end(&self, found: u64) -> StageEnd<Stamp>
        ensures { result ≡ close_end self.now found }
    {
        match *self {
            Close::AtCompare {
                node: _,
                entry: _,
                word,
                core: _,
            } => compared(found == word),
            Close::AtDraw { node: _, entry: _ } => StageEnd::Decided(Reply::Ok(Value::Nothing)),
            Close::AtStore {
                node: _,
                entry: _,
                stamp,
            } => StageEnd::Done(stamp),
        }
    }

    // Where the removal stands after a step that finds this word.
    #[inline]
    fn after(&self, found: u64) -> Close
        ensures { result ≡ close_after self.now found }
    {
        match *self {
            Close::AtCompare {
                node,
                entry,
                word,
                core: _,
            } => {
                if found == word {
                    Close::AtDraw { node, entry }
                } else {
                    *self
                }
            }
            Close::AtDraw { node, entry } => Close::AtStore {
                node,
                entry,
                stamp: drawn(found),
            },
            Close::AtStore {
                node: _,
                entry: _,
                stamp: _,
            } => *self,
        }
    }
}

// What the compare leads to, where it did or did not find the entry.
#[inline]
fn compared(same: bool) -> StageEnd<Stamp>
    ensures { result ≡ close_compared same }
{
    if same {
        StageEnd::Going
    } else {
        StageEnd::Refuse(Reply::Raced)
    }
}

/// The stamp that is drawn from a clock, at least 1.
#[inline]
pub fn drawn(clock: u64) -> Stamp
    ensures { result ≡ drawn_stamp clock }
{
    if clock == 0 {
        Stamp::new(1)
    } else if clock < 1 << 43 {
        Stamp::new(clock)
    } else {
        Stamp::new((1 << 43) - 1)
    }
}

// The word of an entry that a core is removing.
#[inline]
fn closing_word(core: CoreNo) -> u64
    ensures { result ≡ word_of_entry (Closing core) }
{
    let entry = Entry::Closing { by: core };
    entry.pack()
}

// The word of an entry that quiesces since a stamp, at least 1.
#[inline]
fn quiescing_word(stamp: Stamp) -> u64
    requires { 1 ≤ stamp }
    ensures { result ≡ word_of_entry (Quiescing stamp) }
{
    let entry = Entry::Quiescing { stamp };
    entry.pack()
}
