//! Acquiring a count.
//!
//! **Why a count is acquired.** The references to a frame are counted in its count words. A call that changes them
//! acquires a count word first, decides, and commits the word last. While it holds the word no core can freeze it, so
//! a retype never sums a count that a decided call has still to change.
//!
//! **Which word.** A frame has a count word for each core, and a core acquires its own. It marks the word with its own
//! number, so that another core, which is to freeze the word, can tell who holds it.
//!
//! **How.** The word is loaded. If a core holds it, that core is busy. Else a compare puts the acquired word in the
//! place of the one that was found, and is lost where another core has changed the word in between.

ghost use Rattle.std.specs.Prelude.{◌≡◌, ◌<◌, ℕ, Some};
ghost use Rattle.word_map.specs.spk_nums.specs.declared.steps.StageEnd.TheVariants.{Going};
ghost use Rattle.frame_words.specs.Count.{NumberFits, word_of_count};
ghost use Rattle.word_map.specs.Word.{CountAt};
ghost use Rattle.word_map.specs.Places.{IsIn, place_of, size_of};
ghost use Rattle.word_map.specs.spk_nums.specs.WordSteps.{place_in};
ghost use Rattle.word_map.specs.Moves.{op_of};
ghost use Rattle.stage_pins.specs.Counts.{unheld, acquired};
ghost use Rattle.stage_pins.specs.Acquire.{PinCounts, PinFits, expected_by, pin_move, end_by_hold, load_end, pinned_at};
ghost use Rattle.stage_pins.specs.Acquire.{compare_end, pin_end, after_hold, after_load, pin_after, EndFits};

use frame_words::{CountWord, Hold};
use word_map::Layout;
use word_map::spk_nums::{CoreNo, FrameNo, Reply, StageEnd, Stamp, WordOp};

/// The acquiring of a core's count of a frame, between two of its steps.
#[derive(Clone, Copy, PartialEq, Eq, Debug)]
pub enum Pin {
    /// Before the load of the count word.
    AtLoad {
        frame: FrameNo,
        core: CoreNo,
    },
    /// Before the compare of the count word, which was found held by no core, with this count and this stamp.
    AtCompare {
        frame: FrameNo,
        core: CoreNo,
        count: i32,
        stamp: Stamp,
    },
}

/// A count that a core has acquired, and has still to commit.
#[derive(Clone, Copy, PartialEq, Eq, Debug)]
pub struct Pinned {
    /// The frame whose references are counted.
    pub frame: FrameNo,
    /// The core that has acquired its count.
    pub core: CoreNo,
    /// The count word as it was found, held by no core.
    pub word: CountWord,
}

impl Pin {
    /// The acquiring of a core's count of a frame.
    #[inline]
    pub fn new(frame: FrameNo, core: CoreNo) -> Pin
        ensures { result ≡ Pin.AtLoad frame core }
    {
        Pin::AtLoad { frame, core }
    }

    /// The next step: the load of the count word, then its compare. The frame and the core are below the layout's.
    #[inline]
    pub fn next(&self, layout: &Layout) -> WordOp
        requires { PinFits layout.now self.now }
        ensures step { result ≡ op_of layout.now (pin_move self.now) }
        ensures below { place_in result < size_of layout.now }
    {
        match *self {
            Pin::AtLoad { frame, core } => WordOp::Load {
                at: counter_at(layout, frame, core),
            },
            Pin::AtCompare {
                frame,
                core,
                count,
                stamp,
            } => WordOp::Compare {
                at: counter_at(layout, frame, core),
                expected: unheld_word(count, stamp),
                word: acquired_word(core, count, stamp),
            },
        }
    }

    /// Takes the word that the step found. The load is refused with `busy` where a core holds the word, and with
    /// `raced` where it is no count word; the compare is refused with `raced` where it finds another word than the
    /// load, and is else done with the acquired count. The frame and the core are below the layout's, and stay so.
    #[inline]
    pub fn take(&mut self, layout: &Layout, found: u64) -> StageEnd<Pinned>
        requires { PinFits layout.now self.old }
        ensures end { result ≡ pin_end self.old found }
        ensures after { self.new ≡ pin_after self.old found }
        ensures fits { PinFits layout.now self.new }
        ensures found { EndFits layout.now result }
    {
        let took = self.took(found);
        *self = took.0;
        took.1
    }

    // Where the acquiring stands after a step that finds this word, and what the step leads to.
    #[inline]
    fn took(self, found: u64) -> (Pin, StageEnd<Pinned>)
        requires { PinCounts self }
        ensures after { result.0 ≡ pin_after self found }
        ensures end { result.1 ≡ pin_end self found }
    {
        match self {
            Pin::AtLoad { frame, core } => {
                let shown = CountWord::unpack(found);
                (after_load(frame, core, &shown), load_end(&shown))
            }
            Pin::AtCompare {
                frame,
                core,
                count,
                stamp,
            } => {
                let same = found == unheld_word(count, stamp);
                (
                    self,
                    compare_end(same, pinned_at(frame, core, count, stamp)),
                )
            }
        }
    }
}

// The place of the count word that a core acquires: its own.
#[inline]
fn counter_at(layout: &Layout, frame: FrameNo, core: CoreNo) -> u32
    requires { IsIn layout.now (CountAt frame core) }
    ensures place { result ≡ place_of layout.now (CountAt frame core) }
    ensures below { result < size_of layout.now }
{
    layout.count_at(frame, core)
}

// The word of a count that no core holds.
#[inline]
fn unheld_word(count: i32, stamp: Stamp) -> u64
    requires { NumberFits count }
    ensures { result ≡ word_of_count (unheld count stamp) }
{
    let word = CountWord {
        hold: Hold::Unheld,
        count,
        stamp,
    };
    word.pack()
}

// The word of a count that a core has acquired.
#[inline]
fn acquired_word(core: CoreNo, count: i32, stamp: Stamp) -> u64
    requires { NumberFits count }
    ensures { result ≡ word_of_count (acquired core count stamp) }
{
    let word = CountWord {
        hold: Hold::Pinned { by: core },
        count,
        stamp,
    };
    word.pack()
}

// What the loaded word leads to.
#[inline]
fn load_end(shown: &Option<CountWord>) -> StageEnd<Pinned>
    ensures { result ≡ load_end shown.now }
{
    match shown {
        None => StageEnd::Refuse(Reply::Raced),
        Some(word) => end_by_hold(word.hold),
    }
}

// What a word leads to that is held thus.
#[inline]
fn end_by_hold(hold: Hold) -> StageEnd<Pinned>
    ensures { result ≡ end_by_hold hold }
{
    match hold {
        Hold::Unheld => StageEnd::Going,
        Hold::Pinned { by } => StageEnd::Refuse(Reply::Busy(by)),
        Hold::Closed { by } => StageEnd::Refuse(Reply::Busy(by)),
    }
}

// Where the acquiring stands after a load of this word.
#[inline]
fn after_load(frame: FrameNo, core: CoreNo, shown: &Option<CountWord>) -> Pin
    ensures { result ≡ after_load frame core shown.now }
{
    match shown {
        None => Pin::AtLoad { frame, core },
        Some(word) => after_hold(frame, core, word),
    }
}

// Where the acquiring stands after a load of this count word.
#[inline]
fn after_hold(frame: FrameNo, core: CoreNo, word: &CountWord) -> Pin
    ensures { result ≡ after_hold frame core word.now.count word.now.stamp word.now.hold }
{
    match word.hold {
        Hold::Unheld => Pin::AtCompare {
            frame,
            core,
            count: word.count,
            stamp: word.stamp,
        },
        _ => Pin::AtLoad { frame, core },
    }
}

// The acquired count, with the word as it was found.
#[inline]
fn pinned_at(frame: FrameNo, core: CoreNo, count: i32, stamp: Stamp) -> Pinned
    ensures { result ≡ pinned_at frame core count stamp }
{
    let word = CountWord {
        hold: Hold::Unheld,
        count,
        stamp,
    };
    Pinned { frame, core, word }
}

// What the compare leads to, where it did or did not find the word that was loaded.
#[inline]
fn compare_end(same: bool, pin: Pinned) -> StageEnd<Pinned>
    ensures { result ≡ compare_end same pin }
{
    if same {
        StageEnd::Done(pin)
    } else {
        StageEnd::Refuse(Reply::Raced)
    }
}

/// Where the load goes on, the compare expects the word that was loaded.
pub fn acquires_what_it_found()
    ensures { (frame core found : ℕ) → pin_end (Pin.AtLoad frame core) found ≡ Going
        → expected_by (pin_move (pin_after (Pin.AtLoad frame core) found)) ≡ Some found }
{}
