//! Releasing the counters that a sweep has frozen.
//!
//! After a refusal each counter is stored again as it was found. After a retype that was decided each is stored with no
//! count and no stamp, since no reference to the frame stands. The frame's own word is stored after them: while it is
//! marked no core finds a frame whose counters are another's.

ghost use Rattle.std.specs.Prelude.{◌≡◌, ◌<◌, ◌≤◌, ◌+◌, nat_lt, length, slice_get, IfSome};
ghost use Rattle.stage_look.specs.spk_nums.specs.WordSteps.{place_in};
ghost use Rattle.stage_pins.specs.frame_words.specs.Count.{NumberFits, word_of_count};
ghost use Rattle.stage_look.specs.word_map.specs.Places.{Shape, size_of};
ghost use Rattle.stage_look.specs.word_map.specs.Moves.{op_of};
ghost use Rattle.stage_sweep.specs.Counters.{counters_of};
ghost use Rattle.stage_sweep.specs.Release.{ThawFits, released, thaw_move, thaw_end, thaw_after, thaw_of};

use crate::count_words::CountWords;
use crate::sweep::Swept;
use frame_words::{CountWord, Hold};
use spk_nums::{CoreNo, FrameNo, StageEnd, Stamp, WordOp};
use word_map::Layout;

/// The release of frozen counters, between two of its steps.
#[derive(Clone, Copy, PartialEq, Eq, Debug)]
pub struct Thaw {
    /// The frame.
    pub frame: FrameNo,
    /// The counters, as they were found.
    pub words: CountWords,
    /// Whether they are cleared, and not given back.
    pub clear: bool,
    /// The counter that is stored next.
    pub at: u8,
}

impl Thaw {
    /// The release of the counters that a sweep has frozen, cleared or as they were found. None exactly where it has
    /// frozen none.
    pub fn new(swept: &Swept, clear: bool) -> Option<Thaw>
        ensures { result ≡ thaw_of swept.now clear }
    {
        if swept.words.len() == 0 {
            return None;
        }
        Some(Thaw {
            frame: swept.frame,
            words: swept.words,
            clear,
            at: 0,
        })
    }

    /// The next step, a store. The frame is below the layout's, and the counter one of those that were frozen.
    #[tactic(auto, unfolding(crate::specs::Counters::counters_of))]
    pub fn next(&self, layout: &Layout) -> WordOp
        requires { ThawFits layout.now self.now }
        ensures step { result ≡ op_of layout.now (thaw_move self.now) }
        ensures below { place_in result < size_of layout.now }
    {
        // A frame has no more counters than the machine has cores.
        prove!(self.at < layout.cores());
        let word = released(self.clear, self.words.get(usize::from(self.at)));
        WordOp::Store {
            at: layout.count_at(self.frame, CoreNo::new(self.at)),
            word: word.pack(),
        }
    }

    /// Takes the step, a store, whatever is found; the last one is done.
    pub fn take(&mut self, _layout: &Layout, _found: u64) -> StageEnd<()>
        requires { self.old.at < length self.old.words }
        ensures end { result ≡ thaw_end self.old }
        ensures after { self.new ≡ thaw_after self.old }
        ensures fits { (s : Shape) → ThawFits s self.old → ThawFits s self.new }
    {
        if usize::from(self.at) + 1 < self.words.len() {
            self.at += 1;
            StageEnd::Going
        } else {
            StageEnd::Done(())
        }
    }
}

// A counter as it was found, or with no count and no stamp where it is cleared.
#[inline]
fn released(clear: bool, found: Option<CountWord>) -> CountWord
    requires { IfSome found (λ v. NumberFits v.count) }
    ensures word { result ≡ released clear found }
    ensures range { NumberFits result.count }
{
    match found {
        Some(word) if !clear => unheld(word.count, word.stamp),
        _ => unheld(0, Stamp::new(0)),
    }
}

// The count word that no core holds.
#[inline]
fn unheld(count: i32, stamp: Stamp) -> CountWord
    ensures { result ≡ record { hold = Hold.Unheld; count = count; stamp = stamp } }
{
    CountWord {
        hold: Hold::Unheld,
        count,
        stamp,
    }
}
