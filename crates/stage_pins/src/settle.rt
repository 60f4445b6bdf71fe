//! Committing a count.
//!
//! A call that has acquired a count commits it after its decision: with the change that the decision made to the
//! references, and with its stamp where a reference was released. After a refusal it commits the change 0.

ghost use Rattle.std.specs.Prelude.{◌≡◌, ◌<◌, ℕ, ℤ, pos, None};
ghost use Rattle.word_map.specs.spk_nums.specs.declared.steps.StageEnd.TheVariants.{Done};
ghost use Rattle.frame_words.specs.Count.{NumberFits, word_of_count};
ghost use Rattle.word_map.specs.Word.{CountAt};
ghost use Rattle.word_map.specs.Places.{size_of};
ghost use Rattle.word_map.specs.spk_nums.specs.WordSteps.{place_in};
ghost use Rattle.word_map.specs.Moves.{op_of, StoreOf};
ghost use Rattle.stage_pins.specs.Counts.{unheld, changed, later};
ghost use Rattle.stage_pins.specs.Acquire.{pinned_at};
ghost use Rattle.stage_pins.specs.Commit.{SettleFits, settled_word, settle_move};

use crate::pin::Pinned;
use frame_words::{CountWord, Hold, wrapped};
use word_map::Layout;
use word_map::spk_nums::{StageEnd, Stamp, WordOp};

/// The commit of an acquired count, before its one step.
#[derive(Clone, Copy, PartialEq, Eq, Debug)]
pub struct Settle {
    /// The acquired count.
    pub pin: Pinned,
    /// By how much the call has changed the references that the core counts.
    pub change: i32,
    /// The stamp that the call has drawn, where it released a reference.
    pub stamp: Option<Stamp>,
}

impl Settle {
    /// The commit of an acquired count with this change, and with a stamp where a reference was released.
    #[inline]
    pub fn new(pin: Pinned, change: i32, stamp: Option<Stamp>) -> Settle
        ensures { result ≡ record { pin = pin; change = change; stamp = stamp } }
    {
        Settle { pin, change, stamp }
    }

    /// The step: the store of the count word, held by no core. The count is changed modulo 2^16, and a stamp is never
    /// replaced by an earlier one. The frame and the core are below the layout's.
    #[inline]
    pub fn next(&self, layout: &Layout) -> WordOp
        requires { SettleFits layout.now self.now }
        ensures step { result ≡ op_of layout.now (settle_move self.now) }
        ensures below { place_in result < size_of layout.now }
    {
        let word = self.word();
        WordOp::Store {
            at: layout.count_at(self.pin.frame, self.pin.core),
            word: word.pack(),
        }
    }

    /// Takes the step, a store: the count is committed, whatever is found.
    #[inline]
    pub fn take(&mut self, _layout: &Layout, _found: u64) -> StageEnd<()>
        ensures end { result ≡ Done tt }
        ensures after { self.new ≡ self.old }
    {
        StageEnd::Done(())
    }

    // The word that is committed.
    #[inline]
    fn word(&self) -> CountWord
        requires { NumberFits self.now.pin.word.count }
        ensures word { result ≡ settled_word self.now }
        ensures range { NumberFits result.count }
    {
        CountWord {
            hold: Hold::Unheld,
            count: changed(self.pin.word.count, self.change),
            stamp: later(self.pin.word.stamp, self.stamp),
        }
    }
}

// A count after a change, modulo 2^16.
#[inline]
fn changed(count: i32, change: i32) -> i32
    ensures value { result ≡ changed count change }
    ensures range { NumberFits result }
{
    wrapped(i64::from(count) + i64::from(change))
}

// The later of a word's stamp and one that was drawn, if one was.
#[inline]
fn later(stamp: Stamp, drawn: Option<Stamp>) -> Stamp
    ensures { result ≡ later stamp drawn }
{
    match drawn {
        None => stamp,
        Some(drawn) => {
            if stamp.number() < drawn.number() {
                drawn
            } else {
                stamp
            }
        }
    }
}

/// With no change and no stamp a commit gives back the word that was found.
pub fn gives_back_what_it_found()
    ensures { (frame core stamp : ℕ) (count : ℤ) → NumberFits count → settle_move (record {
      pin = pinned_at frame core count stamp;
      change = pos 0;
      stamp = None;
    }) ≡ StoreOf (CountAt frame core) (word_of_count (unheld count stamp)) }
{}
