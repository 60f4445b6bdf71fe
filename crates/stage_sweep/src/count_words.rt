//! The count words of a frame that is being retyped, as they were found.

ghost use Rattle.std.specs.Prelude.{◌≡◌, ◌<◌, ◌≤◌, [], ◌∷◌, ◌++◌, length, slice_get, MatchBool, IfSome};
ghost use Rattle.stage_pins.specs.frame_words.specs.Count.{NumberFits};
ghost use Rattle.stage_sweep.specs.Counters.{sum_of_counts, latest_stamp};
ghost use Rattle.stage_sweep.specs.CountLists.{blank_count};

use frame_words::{CountWord, Hold};
use spk_nums::Stamp;
use std::marker::Model;

/// Up to 8 count words, that of the first counter first, each with a count from -2^15 to 2^15 - 1; contracts see their
/// list.
#[derive(Clone, Copy, PartialEq, Eq, Debug)]
pub struct CountWords {
    cells: [CountWord; 8],
    len: u8,
}

impl Model for CountWords {
    ghost use Rattle.std.specs.Prelude.{List};
    ghost use Rattle.stage_pins.specs.frame_words.specs.declared.count_word.CountWord.{CountWord};

    ghost Value = { List CountWord };

    ghost use Rattle.stage_sweep.specs.CountLists.{counts_of, AreCounts, count_cells, count_cells-back};

    ghost view = { counts_of };

    ghost invariant = { AreCounts };

    ghost inverse = { count_cells };

    ghost inverse_ok = { count_cells-back };
}

// A cell that holds no count word.
fn blank() -> CountWord
    ensures { result ≡ blank_count }
{
    CountWord {
        hold: Hold::Unheld,
        count: 0,
        stamp: Stamp::new(0),
    }
}

impl CountWords {
    /// No count words.
    pub fn empty() -> CountWords
        ensures { result ≡ [] }
    {
        CountWords {
            cells: [blank(); 8],
            len: 0,
        }
    }

    /// The number of count words, at most 8.
    #[inline]
    pub fn len(&self) -> usize
        ensures length { result ≡ length self.now }
        ensures most { length self.now ≤ 8 }
    {
        usize::from(self.len)
    }

    /// The count word of the counter `at`, from 0; None exactly past the last.
    #[inline]
    pub fn get(&self, at: usize) -> Option<CountWord>
        ensures item { result ≡ slice_get self.now at }
        ensures range { IfSome result (λ v. NumberFits v.count) }
    {
        if at < usize::from(self.len) {
            Some(self.cells[at])
        } else {
            None
        }
    }

    /// Appends a count word, whose count is within its range. Answers false and changes nothing exactly where there are
    /// 8 already.
    pub fn add(&mut self, item: CountWord) -> bool
        requires { NumberFits item.count }
        ensures { MatchBool result ((length self.old < 8) × (self.new ≡ self.old ++ item ∷ []))
            ((length self.old ≡ 8) × (self.new ≡ self.old)) }
    {
        if self.len == 8 {
            return false;
        }
        self.cells[usize::from(self.len)] = item;
        self.len += 1;
        true
    }

    /// The sum of their counts: the references to the frame, modulo 2^16, where they are all its counters.
    pub fn sum(&self) -> i64
        ensures { result ≡ sum_of_counts self.now }
    {
        let mut sum = 0;
        for word in &self.cells[..usize::from(self.len)] {
            sum += i64::from(word.count);
        }
        sum
    }

    /// The latest of their stamps, 0 where no reference was released.
    pub fn stamp(&self) -> Stamp
        ensures { result ≡ latest_stamp self.now }
    {
        let mut latest = Stamp::new(0);
        for word in &self.cells[..usize::from(self.len)] {
            if latest.number() < word.stamp.number() {
                latest = word.stamp;
            }
        }
        latest
    }
}
