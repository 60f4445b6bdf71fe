//! The lists that threads and temporal capabilities hold.

ghost use Rattle.std.specs.Prelude.{◌≡◌, ◌<◌, ◌≤◌, length};
ghost use Rattle.std.specs.Iterator.{YieldsFirst, item_count};
ghost use Rattle.tcap_words.specs.Quality.{quality_of_word};
ghost use Rattle.tcap_words.specs.Stack.{stack_of_word};
ghost use Rattle.word_map.specs.Places.{size_of};
ghost use Rattle.machine_image.specs.Views.{stacked, listed, stack_from, pairs_from};

use crate::words::entry_word;
use spk_nums::FrameNo;
use std::marker::Model;
use tcap_words::{QualityWord, StackWord};
use word_map::Layout;

// The frame that a word of a stack names.
fn stacked(word: u64) -> Option<FrameNo>
    ensures { result ≡ stacked (stack_of_word word) }
{
    match StackWord::unpack(word) {
        None => None,
        Some(word) => word.0,
    }
}

// The pair that a word of a list says.
fn listed(word: u64) -> Option<(u8, u32)>
    ensures { result ≡ listed (quality_of_word word) }
{
    match QualityWord::unpack(word) {
        None => None,
        Some(word) => word.0,
    }
}

/// The frames of the components on a thread's stack, the lowest first. Contracts see the list of those that are left.
#[derive(Drop)]
pub struct Stack<'a> {
    layout: Layout,
    words: &'a [u64],
    frame: FrameNo,
    at: u16,
}

impl<'a> Model for Stack<'a> {
    ghost use Rattle.std.specs.Prelude.{◌≡◌, ◌<◌, ◌≤◌, ℕ, List, length};
    ghost use Rattle.word_map.specs.Places.{size_of};
    ghost use Rattle.machine_image.specs.Views.{stack_from};

    ghost Value = { List ℕ };

    ghost view = { λ s. stack_from s.layout s.words.now s.frame s.at };

    ghost invariant = { λ s. (length s.words.now ≡ size_of s.layout) × (s.frame < s.layout.frames) × (s.at ≤ 16) };
}

impl<'a> Stack<'a> {
    /// The stack of the thread in this frame.
    pub(crate) fn new(layout: Layout, words: &'a [u64], frame: FrameNo) -> Stack<'a>
        requires size { length words.now ≡ size_of layout }
        requires frame_in { frame < layout.frames }
        ensures { result ≡ stack_from layout words.now frame 0 }
    {
        Stack {
            layout,
            words,
            frame,
            at: 0,
        }
    }
}

impl<'a> Stack<'a> {
    // The next component on the stack.
    fn step(&mut self) -> Option<FrameNo>
        ensures { YieldsFirst (λ l. l) self.old result self.new }
    {
        'heights: while self.at < 16 {
            let height = self.at;
            self.at += 1;
            match stacked(entry_word(&self.layout, self.words, self.frame, 1 + height)) {
                Some(comp) => return Some(comp),
                None => {}
            }
        }
        None
    }
}

impl<'a> Iterator for Stack<'a> {
    type Item = FrameNo;

    ghost next_gives = { YieldsFirst (λ s. s) };

    ghost remaining = { item_count (λ s. s) };

    fn next(&mut self) -> Option<FrameNo> {
        self.step()
    }
}

/// The pairs of scheduler and quality of a temporal capability, in the order of its list. Contracts see the list of those that
/// are left.
#[derive(Drop)]
pub struct Qualities<'a> {
    layout: Layout,
    words: &'a [u64],
    frame: FrameNo,
    at: u16,
}

impl<'a> Model for Qualities<'a> {
    ghost use Rattle.std.specs.Prelude.{◌≡◌, ◌<◌, ◌≤◌, ℕ, List, length};
    ghost use Rattle.word_map.specs.Places.{size_of};
    ghost use Rattle.machine_image.specs.Views.{pairs_from};

    ghost Value = { List (ℕ × ℕ) };

    ghost view = { λ q. pairs_from q.layout q.words.now q.frame q.at };

    ghost invariant = { λ q. (length q.words.now ≡ size_of q.layout) × (q.frame < q.layout.frames) × (q.at ≤ 8) };
}

impl<'a> Qualities<'a> {
    /// The list of the temporal capability in this frame.
    pub(crate) fn new(layout: Layout, words: &'a [u64], frame: FrameNo) -> Qualities<'a>
        requires size { length words.now ≡ size_of layout }
        requires frame_in { frame < layout.frames }
        ensures { result ≡ pairs_from layout words.now frame 0 }
    {
        Qualities {
            layout,
            words,
            frame,
            at: 0,
        }
    }
}

impl<'a> Qualities<'a> {
    // The next pair of the list.
    fn step(&mut self) -> Option<(u8, u32)>
        ensures { YieldsFirst (λ l. l) self.old result self.new }
    {
        'places: while self.at < 8 {
            let place = self.at;
            self.at += 1;
            match listed(entry_word(&self.layout, self.words, self.frame, 1 + place)) {
                Some(pair) => return Some(pair),
                None => {}
            }
        }
        None
    }
}

impl<'a> Iterator for Qualities<'a> {
    type Item = (u8, u32);

    ghost next_gives = { YieldsFirst (λ q. q) };

    ghost remaining = { item_count (λ q. q) };

    fn next(&mut self) -> Option<(u8, u32)> {
        self.step()
    }
}
