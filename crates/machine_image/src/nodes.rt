//! Nodes, and what stands in the tables that they make.

ghost use Rattle.std.specs.Prelude.{◌≡◌, ◌<◌, ◌≤◌, ◌/◌, ◌%◌, [], ◌∷◌, List, length, slice_index, IfSome};
ghost use Rattle.std.specs.Iterator.{YieldsFirst, item_count};
ghost use Rattle.entry_words.specs.EntryWord.{entry_of_word};
ghost use Rattle.word_map.specs.Places.{size_of};
ghost use Rattle.machine_image.specs.Views.{held_by, held_at, is_link, leaf_of, in_leaf, under, numbered, held_from};

use crate::words::{cap_in, held};
use entry_words::Entry;
use spk_nums::{Cap, CapId, EntryNo, FrameNo, Kind, PageNo};
use std::marker::Model;
use word_map::Layout;

/// The 64 words of a frame; contracts see their list.
#[derive(Drop)]
pub struct NodeView<'a> {
    words: &'a [u64],
}

impl<'a> Model for NodeView<'a> {
    ghost use Rattle.std.specs.Prelude.{◌≡◌, ℕ, List, length};

    ghost Value = { List ℕ };

    ghost view = { λ n. n.words.now };

    ghost invariant = { λ n. length n.words.now ≡ 64 };
}

impl<'a> NodeView<'a> {
    /// A view of these words.
    pub(crate) fn new(words: &'a [u64]) -> NodeView<'a>
        requires { length words.now ≡ 64 }
        ensures { result ≡ words.now }
    {
        NodeView { words }
    }

    /// The words, by their entries.
    pub fn words(&self) -> &'a [u64]
        ensures value { result.now ≡ self.now }
        ensures size { length result.now ≡ 64 }
    {
        self.words
    }

    /// What an entry says; None where its word has no value. The entry is below 64.
    pub fn entry(&self, entry: EntryNo) -> Option<Entry>
        requires { entry < 64 }
        ensures { result ≡ entry_of_word (slice_index self.now entry) }
    {
        Entry::unpack(self.words[entry.number() as usize])
    }

    /// The capability that an entry holds. The entry is below 64.
    pub fn held(&self, entry: EntryNo) -> Option<Cap>
        requires { entry < 64 }
        ensures { result ≡ held_by (entry_of_word (slice_index self.now entry)) }
    {
        match self.entry(entry) {
            None => None,
            Some(entry) => cap_in(&entry),
        }
    }
}

fn links(kind: Kind) -> bool
    ensures { result ≡ is_link kind }
{
    match kind {
        Kind::Link => true,
        Kind::Range => false,
        Kind::Table => false,
        Kind::Leaf => false,
        Kind::Pages => false,
        Kind::Pleaf => false,
        Kind::Comp => false,
        Kind::Gate => false,
        Kind::Thread => false,
        Kind::Tcap => false,
        Kind::Page => false,
    }
}

// The leaf to which what an entry of a root holds links, where it is a frame of the machine.
fn leaf(layout: &Layout, link: Option<Cap>) -> Option<FrameNo>
    ensures value { result ≡ leaf_of layout.now.frames link }
    ensures frame_in { IfSome result (λ f. f < layout.now.frames) }
{
    match link {
        None => None,
        Some(cap) => {
            if links(cap.kind()) && cap.frame().number() < layout.frames() {
                Some(cap.frame())
            } else {
                None
            }
        }
    }
}

// What stands under a number of the table with this root.
fn cap_under(layout: &Layout, words: &[u64], root: FrameNo, number: u16) -> Option<Cap>
    requires size { length words.now ≡ size_of layout.now }
    requires root_in { root < layout.now.frames }
    requires number_in { number < 4096 }
    ensures { result ≡ under layout.now words.now root number }
{
    match leaf(layout, held(layout, words, root, number / 64)) {
        None => None,
        Some(leaf) => held(layout, words, leaf, number % 64),
    }
}

// The numbers of a table that hold something, from one on.
#[derive(Drop)]
struct Held<'a> {
    layout: Layout,
    words: &'a [u64],
    root: FrameNo,
    at: u16,
}

impl<'a> Model for Held<'a> {
    ghost use Rattle.std.specs.Prelude.{◌≡◌, ◌<◌, ◌≤◌, ℕ, List, length};
    ghost use Rattle.spk_nums.specs.Capability.{Capability};
    ghost use Rattle.word_map.specs.Places.{size_of};
    ghost use Rattle.machine_image.specs.Views.{held_from};

    ghost Value = { List (ℕ × Capability) };

    ghost view = { λ h. held_from h.layout h.words.now h.root h.at };

    ghost invariant = { λ h. (length h.words.now ≡ size_of h.layout) × (h.root < h.layout.frames) × (h.at ≤ 4096) };
}

impl<'a> Held<'a> {
    // The next number that holds something, with what it holds.
    fn step(&mut self) -> Option<(u16, Cap)>
        ensures { YieldsFirst (λ l. l) self.old result self.new }
    {
        'numbers: while self.at < 4096 {
            let number = self.at;
            self.at += 1;
            match cap_under(&self.layout, self.words, self.root, number) {
                Some(cap) => return Some((number, cap)),
                None => {}
            }
        }
        None
    }
}

/// The capabilities of a capability table, each with its number, ascending. Contracts see the list of those that are left.
#[derive(Drop)]
pub struct Caps<'a> {
    left: Held<'a>,
}

impl<'a> Model for Caps<'a> {
    ghost use Rattle.std.specs.Prelude.{ℕ, List};
    ghost use Rattle.spk_nums.specs.Capability.{Capability};

    ghost Value = { List (ℕ × Capability) };

    ghost view = { λ c. c.left };
}

impl<'a> Caps<'a> {
    /// Those of the table with this root.
    pub(crate) fn new(layout: Layout, words: &'a [u64], root: FrameNo) -> Caps<'a>
        requires size { length words.now ≡ size_of layout }
        requires root_in { root < layout.frames }
        ensures { result ≡ held_from layout words.now root 0 }
    {
        Caps {
            left: Held {
                layout,
                words,
                root,
                at: 0,
            },
        }
    }
}

impl<'a> Iterator for Caps<'a> {
    type Item = (CapId, Cap);

    ghost next_gives = { YieldsFirst (λ c. c) };

    ghost remaining = { item_count (λ c. c) };

    fn next(&mut self) -> Option<(CapId, Cap)> {
        match self.left.step() {
            None => None,
            Some((number, cap)) => Some((CapId::new(number), cap)),
        }
    }
}

/// The mappings of a page table, each with its page, ascending. Contracts see the list of those that are left.
#[derive(Drop)]
pub struct Maps<'a> {
    left: Held<'a>,
}

impl<'a> Model for Maps<'a> {
    ghost use Rattle.std.specs.Prelude.{ℕ, List};
    ghost use Rattle.spk_nums.specs.Capability.{Capability};

    ghost Value = { List (ℕ × Capability) };

    ghost view = { λ m. m.left };
}

impl<'a> Maps<'a> {
    /// Those of the table with this root.
    pub(crate) fn new(layout: Layout, words: &'a [u64], root: FrameNo) -> Maps<'a>
        requires size { length words.now ≡ size_of layout }
        requires root_in { root < layout.frames }
        ensures { result ≡ held_from layout words.now root 0 }
    {
        Maps {
            left: Held {
                layout,
                words,
                root,
                at: 0,
            },
        }
    }
}

impl<'a> Iterator for Maps<'a> {
    type Item = (PageNo, Cap);

    ghost next_gives = { YieldsFirst (λ m. m) };

    ghost remaining = { item_count (λ m. m) };

    fn next(&mut self) -> Option<(PageNo, Cap)> {
        match self.left.step() {
            None => None,
            Some((number, cap)) => Some((PageNo::new(number), cap)),
        }
    }
}
