//! Looking up a place in a radix table of capabilities or pages.
//!
//! **A number.** A table is a root node and its leaves. The high bits of a number up to 4,095 choose the root entry,
//! which holds the link to a leaf, and its low six bits the entry of the leaf. So a look-up under a number makes two
//! loads, and one of a root entry itself makes one.
//!
//! **What may be found.** The last load hands on whatever stands there: nothing, a capability, or a place that is still
//! waited for. A root entry that holds no link leads to no slot, also where its link is removed and still waited for. A
//! place that another core is removing is busy. A word that is that of no entry, or that names a frame past the
//! machine's, never comes; it is answered `raced`, so that every word is taken.

ghost use Rattle.std.specs.Prelude.{◌≡◌, ◌<◌, ◌≤◌, nat_le, IfSome, Some, IsTrue, IsFalse};
ghost use Rattle.word_map.specs.spk_nums.specs.Capability.{cap_of};
ghost use Rattle.word_map.specs.spk_nums.specs.declared.kinds.Kind.TheVariants.{Link};
ghost use Rattle.word_map.specs.spk_nums.specs.declared.steps.StageEnd.TheVariants.{Going};
ghost use Rattle.entry_words.specs.declared.entry.Entry.TheVariants.{Held};
ghost use Rattle.word_map.specs.Places.{size_of};
ghost use Rattle.word_map.specs.Moves.{op_of};
ghost use Rattle.word_map.specs.spk_nums.specs.WordSteps.{place_in};
ghost use Rattle.stage_look.specs.Shown.{end_of_frames, shown_in, entry_within, held_if, is_link};
ghost use Rattle.stage_look.specs.Lookup.{leaf_of_word, is_followed, LookFits, look_move, root_end, place_end, look_end, root_after, look_after, EndFits};

use entry_words::Entry;
use word_map::Layout;
use word_map::spk_nums::{Cap, CapId, EntryNo, FrameNo, Kind, Reply, StageEnd, WordOp};

// The low bits of the word of a link; above them it has its leaf alone.
const LINK: u64 = 37;

/// A look-up, between two of its steps.
#[derive(Clone, Copy, PartialEq, Eq, Debug)]
pub enum Look {
    /// Before the load of the root entry that a number chooses.
    AtRoot { root: FrameNo, number: CapId },
    /// Before the load of the leaf entry that a number chooses.
    AtLeaf { leaf: FrameNo, number: CapId },
    /// Before the load of this root entry, which is itself the place that is looked for.
    AtEntry { root: FrameNo, entry: EntryNo },
}

/// A place that was looked up.
#[derive(Clone, Copy, PartialEq, Eq, Debug)]
pub struct Found {
    /// The node that has the place.
    pub node: FrameNo,
    /// The place's entry in the node, below 64.
    pub entry: EntryNo,
    /// The word found there.
    pub word: u64,
    /// What the word shows: never that a core is closing the place.
    pub value: Entry,
}

impl Look {
    /// The look-up of an own name in the caller's table. The number is at most 4,095.
    #[inline]
    pub fn own(table: FrameNo, number: CapId) -> Look
        requires { number ≤ 4095 }
        ensures { result ≡ Look.AtRoot table number }
    {
        Look::AtRoot {
            root: table,
            number,
        }
    }

    /// The look-up of a target's place under a number in a named table. The number is at most 4,095.
    #[inline]
    pub fn place(root: FrameNo, number: CapId) -> Look
        requires { number ≤ 4095 }
        ensures { result ≡ Look.AtRoot root number }
    {
        Look::AtRoot { root, number }
    }

    /// The look-up of a root entry itself. The entry is at most 63.
    #[inline]
    pub fn root(root: FrameNo, entry: EntryNo) -> Look
        requires { entry ≤ 63 }
        ensures { result ≡ Look.AtEntry root entry }
    {
        Look::AtEntry { root, entry }
    }

    /// The next step, a load. The frames that the look-up names are below the layout's.
    #[inline]
    pub fn next(&self, layout: &Layout) -> WordOp
        requires { LookFits layout.now self.now }
        ensures step { result ≡ op_of layout.now (look_move self.now) }
        ensures below { place_in result < size_of layout.now }
    {
        let at = match *self {
            Look::AtRoot { root, number } => {
                layout.entry_at(root, EntryNo::new(number.number() / 64))
            }
            Look::AtLeaf { leaf, number } => {
                layout.entry_at(leaf, EntryNo::new(number.number() % 64))
            }
            Look::AtEntry { root, entry } => layout.entry_at(root, entry),
        };
        WordOp::Load { at }
    }

    /// Takes the word that the step found. It is refused with `no-slot` where a root entry holds no link, with `busy`
    /// where a core is removing what stands there, and with `raced` where the word is that of no entry of this
    /// machine; else the last step is done with the place. The frames that the look-up names are below the layout's,
    /// and stay so.
    #[inline]
    pub fn take(&mut self, layout: &Layout, found: u64) -> StageEnd<Found>
        requires { LookFits layout.now self.old }
        ensures end { result ≡ look_end self.old found (shown_in layout.now.frames found) }
        ensures after { self.new ≡ look_after self.old (shown_in layout.now.frames found) }
        ensures fits { LookFits layout.now self.new }
        ensures found { EndFits layout.now result }
    {
        let shown = shown_in(layout.frames(), found);
        let end = self.end(found, &shown);
        *self = self.after(&shown);
        end
    }

    /// Takes the word that the step found, as `take` does, where a root was loaded and the word is that of a link to a frame of the machine:
    /// it is told by a comparison, and not read. Else nothing is done, and it is false. The frames that the look-up names are below the
    /// layout's, and stay so.
    #[inline(always)]
    pub fn follows(&mut self, layout: &Layout, found: u64) -> bool
        requires { LookFits layout.now self.old }
        ensures value { result ≡ is_followed self.old layout.now.frames found }
        ensures end { IsTrue result → look_end self.old found (shown_in layout.now.frames found) ≡ Going }
        ensures after { IsTrue result → self.new ≡ look_after self.old (shown_in layout.now.frames found) }
        ensures stays { IsFalse result → self.new ≡ self.old }
        ensures fits { LookFits layout.now self.new }
    {
        let at = *self;
        match at {
            Look::AtRoot { root: _, number } => match leaf_of_word(layout.frames(), found) {
                None => false,
                Some(leaf) => {
                    *self = Look::AtLeaf { leaf, number };
                    true
                }
            },
            Look::AtLeaf { leaf: _, number: _ } => false,
            Look::AtEntry { root: _, entry: _ } => false,
        }
    }

    // What the step leads to that finds this word, which shows this.
    #[inline]
    fn end(&self, word: u64, shown: &Option<Entry>) -> StageEnd<Found>
        ensures { result ≡ look_end self.now word shown.now }
    {
        match *self {
            Look::AtRoot { root: _, number: _ } => root_end(shown),
            Look::AtLeaf { leaf, number } => {
                place_end(leaf, EntryNo::new(number.number() % 64), word, shown)
            }
            Look::AtEntry { root, entry } => place_end(root, entry, word, shown),
        }
    }

    // Where the look-up stands after a step on a word that shows this.
    #[inline]
    fn after(&self, shown: &Option<Entry>) -> Look
        ensures { result ≡ look_after self.now shown.now }
    {
        match *self {
            Look::AtRoot { root, number } => root_after(root, number, shown),
            Look::AtLeaf { leaf, number } => Look::AtLeaf { leaf, number },
            Look::AtEntry { root, entry } => Look::AtEntry { root, entry },
        }
    }
}

// The leaf of a link, where the word is that of a link to a frame of a machine of so many.
#[inline]
#[tactic(auto, using(crate::proofs::Links::link_shown))]
fn leaf_of_word(frames: u16, word: u64) -> Option<FrameNo>
    requires { frames ≤ 512 }
    ensures value { result ≡ leaf_of_word frames word }
    ensures shown { IfSome result (λ leaf. shown_in frames word ≡ Some (Held (cap_of Link leaf 0))) }
    ensures below { IfSome result (λ leaf. leaf < frames) }
{
    let leaf = word / 64;
    if word % 64 == LINK && leaf < u64::from(frames) {
        Some(FrameNo::new(leaf as u16))
    } else {
        None
    }
}

// What a word shows on a machine of so many frames.
#[inline]
fn shown_in(frames: u16, word: u64) -> Option<Entry>
    ensures { result ≡ shown_in frames word }
{
    match Entry::unpack(word) {
        None => None,
        Some(entry) => within(frames, entry),
    }
}

// The entry, where it names no frame past the machine's.
#[inline]
fn within(frames: u16, entry: Entry) -> Option<Entry>
    ensures { result ≡ entry_within frames (Some entry) }
{
    match entry {
        Entry::Free => Some(Entry::Free),
        Entry::Held(cap) => held_if(is_within(frames, cap), cap),
        Entry::Closing { by } => Some(Entry::Closing { by }),
        Entry::Quiescing { stamp } => Some(Entry::Quiescing { stamp }),
    }
}

// The entry that holds a capability, where that names no frame past the machine's.
#[inline]
fn held_if(within: bool, cap: Cap) -> Option<Entry>
    ensures { result ≡ held_if within cap }
{
    if within { Some(Entry::Held(cap)) } else { None }
}

// Whether a capability names no frame past the machine's.
#[inline]
fn is_within(frames: u16, cap: Cap) -> bool
    ensures { result ≡ nat_le (end_of_frames cap.kind cap.frame cap.arg) frames }
{
    let first = u32::from(cap.frame().number());
    match cap.kind() {
        Kind::Range => first + cap.arg() <= u32::from(frames),
        _ => first + 1 <= u32::from(frames),
    }
}

// Whether a kind is that of a root's link to a leaf.
#[inline]
fn is_link(kind: Kind) -> bool
    ensures { result ≡ is_link kind }
{
    match kind {
        Kind::Link => true,
        _ => false,
    }
}

// What the word of a root entry leads to.
#[inline]
fn root_end(shown: &Option<Entry>) -> StageEnd<Found>
    ensures { result ≡ root_end shown.now }
{
    match shown {
        None => StageEnd::Refuse(Reply::Raced),
        Some(entry) => root_leads(entry),
    }
}

// What a root entry leads to.
#[inline]
fn root_leads(entry: &Entry) -> StageEnd<Found>
    ensures { result ≡ root_end (Some entry.now) }
{
    match entry {
        Entry::Free => StageEnd::Refuse(Reply::NoSlot),
        Entry::Held(cap) => {
            if is_link(cap.kind()) {
                StageEnd::Going
            } else {
                StageEnd::Refuse(Reply::NoSlot)
            }
        }
        Entry::Closing { by } => StageEnd::Refuse(Reply::Busy(*by)),
        Entry::Quiescing { stamp: _ } => StageEnd::Refuse(Reply::NoSlot),
    }
}

// Where a look-up stands after a root entry that shows this.
#[inline]
fn root_after(root: FrameNo, number: CapId, shown: &Option<Entry>) -> Look
    ensures { result ≡ root_after root number shown.now }
{
    match shown {
        None => Look::AtRoot { root, number },
        Some(entry) => after_entry(root, number, entry),
    }
}

// Where a look-up stands after this root entry.
#[inline]
fn after_entry(root: FrameNo, number: CapId, entry: &Entry) -> Look
    ensures { result ≡ root_after root number (Some entry.now) }
{
    match entry {
        Entry::Held(cap) => {
            if is_link(cap.kind()) {
                Look::AtLeaf {
                    leaf: cap.frame(),
                    number,
                }
            } else {
                Look::AtRoot { root, number }
            }
        }
        _ => Look::AtRoot { root, number },
    }
}

// What the word of the place that is looked for leads to.
#[inline]
fn place_end(node: FrameNo, entry: EntryNo, word: u64, shown: &Option<Entry>) -> StageEnd<Found>
    ensures { result ≡ place_end node entry word shown.now }
{
    match shown {
        None => StageEnd::Refuse(Reply::Raced),
        Some(value) => place_leads(node, entry, word, value),
    }
}

// What the place that is looked for leads to.
#[inline]
fn place_leads(node: FrameNo, entry: EntryNo, word: u64, value: &Entry) -> StageEnd<Found>
    ensures { result ≡ place_end node entry word (Some value.now) }
{
    match value {
        Entry::Closing { by } => StageEnd::Refuse(Reply::Busy(*by)),
        _ => StageEnd::Done(Found {
            node,
            entry,
            word,
            value: *value,
        }),
    }
}
