//! Where each word of the table stands.
//!
//! The table begins with the 64 words of each frame, frame 0 first, and a word for each frame. Behind them stand the words of each
//! core, core 0's first: its count of each frame, its core word and its flush word. So what a core alone changes lies together.
//! Last come 64 liveness words and the clock.
#![tactic(auto, using(crate::proofs::PlaceLemmas::row_ends, crate::proofs::PlaceLemmas::rows_end), unfolding(crate::specs::Places::place_of, crate::specs::Places::size_of))]

ghost use Rattle.std.specs.Prelude.{◌≡◌, ◌+◌, ◌≤◌, ◌<◌, ◌↔◌, true};
ghost use Rattle.std.specs.Option.{SomeIff};
ghost use Rattle.word_map.specs.Word.{Word, same_word, EntryAt, FrameAt, CountAt, CoreAt, FlushAt, LiveAt, ClockAt};
ghost use Rattle.word_map.specs.Places.{Shape, IsShape, IsIn, HasPlaces, core_words, core_begins, place_of, size_of};

use spk_nums::{CoreNo, EntryNo, FrameNo};
use std::marker::Model;

/// The places of the words of a machine of some cores and frames.
#[derive(Clone, Copy, PartialEq, Eq, Debug)]
pub struct Layout {
    cores: u8,
    frames: u16,
}

impl Model for Layout {
    ghost use Rattle.word_map.specs.Places.{Shape, IsShape};

    ghost Value = { Shape };

    ghost view = { λ l. record { cores = l.cores; frames = l.frames } };

    ghost invariant = { λ l. IsShape record { cores = l.cores; frames = l.frames } };

    ghost inverse = { λ s. record { cores = s.cores; frames = s.frames } };
}

impl Layout {
    /// The layout of a machine: None exactly outside 1 to 8 cores and `4 + 2 * cores` to 512 frames.
    pub fn new(cores: u8, frames: u16) -> Option<Layout>
        ensures { let shape : Shape = record { cores = cores; frames = frames } in SomeIff result (IsShape shape) shape }
    {
        if 1 <= cores && cores <= 8 && 4 + 2 * u16::from(cores) <= frames && frames <= 512 {
            Some(Layout { cores, frames })
        } else {
            None
        }
    }

    /// The number of cores, 1 to 8.
    #[inline]
    pub fn cores(&self) -> u8
        ensures value { result ≡ self.now.cores }
        ensures limits { IsShape self.now }
    {
        self.cores
    }

    /// The number of frames, `4 + 2 * cores` to 512.
    #[inline]
    pub fn frames(&self) -> u16
        ensures value { result ≡ self.now.frames }
        ensures limits { IsShape self.now }
    {
        self.frames
    }

    /// The place of an entry of a node, or of a word of another object, by its frame. The frame is below the
    /// machine's frames, and the entry below 64.
    #[inline]
    pub fn entry_at(&self, frame: FrameNo, entry: EntryNo) -> u32
        requires { IsIn self.now (EntryAt frame entry) }
        ensures place { result ≡ place_of self.now (EntryAt frame entry) }
        ensures below { result < size_of self.now }
    {
        64 * u32::from(frame.number()) + u32::from(entry.number())
    }

    /// The place of the word that says what a frame is. The frame is below the machine's frames.
    #[inline]
    pub fn frame_at(&self, frame: FrameNo) -> u32
        requires { IsIn self.now (FrameAt frame) }
        ensures place { result ≡ place_of self.now (FrameAt frame) }
        ensures below { result < size_of self.now }
    {
        64 * u32::from(self.frames) + u32::from(frame.number())
    }

    /// The place of a core's count of the references to a frame. The frame is below the machine's frames, and the core
    /// below its cores.
    #[inline]
    pub fn count_at(&self, frame: FrameNo, core: CoreNo) -> u32
        requires { IsIn self.now (CountAt frame core) }
        ensures place { result ≡ place_of self.now (CountAt frame core) }
        ensures below { result < size_of self.now }
    {
        self.core_begins(core) + u32::from(frame.number())
    }

    /// The place of the word that says whether a core is inside a call. The core is below the machine's cores.
    #[inline]
    pub fn core_at(&self, core: CoreNo) -> u32
        requires { IsIn self.now (CoreAt core) }
        ensures place { result ≡ place_of self.now (CoreAt core) }
        ensures below { result < size_of self.now }
    {
        self.core_begins(core) + u32::from(self.frames())
    }

    /// The place of a core's flush word. The core is below the machine's cores.
    #[inline]
    pub fn flush_at(&self, core: CoreNo) -> u32
        requires { IsIn self.now (FlushAt core) }
        ensures place { result ≡ place_of self.now (FlushAt core) }
        ensures below { result < size_of self.now }
    {
        self.core_begins(core) + u32::from(self.frames) + 1
    }

    /// The place of the word of a liveness number, which is below 64.
    #[inline]
    pub fn live_at(&self, number: u8) -> u32
        requires { IsIn self.now (LiveAt number) }
        ensures place { result ≡ place_of self.now (LiveAt number) }
        ensures below { result < size_of self.now }
    {
        self.lives_begin() + u32::from(number)
    }

    /// The place of the clock.
    #[inline]
    pub fn clock_at(&self) -> u32
        ensures place { result ≡ place_of self.now ClockAt }
        ensures below { result < size_of self.now }
    {
        self.lives_begin() + 64
    }

    /// How many words the table has: 37,457 at most.
    #[inline]
    pub fn size(&self) -> u32
        ensures value { result ≡ size_of self.now }
        ensures most { result ≤ 37457 }
    {
        self.lives_begin() + 65
    }

    /// The first place of a core's words. The core is below the machine's cores.
    #[inline]
    fn core_begins(&self, core: CoreNo) -> u32
        requires { core < self.now.cores }
        ensures place { result ≡ core_begins self.now core }
        ensures below { result + core_words self.now ≤ core_begins self.now self.now.cores }
        ensures most { result ≤ 37392 }
    {
        65 * u32::from(self.frames) + (u32::from(self.frames) + 2) * u32::from(core.number())
    }

    /// The first place after the cores' words.
    #[inline]
    fn lives_begin(&self) -> u32
        ensures place { result ≡ core_begins self.now self.now.cores }
        ensures most { result ≤ 37392 }
    {
        65 * u32::from(self.frames) + (u32::from(self.frames) + 2) * u32::from(self.cores)
    }
}

/// Distinct words of a machine have distinct places, all in the table.
pub fn places_are_distinct()
    ensures { (s : Shape) → IsShape s → HasPlaces s }
{}

/// The test of two words' names finds them one exactly where they are.
pub fn names_are_told_apart()
    ensures { (w u : Word) → (same_word w u ≡ true) ↔ (w ≡ u) }
{}
