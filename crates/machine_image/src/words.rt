//! Words of the table by name.

ghost use Rattle.std.specs.Prelude.{◌≡◌, ◌<◌, length, Some};
ghost use Rattle.entry_words.specs.EntryWord.{entry_of_word};
ghost use Rattle.word_map.specs.Word.{Word, EntryAt, FrameAt, CountAt, LiveAt};
ghost use Rattle.word_map.specs.Places.{Shape, size_of};
ghost use Rattle.machine_image.specs.Views.{word_at, held_by, held_at};

use entry_words::Entry;
use spk_nums::{Cap, CoreNo, EntryNo, FrameNo};
use word_map::Layout;

/// A word of a frame. The frame is below the machine's frames, and the index below 64.
pub fn entry_word(layout: &Layout, words: &[u64], frame: FrameNo, index: u16) -> u64
    requires size { length words.now ≡ size_of layout.now }
    requires frame_in { frame < layout.now.frames }
    requires index_in { index < 64 }
    ensures { result ≡ word_at layout.now words.now (EntryAt frame index) }
{
    words[layout.entry_at(frame, EntryNo::new(index)) as usize]
}

/// The word that says what a frame is. The frame is below the machine's frames.
pub fn frame_word(layout: &Layout, words: &[u64], frame: FrameNo) -> u64
    requires size { length words.now ≡ size_of layout.now }
    requires frame_in { frame < layout.now.frames }
    ensures { result ≡ word_at layout.now words.now (FrameAt frame) }
{
    words[layout.frame_at(frame) as usize]
}

/// The word that counts the references of a core to a frame. The frame is below the machine's frames, and the core below its cores.
pub fn count_word(layout: &Layout, words: &[u64], frame: FrameNo, core: CoreNo) -> u64
    requires size { length words.now ≡ size_of layout.now }
    requires frame_in { frame < layout.now.frames }
    requires core_in { core < layout.now.cores }
    ensures { result ≡ word_at layout.now words.now (CountAt frame core) }
{
    words[layout.count_at(frame, core) as usize]
}

/// The word of a liveness number, which is below 64.
pub fn live_word(layout: &Layout, words: &[u64], number: u8) -> u64
    requires size { length words.now ≡ size_of layout.now }
    requires number_in { number < 64 }
    ensures { result ≡ word_at layout.now words.now (LiveAt number) }
{
    words[layout.live_at(number) as usize]
}

/// The capability that this entry holds.
pub fn cap_in(entry: &Entry) -> Option<Cap>
    ensures { result ≡ held_by (Some entry.now) }
{
    match entry {
        Entry::Held(cap) => Some(*cap),
        Entry::Free => None,
        Entry::Closing { by: _ } => None,
        Entry::Quiescing { stamp: _ } => None,
    }
}

/// The capability that an entry of a node holds. The frame is below the machine's frames, and the index below 64.
pub fn held(layout: &Layout, words: &[u64], frame: FrameNo, index: u16) -> Option<Cap>
    requires size { length words.now ≡ size_of layout.now }
    requires frame_in { frame < layout.now.frames }
    requires index_in { index < 64 }
    ensures { result ≡ held_at layout.now words.now frame index }
{
    match Entry::unpack(entry_word(layout, words, frame, index)) {
        None => None,
        Some(entry) => cap_in(&entry),
    }
}
