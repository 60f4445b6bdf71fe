//! Words of the table by name.

ghost use Rattle.std.specs.Prelude.{◌≡◌, ◌<◌, Some};
ghost use Rattle.entry_words.specs.EntryWord.{entry_of_word};
ghost use Rattle.table_lines.specs.kernel_rules.specs.Start.{place_with};
ghost use Rattle.table_report.specs.Shown.{place_shown, words_of};

use entry_words::Entry;
use machine_image::Image;
use spk_nums::{Cap, FrameNo};

/// A word of a frame's object. The frame is below the machine's frames, and the index below 64.
#[tactic(auto, using(crate::proofs::Nodes::node_word))]
pub fn entry_word(image: &Image<'_>, frame: FrameNo, index: u16) -> u64
    requires frame_in { frame < image.now.shape.frames }
    requires index_in { index < 64 }
    ensures { result ≡ words_of image.now.shape image.now.words frame index }
{
    image.node(frame).words()[index as usize]
}

// The capability that this entry holds.
fn cap_in(entry: &Entry) -> Option<Cap>
    ensures { place_with result ≡ place_shown (Some entry.now) }
{
    match entry {
        Entry::Held(cap) => Some(*cap),
        Entry::Free => None,
        Entry::Closing { by: _ } => None,
        Entry::Quiescing { stamp: _ } => None,
    }
}

/// The capability that an entry holds; none where the word is no entry.
pub fn held(word: u64) -> Option<Cap>
    ensures { place_with result ≡ place_shown (entry_of_word word) }
{
    match Entry::unpack(word) {
        Some(entry) => cap_in(&entry),
        None => None,
    }
}
