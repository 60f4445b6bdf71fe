//! The name of each word, by its place.
//!
//! The frames' words stand first, 64 a frame, then a word for each frame, then the rows of the cores, one after another, and last the
//! liveness words and the clock. So a place is cut off from the front, part by part.

ghost use Rattle.std.specs.Prelude.{◌≡◌, ◌<◌, ◌+◌, ◌*◌};
ghost use Rattle.kernel_history.specs.word_map.specs.Word.{Word, CountAt, CoreAt, FlushAt};
ghost use Rattle.kernel_history.specs.word_map.specs.Places.{IsIn, place_of, size_of, core_words, core_begins};
ghost use Rattle.step_views.specs.Names.{named, IsNamed};

use kernel_history::spk_nums::{CoreNo, EntryNo, FrameNo};
use kernel_history::word_map::Layout;

/// A word of the shared table, by its name.
#[derive(Clone, Copy, PartialEq, Eq, Debug)]
pub enum WordName {
    /// One of the 64 words of a frame: an entry of a node, or a word of the component, thread or temporal capability there.
    Entry { frame: FrameNo, entry: EntryNo },
    /// What a frame is.
    Frame { frame: FrameNo },
    /// The references to a frame that a core counts.
    Count { frame: FrameNo, core: CoreNo },
    /// Whether a core is inside a call, and the stamp of its last exit.
    Core { core: CoreNo },
    /// A core's last flush.
    Flush { core: CoreNo },
    /// A liveness number, 0 to 63.
    Live { number: u8 },
    /// The clock.
    Clock,
}

// The name of a word of a core, by its place among the words of its row. The core is one of the machine's.
#[inline]
fn in_row(layout: &Layout, core: CoreNo, place: u32) -> WordName
    requires core { core < layout.now.cores }
    requires place { place < core_words layout.now }
    ensures { IsNamed layout.now result (core_begins layout.now core + place) }
{
    let frames = u32::from(layout.frames());
    if place < frames {
        return WordName::Count {
            frame: FrameNo::new(place as u16),
            core,
        };
    }
    if place == frames {
        WordName::Core { core }
    } else {
        WordName::Flush { core }
    }
}

// The name of a word after those of the frames, by its place among these.
#[inline]
fn after_frames(layout: &Layout, place: u32) -> WordName
    requires { 65 * layout.now.frames + place < size_of layout.now }
    ensures { IsNamed layout.now result (65 * layout.now.frames + place) }
{
    let row = u32::from(layout.frames()) + 2;
    let cores = u32::from(layout.cores());
    let core = place / row;
    if core < cores {
        return in_row(layout, CoreNo::new(core as u8), place % row);
    }
    let number = place - row * cores;
    if number < 64 {
        WordName::Live {
            number: number as u8,
        }
    } else {
        WordName::Clock
    }
}

// The name of the word at a place.
#[inline]
fn found_at(layout: &Layout, place: u32) -> WordName
    requires { place < size_of layout.now }
    ensures { IsNamed layout.now result place }
{
    let frames = u32::from(layout.frames());
    if place < 64 * frames {
        return WordName::Entry {
            frame: FrameNo::new((place / 64) as u16),
            entry: EntryNo::new((place % 64) as u16),
        };
    }
    if place < 65 * frames {
        return WordName::Frame {
            frame: FrameNo::new((place - 64 * frames) as u16),
        };
    }
    after_frames(layout, place - 65 * frames)
}

/// The name of the word at a place of the table.
pub fn name_at(layout: &Layout, place: u32) -> WordName
    requires { place < size_of layout.now }
    ensures named { IsNamed layout.now result place }
    ensures only { (w : Word) → IsIn layout.now w → place_of layout.now w ≡ place → named result ≡ w }
{
    let _frames = layout.frames();
    found_at(layout, place)
}
