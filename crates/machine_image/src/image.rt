//! The image of a machine: its final words, read as what they say.

ghost use Rattle.std.specs.Prelude.{◌≡◌, ◌<◌, ◌≤◌, length, slice_get, Some};
ghost use Rattle.std.specs.Iterator.{YieldsFirst, item_count};
ghost use Rattle.entry_words.specs.EntryWord.{entry_of_word};
ghost use Rattle.frame_words.specs.Comp.{comp_of_word};
ghost use Rattle.frame_words.specs.Count.{count_of_word};
ghost use Rattle.frame_words.specs.Frame.{frame_of_word};
ghost use Rattle.frame_words.specs.Live.{live_of_word};
ghost use Rattle.tcap_words.specs.Head.{head_of_word};
ghost use Rattle.tcap_words.specs.Thread.{thread_of_word};
ghost use Rattle.word_map.specs.Word.{EntryAt, FrameAt, CountAt, LiveAt};
ghost use Rattle.word_map.specs.Places.{IsShape, size_of};
ghost use Rattle.machine_image.specs.Views.{ImageOf, IsImage, word_at, node_words, held_from, counts_from, stack_from, pairs_from, component_of, component_at};

use crate::nodes::{Caps, Maps, NodeView};
use crate::objects::{Qualities, Stack};
use crate::words::{count_word, entry_word, frame_word, live_word};
use frame_words::{CompWord, CountWord, FrameWord, LiveWord};
use spk_nums::{CoreEnd, CoreNo, EntryNo, FrameNo};
use std::marker::Model;
use tcap_words::{HeadWord, ThreadWord};
use word_map::{Closed, Layout};

/// What a machine leaves behind, borrowed: its words by their places, and where each core ended. Contracts see the layout, the
/// words and the ends.
#[derive(Drop)]
pub struct Image<'a> {
    layout: Layout,
    words: &'a [u64],
    ends: &'a [CoreEnd],
}

impl<'a> Model for Image<'a> {
    ghost use Rattle.machine_image.specs.Views.{ImageOf, IsImage};

    ghost Value = { ImageOf };

    ghost view = { λ i. record { shape = i.layout; words = i.words.now; ends = i.ends.now } };

    ghost invariant = { λ i. IsImage record { shape = i.layout; words = i.words.now; ends = i.ends.now } };
}

/// A component: the roots of its capability table and of its page table, its liveness number, and its epoch.
#[derive(Clone, Copy, PartialEq, Eq, Debug)]
pub struct Component {
    /// The frame of the root of its capability table.
    pub table: FrameNo,
    /// The frame of the root of its page table.
    pub pages: FrameNo,
    /// Its liveness number, below 64.
    pub number: u8,
    /// Its epoch, at least 1.
    pub epoch: u16,
}

impl<'a> Image<'a> {
    /// The image of these words and ends. There are as many words as the layout has places, and an end for each core.
    pub fn new(layout: Layout, words: &'a [u64], ends: &'a [CoreEnd]) -> Image<'a>
        requires size { length words.now ≡ size_of layout }
        requires cores { length ends.now ≡ layout.cores }
        ensures { result ≡ record { shape = layout; words = words.now; ends = ends.now } }
    {
        let _cores = layout.cores();
        Image {
            layout,
            words,
            ends,
        }
    }

    /// The number of cores, 1 to 8.
    pub fn cores(&self) -> u8
        ensures value { result ≡ self.now.shape.cores }
        ensures limits { IsShape self.now.shape }
    {
        self.layout.cores()
    }

    /// The number of frames, `4 + 2 * cores` to 512.
    pub fn frames(&self) -> u16
        ensures value { result ≡ self.now.shape.frames }
        ensures limits { IsShape self.now.shape }
    {
        self.layout.frames()
    }

    /// The 64 words of a frame, which is below the machine's frames.
    #[tactic(auto, unfolding(word_map::specs::Places::place_of, word_map::specs::Places::size_of))]
    pub fn node(&self, frame: FrameNo) -> NodeView<'a>
        requires { frame < self.now.shape.frames }
        ensures { result ≡ node_words self.now.words frame }
    {
        let start = self.layout.entry_at(frame, EntryNo::new(0)) as usize;
        let _last = self.layout.entry_at(frame, EntryNo::new(63));
        NodeView::new(&self.words[start..start + 64])
    }

    /// What a frame is; None where its word has no value. The frame is below the machine's frames.
    pub fn frame(&self, frame: FrameNo) -> Option<FrameWord>
        requires { frame < self.now.shape.frames }
        ensures { result ≡ frame_of_word (word_at self.now.shape self.now.words (FrameAt frame)) }
    {
        FrameWord::unpack(frame_word(&self.layout, self.words, frame))
    }

    /// The references to a frame that a core counts; None where its word has no value. The frame is below the machine's frames, and
    /// the core below its cores.
    pub fn count(&self, frame: FrameNo, core: CoreNo) -> Option<CountWord>
        requires frame_in { frame < self.now.shape.frames }
        requires core_in { core < self.now.shape.cores }
        ensures { result ≡ count_of_word (word_at self.now.shape self.now.words (CountAt frame core)) }
    {
        CountWord::unpack(count_word(&self.layout, self.words, frame, core))
    }

    /// The references to a frame that each core counts, core 0's first; a word that has no value is passed over. The frame is below
    /// the machine's frames.
    pub fn counts(&self, frame: FrameNo) -> Counts<'a>
        requires { frame < self.now.shape.frames }
        ensures { result ≡ counts_from self.now.shape self.now.words frame 0 }
    {
        Counts {
            layout: self.layout,
            words: self.words,
            frame,
            at: 0,
        }
    }

    /// The capabilities of the capability table whose root is in this frame, each with its number, ascending. A link to a frame past
    /// the machine's is passed over. The frame is below the machine's frames.
    pub fn caps(&self, table: FrameNo) -> Caps<'a>
        requires { table < self.now.shape.frames }
        ensures { result ≡ held_from self.now.shape self.now.words table 0 }
    {
        Caps::new(self.layout, self.words, table)
    }

    /// The mappings of the page table whose root is in this frame, each with its page, ascending. A link to a frame past the
    /// machine's is passed over. The frame is below the machine's frames.
    pub fn maps(&self, pages: FrameNo) -> Maps<'a>
        requires { pages < self.now.shape.frames }
        ensures { result ≡ held_from self.now.shape self.now.words pages 0 }
    {
        Maps::new(self.layout, self.words, pages)
    }

    /// The component in a frame; None where its words say none. The frame is below the machine's frames.
    pub fn component(&self, frame: FrameNo) -> Option<Component>
        requires { frame < self.now.shape.frames }
        ensures { result ≡ component_at self.now.shape self.now.words frame }
    {
        let table = entry_word(&self.layout, self.words, frame, 0);
        let pages = entry_word(&self.layout, self.words, frame, 1);
        said_component(
            table,
            pages,
            CompWord::unpack(entry_word(&self.layout, self.words, frame, 2)),
        )
    }

    /// Which core runs the thread in a frame, and how many components are on its stack; None where its word has no value. The frame
    /// is below the machine's frames.
    pub fn thread(&self, frame: FrameNo) -> Option<ThreadWord>
        requires { frame < self.now.shape.frames }
        ensures { result ≡ thread_of_word (word_at self.now.shape self.now.words (EntryAt frame 0)) }
    {
        ThreadWord::unpack(entry_word(&self.layout, self.words, frame, 0))
    }

    /// The frames of the components on the stack of the thread in a frame, the lowest first. The frame is below the machine's frames.
    pub fn stack(&self, frame: FrameNo) -> Stack<'a>
        requires { frame < self.now.shape.frames }
        ensures { result ≡ stack_from self.now.shape self.now.words frame 0 }
    {
        Stack::new(self.layout, self.words, frame)
    }

    /// The head of the temporal capability in a frame, with its budget in ticks; None where its word has no value. The frame is below
    /// the machine's frames.
    pub fn head(&self, frame: FrameNo) -> Option<HeadWord>
        requires { frame < self.now.shape.frames }
        ensures { result ≡ head_of_word (word_at self.now.shape self.now.words (EntryAt frame 0)) }
    {
        HeadWord::unpack(entry_word(&self.layout, self.words, frame, 0))
    }

    /// The pairs of scheduler and quality of the temporal capability in a frame, in the order of its list. The frame is below the
    /// machine's frames.
    pub fn qualities(&self, frame: FrameNo) -> Qualities<'a>
        requires { frame < self.now.shape.frames }
        ensures { result ≡ pairs_from self.now.shape self.now.words frame 0 }
    {
        Qualities::new(self.layout, self.words, frame)
    }

    /// What a liveness number stands for; None where its word has no value. The number is below 64.
    pub fn liveness(&self, number: u8) -> Option<LiveWord>
        requires { number < 64 }
        ensures { result ≡ live_of_word (word_at self.now.shape self.now.words (LiveAt number)) }
    {
        LiveWord::unpack(live_word(&self.layout, self.words, number))
    }

    /// Where each core ended, core 0's end first.
    pub fn ends(&self) -> &'a [CoreEnd]
        ensures value { result.now ≡ self.now.ends }
        ensures size { length self.now.ends ≡ self.now.shape.cores }
    {
        self.ends
    }

    /// Where a core ended: its thread, its temporal capability, its component, what it has spent and owes, and its translations. The
    /// core is below the machine's cores.
    pub fn core(&self, core: CoreNo) -> &'a CoreEnd
        requires { core < self.now.shape.cores }
        ensures { slice_get self.now.ends core ≡ Some result.now }
    {
        &self.ends[core.number() as usize]
    }
}

// The component that two frame numbers and a third word say.
fn said_component(table: u64, pages: u64, word: Option<CompWord>) -> Option<Component>
    ensures { result ≡ component_of table pages word }
{
    match word {
        None => None,
        Some(word) => {
            if table < 512 && pages < 512 {
                Some(Component {
                    table: FrameNo::new(table as u16),
                    pages: FrameNo::new(pages as u16),
                    number: word.number,
                    epoch: word.epoch,
                })
            } else {
                None
            }
        }
    }
}

/// The values of a frame's count words, core 0's first. Contracts see the list of those that are left.
#[derive(Drop)]
pub struct Counts<'a> {
    layout: Layout,
    words: &'a [u64],
    frame: FrameNo,
    at: u8,
}

impl<'a> Model for Counts<'a> {
    ghost use Rattle.std.specs.Prelude.{◌≡◌, ◌<◌, ◌≤◌, List, length};
    ghost use Rattle.frame_words.specs.declared.count_word.CountWord.{CountWord};
    ghost use Rattle.word_map.specs.Places.{size_of};
    ghost use Rattle.machine_image.specs.Views.{counts_from};

    ghost Value = { List CountWord };

    ghost view = { λ c. counts_from c.layout c.words.now c.frame c.at };

    ghost invariant = { λ c. (length c.words.now ≡ size_of c.layout) × (c.frame < c.layout.frames) × (c.at ≤ c.layout.cores) };
}

impl<'a> Counts<'a> {
    // The next count.
    fn step(&mut self) -> Option<CountWord>
        ensures { YieldsFirst (λ l. l) self.old result self.new }
    {
        'cores: while self.at < self.layout.cores() {
            let core = self.at;
            self.at += 1;
            match CountWord::unpack(count_word(
                &self.layout,
                self.words,
                self.frame,
                CoreNo::new(core),
            )) {
                Some(count) => return Some(count),
                None => {}
            }
        }
        None
    }
}

impl<'a> Iterator for Counts<'a> {
    type Item = CountWord;

    ghost next_gives = { YieldsFirst (λ c. c) };

    ghost remaining = { item_count (λ c. c) };

    fn next(&mut self) -> Option<CountWord> {
        self.step()
    }
}

/// The image of what a machine has left.
pub fn image_of(closed: &Closed) -> Image<'_>
    requires words { length closed.now.words.items ≡ size_of closed.now.layout }
    requires ends { length closed.now.ends.items ≡ closed.now.layout.cores }
    ensures { result ≡ record { shape = closed.now.layout; words = closed.now.words.items; ends = closed.now.ends.items } }
{
    Image::new(closed.layout, &closed.words, &closed.ends)
}
