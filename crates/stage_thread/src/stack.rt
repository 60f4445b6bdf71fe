//! Pushing a component onto the stack of the thread that a core runs, and popping one.
//!
//! The words of a running thread are changed by its core alone, so each step is a plain store. A push stores the
//! component before the depth, and a pop the depth before it clears the component: at each moment the places up to the
//! depth hold components.

ghost use Rattle.std.specs.Prelude.{◌≡◌, ◌<◌, ◌≤◌};
ghost use Rattle.word_map.specs.spk_nums.specs.WordSteps.{place_in};
ghost use Rattle.tcap_words.specs.Thread.{DepthFits, word_of_thread};
ghost use Rattle.tcap_words.specs.declared.thread_word.ThreadWord.TheVariants.{Running};
ghost use Rattle.word_map.specs.Places.{size_of};
ghost use Rattle.word_map.specs.Moves.{op_of};
ghost use Rattle.stage_thread.specs.Stacking.{PushFits, push_move, push_end, push_after, PopFits, pop_move, pop_end, pop_after};

use tcap_words::{StackWord, ThreadWord};
use word_map::Layout;
use word_map::spk_nums::{CoreNo, EntryNo, FrameNo, StageEnd, WordOp};

/// The push of a component onto the stack of a running thread, between two of its steps.
#[derive(Clone, Copy, PartialEq, Eq, Debug)]
pub enum Push {
    /// Before the store of the component above the top, which stands at this depth.
    AtStack {
        thread: FrameNo,
        core: CoreNo,
        depth: u8,
        comp: FrameNo,
    },
    /// Before the store of the thread's word with the depth raised by 1.
    AtThread {
        thread: FrameNo,
        core: CoreNo,
        depth: u8,
    },
}

impl Push {
    /// The push of a component onto the stack of a thread that a core runs. The depth before it is from 1 to 15.
    #[inline]
    pub fn new(thread: FrameNo, core: CoreNo, depth: u8, comp: FrameNo) -> Push
        ensures { result ≡ Push.AtStack thread core depth comp }
    {
        Push::AtStack {
            thread,
            core,
            depth,
            comp,
        }
    }

    /// The next step, a store. The thread is below the layout's frames, and the depth from 1 to 15.
    #[inline]
    pub fn next(&self, layout: &Layout) -> WordOp
        requires { PushFits layout.now self.now }
        ensures step { result ≡ op_of layout.now (push_move self.now) }
        ensures below { place_in result < size_of layout.now }
    {
        match *self {
            Push::AtStack {
                thread,
                core: _,
                depth,
                comp,
            } => WordOp::Store {
                at: layout.entry_at(thread, EntryNo::new(u16::from(depth) + 1)),
                word: StackWord(Some(comp)).pack(),
            },
            Push::AtThread {
                thread,
                core,
                depth,
            } => WordOp::Store {
                at: layout.entry_at(thread, EntryNo::new(0)),
                word: running_word(core, depth + 1),
            },
        }
    }

    /// Takes the step, a store, whatever is found; the second one is done.
    #[inline]
    pub fn take(&mut self, layout: &Layout, _found: u64) -> StageEnd<()>
        requires { PushFits layout.now self.old }
        ensures end { result ≡ push_end self.old }
        ensures after { self.new ≡ push_after self.old }
        ensures fits { PushFits layout.now self.new }
    {
        let end = self.end();
        *self = self.after();
        end
    }

    // What the step leads to.
    #[inline]
    fn end(&self) -> StageEnd<()>
        ensures { result ≡ push_end self.now }
    {
        match *self {
            Push::AtStack {
                thread: _,
                core: _,
                depth: _,
                comp: _,
            } => StageEnd::Going,
            Push::AtThread {
                thread: _,
                core: _,
                depth: _,
            } => StageEnd::Done(()),
        }
    }

    // Where the push stands after it.
    #[inline]
    fn after(&self) -> Push
        ensures { result ≡ push_after self.now }
    {
        match *self {
            Push::AtStack {
                thread,
                core,
                depth,
                comp: _,
            } => Push::AtThread {
                thread,
                core,
                depth,
            },
            Push::AtThread {
                thread,
                core,
                depth,
            } => Push::AtThread {
                thread,
                core,
                depth,
            },
        }
    }
}

/// The pop of the top component of a running thread, between two of its steps.
#[derive(Clone, Copy, PartialEq, Eq, Debug)]
pub enum Pop {
    /// Before the store of the thread's word with this depth lowered by 1.
    AtThread {
        thread: FrameNo,
        core: CoreNo,
        depth: u8,
    },
    /// Before the store that clears what was the top, at this depth.
    AtStack {
        thread: FrameNo,
        depth: u8,
    },
}

impl Pop {
    /// The pop of the top component of a thread that a core runs. The depth before it is from 2 to 16.
    #[inline]
    pub fn new(thread: FrameNo, core: CoreNo, depth: u8) -> Pop
        ensures { result ≡ Pop.AtThread thread core depth }
    {
        Pop::AtThread {
            thread,
            core,
            depth,
        }
    }

    /// The next step, a store. The thread is below the layout's frames, and the depth from 2 to 16.
    #[inline]
    pub fn next(&self, layout: &Layout) -> WordOp
        requires { PopFits layout.now self.now }
        ensures step { result ≡ op_of layout.now (pop_move self.now) }
        ensures below { place_in result < size_of layout.now }
    {
        match *self {
            Pop::AtThread {
                thread,
                core,
                depth,
            } => WordOp::Store {
                at: layout.entry_at(thread, EntryNo::new(0)),
                word: running_word(core, depth - 1),
            },
            Pop::AtStack { thread, depth } => WordOp::Store {
                at: layout.entry_at(thread, EntryNo::new(u16::from(depth))),
                word: StackWord(None).pack(),
            },
        }
    }

    /// Takes the step, a store, whatever is found; the second one is done.
    #[inline]
    pub fn take(&mut self, layout: &Layout, _found: u64) -> StageEnd<()>
        requires { PopFits layout.now self.old }
        ensures end { result ≡ pop_end self.old }
        ensures after { self.new ≡ pop_after self.old }
        ensures fits { PopFits layout.now self.new }
    {
        let end = self.end();
        *self = self.after();
        end
    }

    // What the step leads to.
    #[inline]
    fn end(&self) -> StageEnd<()>
        ensures { result ≡ pop_end self.now }
    {
        match *self {
            Pop::AtThread {
                thread: _,
                core: _,
                depth: _,
            } => StageEnd::Going,
            Pop::AtStack {
                thread: _,
                depth: _,
            } => StageEnd::Done(()),
        }
    }

    // Where the pop stands after it.
    #[inline]
    fn after(&self) -> Pop
        ensures { result ≡ pop_after self.now }
    {
        match *self {
            Pop::AtThread {
                thread,
                core: _,
                depth,
            } => Pop::AtStack { thread, depth },
            Pop::AtStack { thread, depth } => Pop::AtStack { thread, depth },
        }
    }
}

// The word of a thread that a core runs at this depth.
#[inline]
fn running_word(core: CoreNo, depth: u8) -> u64
    requires { DepthFits depth }
    ensures { result ≡ word_of_thread (Running core depth) }
{
    let word = ThreadWord::Running { core, depth };
    word.pack()
}
