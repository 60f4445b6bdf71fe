//! Claiming a thread.
//!
//! **Why a thread is claimed.** A thread runs on one core at most. A core that switches to a thread claims it before it
//! decides: the thread's word is loaded, and a compare puts the claimed word in the place of the idle one. No other core
//! changes the words of a thread that is claimed, so the top of its stack, loaded then, is what the core goes on in.
//!
//! **When it is refused.** A thread that runs is running, on the caller's core too; one that a core has claimed is busy;
//! the compare is lost where another core has changed the word in between.

ghost use Rattle.std.specs.Prelude.{◌≡◌, ◌<◌, ◌==◌, nat_lt, Some};
ghost use Rattle.word_map.specs.spk_nums.specs.WordSteps.{place_in};
ghost use Rattle.tcap_words.specs.Thread.{DepthFits, word_of_thread};
ghost use Rattle.tcap_words.specs.declared.thread_word.ThreadWord.TheVariants as state;
ghost use Rattle.word_map.specs.Places.{size_of};
ghost use Rattle.word_map.specs.Moves.{op_of};
ghost use Rattle.stage_thread.specs.Claiming.{ClaimPacks, ClaimFits, claim_move, thread_end, claim_compared, claimed_at, claimed_within};
ghost use Rattle.stage_thread.specs.Claiming.{top_end, stack_end, claim_end, thread_after, compared_after, claim_after, EndFits};

use tcap_words::{StackWord, ThreadWord};
use word_map::Layout;
use word_map::spk_nums::{CoreNo, EntryNo, FrameNo, Reply, StageEnd, WordOp};

/// The claim of a thread, between two of its steps.
#[derive(Clone, Copy, PartialEq, Eq, Debug)]
pub enum Claim {
    /// Before the load of the thread's word.
    AtLoad {
        thread: FrameNo,
        core: CoreNo,
    },
    /// Before the compare of the thread's word, which was found idle at this depth.
    AtCompare {
        thread: FrameNo,
        core: CoreNo,
        depth: u8,
    },
    /// Before the load of the top of its stack: the thread is claimed.
    AtStack {
        thread: FrameNo,
        depth: u8,
    },
}

/// A thread that a core has claimed.
#[derive(Clone, Copy, PartialEq, Eq, Debug)]
pub struct Claimed {
    /// The thread's frame.
    pub thread: FrameNo,
    /// How many components its stack has, 1 to 16.
    pub depth: u8,
    /// The frame of the component at the top.
    pub comp: FrameNo,
}

impl Claim {
    /// The claim of a thread by a core.
    #[inline]
    pub fn new(thread: FrameNo, core: CoreNo) -> Claim
        ensures { result ≡ Claim.AtLoad thread core }
    {
        Claim::AtLoad { thread, core }
    }

    /// The next step. The thread is below the layout's frames.
    #[inline]
    pub fn next(&self, layout: &Layout) -> WordOp
        requires { ClaimFits layout.now self.now }
        ensures step { result ≡ op_of layout.now (claim_move self.now) }
        ensures below { place_in result < size_of layout.now }
    {
        match *self {
            Claim::AtLoad { thread, core: _ } => WordOp::Load {
                at: layout.entry_at(thread, EntryNo::new(0)),
            },
            Claim::AtCompare {
                thread,
                core,
                depth,
            } => WordOp::Compare {
                at: layout.entry_at(thread, EntryNo::new(0)),
                expected: idle_word(depth),
                word: claimed_word(core, depth),
            },
            Claim::AtStack { thread, depth } => WordOp::Load {
                at: layout.entry_at(thread, EntryNo::new(u16::from(depth))),
            },
        }
    }

    /// Takes the word that the step found. The load is refused with `running` where the thread runs, and with `busy`
    /// where a core has claimed it; a lost compare with `raced`, and so is a word that is none of its place, or a top
    /// that is no frame of the machine. The last step is else done with the claimed thread. The thread is below the
    /// layout's frames, and stays so.
    #[inline]
    pub fn take(&mut self, layout: &Layout, found: u64) -> StageEnd<Claimed>
        requires { ClaimFits layout.now self.old }
        ensures end { result ≡ claim_end layout.now.frames self.old found }
        ensures after { self.new ≡ claim_after self.old found }
        ensures fits { ClaimFits layout.now self.new }
        ensures found { EndFits layout.now result }
    {
        let took = self.took(layout.frames(), found);
        *self = took.0;
        took.1
    }

    // Where the claim stands after a step that finds this word, and what the step leads to.
    #[inline]
    fn took(self, frames: u16, found: u64) -> (Claim, StageEnd<Claimed>)
        requires { ClaimPacks self }
        ensures after { result.0 ≡ claim_after self found }
        ensures end { result.1 ≡ claim_end frames self found }
    {
        match self {
            Claim::AtLoad { thread, core } => {
                let shown = ThreadWord::unpack(found);
                (thread_after(thread, core, &shown), thread_end(&shown))
            }
            Claim::AtCompare {
                thread,
                core,
                depth,
            } => {
                let same = found == idle_word(depth);
                (compared_after(same, thread, core, depth), compared(same))
            }
            Claim::AtStack { thread, depth } => {
                let shown = StackWord::unpack(found);
                let end = stack_end(frames, thread, depth, &shown);
                (Claim::AtStack { thread, depth }, end)
            }
        }
    }
}

// The word of an idle thread at this depth.
#[inline]
fn idle_word(depth: u8) -> u64
    requires { DepthFits depth }
    ensures { result ≡ word_of_thread (state.Idle depth) }
{
    let word = ThreadWord::Idle { depth };
    word.pack()
}

// The word of a thread at this depth that a core has claimed.
#[inline]
fn claimed_word(core: CoreNo, depth: u8) -> u64
    requires { DepthFits depth }
    ensures { result ≡ word_of_thread (state.Claimed core depth) }
{
    let word = ThreadWord::Claimed { core, depth };
    word.pack()
}

// A thread that runs, or that a core has claimed, is refused.
#[inline]
fn thread_end(shown: &Option<ThreadWord>) -> StageEnd<Claimed>
    ensures { result ≡ thread_end shown.now }
{
    match shown {
        None => StageEnd::Refuse(Reply::Raced),
        Some(word) => one_thread_end(word),
    }
}

// What this thread's word leads to.
#[inline]
fn one_thread_end(word: &ThreadWord) -> StageEnd<Claimed>
    ensures { result ≡ thread_end (Some word.now) }
{
    match word {
        ThreadWord::Idle { depth: _ } => StageEnd::Going,
        ThreadWord::Running { core, depth: _ } => StageEnd::Refuse(Reply::Running(*core)),
        ThreadWord::Claimed { core, depth: _ } => StageEnd::Refuse(Reply::Busy(*core)),
    }
}

// Where the claim stands after a load of this thread's word.
#[inline]
fn thread_after(thread: FrameNo, core: CoreNo, shown: &Option<ThreadWord>) -> Claim
    ensures { result ≡ thread_after thread core shown.now }
{
    match shown {
        None => Claim::AtLoad { thread, core },
        Some(word) => one_thread_after(thread, core, word),
    }
}

// Where the claim stands after a load of this word.
#[inline]
fn one_thread_after(thread: FrameNo, core: CoreNo, word: &ThreadWord) -> Claim
    ensures { result ≡ thread_after thread core (Some word.now) }
{
    match word {
        ThreadWord::Idle { depth } => Claim::AtCompare {
            thread,
            core,
            depth: *depth,
        },
        _ => Claim::AtLoad { thread, core },
    }
}

// Where the claim stands after the compare, which did or did not find the idle thread.
#[inline]
fn compared_after(same: bool, thread: FrameNo, core: CoreNo, depth: u8) -> Claim
    ensures { result ≡ compared_after same thread core depth }
{
    if same {
        Claim::AtStack { thread, depth }
    } else {
        Claim::AtCompare {
            thread,
            core,
            depth,
        }
    }
}

// What the compare leads to, where it did or did not find the idle thread.
#[inline]
fn compared(same: bool) -> StageEnd<Claimed>
    ensures { result ≡ claim_compared same }
{
    if same {
        StageEnd::Going
    } else {
        StageEnd::Refuse(Reply::Raced)
    }
}

// What the top of the stack leads to.
#[inline]
fn stack_end(
    frames: u16,
    thread: FrameNo,
    depth: u8,
    shown: &Option<StackWord>,
) -> StageEnd<Claimed>
    ensures { result ≡ stack_end frames thread depth shown.now }
{
    match shown {
        None => StageEnd::Refuse(Reply::Raced),
        Some(word) => top_end(frames, thread, depth, word.0),
    }
}

// The top component is a frame of the machine.
#[inline]
fn top_end(frames: u16, thread: FrameNo, depth: u8, comp: Option<FrameNo>) -> StageEnd<Claimed>
    ensures { result ≡ top_end frames thread depth comp }
{
    match comp {
        None => StageEnd::Refuse(Reply::Raced),
        Some(comp) => {
            if comp.number() < frames {
                StageEnd::Done(Claimed {
                    thread,
                    depth,
                    comp,
                })
            } else {
                StageEnd::Refuse(Reply::Raced)
            }
        }
    }
}
