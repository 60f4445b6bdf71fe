//! What a refusal leaves: nothing to store, or what its act has marked.
//!
//! **Before the mark.** Most acts mark nothing before they are decided, and a refused call has then nothing to store.
//!
//! **After it.** A call that is refused after its act has marked a word, while it acquires a count or later, stores that word as it was
//! found: that of a frame, with its frozen counters, that of a liveness number, that of a thread.

ghost use Rattle.act_states.specs.Acts.{undo};
ghost use Rattle.act_states.specs.Comps.{comp_undo};
ghost use Rattle.act_states.specs.Makings.{undo_at};
ghost use Rattle.act_states.specs.Switches.{claim_undo, gives_back, switching_undo};
ghost use Rattle.act_states.specs.Untypings.{release_of, untyping_undo};
ghost use Rattle.act_states.specs.WorkSteps.{refuse};
ghost use Rattle.std.specs.Prelude.{◌≡◌};

use act_states::stage_sweep::{Swept, Thaw};
use act_states::stage_thread::{Claim, Claimed};
use act_states::{
    Act, CompAt, CompMaking, Making, MakingAt, Refusal, Release, SwitchAt, Switching, Tail,
    Untyping, UntypingAt, WorkStep,
};
use spk_nums::FrameNo;

/// The call is refused, with nothing to store.
#[inline]
pub fn refuse(refusal: Refusal) -> WorkStep
    ensures { result ≡ refuse refusal }
{
    WorkStep::Refuses {
        refusal,
        tail: Tail::Nothing,
    }
}

/// What a refused call has still to store where it acquires a count for an act.
#[inline]
pub fn undo(act: &Act) -> Tail
    ensures { result ≡ undo act.now }
{
    match act {
        Act::Make { making } => making_undo(making),
        Act::Untype { untyping } => untyping_undo(untyping),
        Act::MakeComp { making } => comp_undo(making),
        Act::Switch { switching } => switching_undo(switching),
        _ => Tail::Nothing,
    }
}

// What a refused call has still to store: the frame's word as it was found, where the frame is marked.
#[inline]
fn making_undo(making: &Making) -> Tail
    ensures { result ≡ undo_at making.now.frame making.now.at }
{
    match making.at {
        MakingAt::Load => Tail::Nothing,
        MakingAt::Mark { word: _ } => Tail::Nothing,
        MakingAt::Store { word, entry: _ } => Tail::Unmark {
            frame: making.frame,
            word,
        },
        MakingAt::Fill { word } => Tail::Unmark {
            frame: making.frame,
            word,
        },
    }
}

// What a refused call has still to store: the words as they were found of the number and of the frame, each where it is marked.
#[inline]
fn comp_undo(making: &CompMaking) -> Tail
    ensures { result ≡ comp_undo making.now making.now.at }
{
    match making.at {
        CompAt::Load => Tail::Nothing,
        CompAt::Mark { word: _ } => Tail::Nothing,
        CompAt::LoadLive { word } => unmark(making, word),
        CompAt::Scan {
            word,
            last: _,
            quiet: _,
        } => unmark(making, word),
        CompAt::Close { word, last: _ } => unmark(making, word),
        CompAt::Store {
            word,
            last,
            entry: _,
        } => gives_back(making, word, last.word),
        CompAt::Fill { word, last } => gives_back(making, word, last.word),
    }
}

/// The frame's word is still to be stored.
#[inline]
pub fn unmark(making: &CompMaking, word: u64) -> Tail
    ensures { result ≡ Tail.Unmark making.now.frame word }
{
    Tail::Unmark {
        frame: making.frame,
        word,
    }
}

/// The number's word and then the frame's are still to be stored.
#[inline]
pub fn gives_back(making: &CompMaking, word: u64, live: u64) -> Tail
    ensures { result ≡ Tail.StoreLive making.now.number live making.now.frame word }
{
    Tail::StoreLive {
        number: making.number,
        live,
        frame: making.frame,
        word,
    }
}

// What a refused call has still to store: the frozen counters and the frame's word as they were found, where the frame is marked.
#[inline]
fn untyping_undo(untyping: &Untyping) -> Tail
    ensures { result ≡ untyping_undo untyping.now.frame untyping.now.at }
{
    match &untyping.at {
        UntypingAt::Load => Tail::Nothing,
        UntypingAt::Mark { word: _, shown: _ } => Tail::Nothing,
        UntypingAt::Sweep { word, sweep } => Tail::Release {
            release: release_of(untyping.frame, *word, &sweep.kept(), false),
        },
        UntypingAt::Draw { word, swept } => Tail::Release {
            release: release_of(untyping.frame, *word, swept, false),
        },
    }
}

/// The release of what a sweep has frozen, cleared or as it was found, and of the frame with this word.
#[inline]
pub fn release_of(frame: FrameNo, word: u64, swept: &Swept, clear: bool) -> Release
    ensures { result ≡ release_of frame word swept.now clear }
{
    Release {
        frame,
        word,
        thaw: Thaw::new(swept, clear),
    }
}

// What a refused call has still to store: the word of the thread as idle, where it is claimed.
#[inline]
fn switching_undo(switching: &Switching) -> Tail
    ensures { result ≡ switching_undo switching.now.at }
{
    match switching.at {
        SwitchAt::Claim { claim } => claim_undo(&claim),
        SwitchAt::LoadTable { to } => idle_again(&to),
        SwitchAt::LoadPages { to, table: _ } => idle_again(&to),
        SwitchAt::Leave {
            to,
            table: _,
            pages: _,
        } => idle_again(&to),
        SwitchAt::Draw {
            to,
            table: _,
            pages: _,
        } => idle_again(&to),
    }
}

/// What is still to be stored of a thread that stands here in its claim: its word as idle, where it is claimed.
#[inline]
pub fn claim_undo(claim: &Claim) -> Tail
    ensures { result ≡ claim_undo claim.now }
{
    match *claim {
        Claim::AtLoad { thread: _, core: _ } => Tail::Nothing,
        Claim::AtCompare {
            thread: _,
            core: _,
            depth: _,
        } => Tail::Nothing,
        Claim::AtStack { thread, depth } => Tail::StoreIdle { thread, depth },
    }
}

/// The word of a claimed thread is still to be stored as idle.
#[inline]
pub fn idle_again(to: &Claimed) -> Tail
    ensures { result ≡ gives_back to.now }
{
    Tail::StoreIdle {
        thread: to.thread,
        depth: to.depth,
    }
}
