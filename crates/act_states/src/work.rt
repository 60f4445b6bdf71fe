//! The work of a call between its entry and its decision, what a step of it leads to, and what a decision leaves to be stored.

use crate::comps::CompMaking;
use crate::fills::Fill;
use crate::invocations::{Invoking, Returning};
use crate::kills::Killing;
use crate::makings::Making;
use crate::own::OwnChange;
use crate::refusals::Refusal;
use crate::switches::Switching;
use crate::touches::Touching;
use crate::typings::Typing;
use crate::untypings::{Release, Untyping};
use frame_words::CompWord;
use spk_nums::{Cap, CoreNo, EntryNo, FrameNo, Reply, Stamp, Value};
use stage_look::Look;
use stage_pins::{Acquired, Pin};
use stage_quiet::{Close, Quiet};
use stage_tcap::{Charge, Pair, Refill};
use stage_thread::{Pop, Push};

/// What a call does after its look-ups, till it is decided.
#[derive(Clone, Copy, PartialEq, Eq, Debug)]
pub enum Act {
    /// It fills the place of its target.
    Fill {
        fill: Fill,
    },
    /// It removes this capability from the place of its target: an act ends at the draw of the stamp, which decides the call.
    Remove {
        close: Close,
        cap: Cap,
    },
    /// It types an untyped frame.
    Retype {
        typing: Typing,
    },
    /// It makes an object in a blank kernel frame.
    Make {
        making: Making,
    },
    /// It maps a user frame in the place of its target: the frame's word is loaded, and then the place is filled.
    Map {
        fill: Fill,
    },
    /// Its frame is not in its range: it is refused once its target, of which this word was found, is scanned for.
    Outside {
        node: FrameNo,
        entry: EntryNo,
        word: u64,
    },
    /// It charges ticks to the core's temporal capability.
    Tick {
        charge: Charge,
    },
    /// It touches a page.
    Touch {
        touching: Touching,
    },
    /// It drops the translations that this core, its own, has cached.
    Flush {
        core: CoreNo,
    },
    /// It kills a component.
    Kill {
        killing: Killing,
    },
    /// It makes a user frame or a kernel frame untyped again.
    Untype {
        untyping: Untyping,
    },
    /// It makes a component in a blank kernel frame.
    MakeComp {
        making: CompMaking,
    },
    /// It enters a component through a gate.
    Invoke {
        invoking: Invoking,
    },
    /// It leaves its component.
    Return {
        returning: Returning,
    },
    /// It goes on as another thread, with a temporal capability.
    Switch {
        switching: Switching,
    },
    /// It moves ticks from one temporal capability to another, or tells which preempts.
    Share {
        pair: Pair,
    },
    /// It gives ticks back to a temporal capability.
    Refill {
        refill: Refill,
    },
}

/// A count that an act changes: that of the references to a frame, by so many.
#[derive(Clone, Copy, PartialEq, Eq, Debug)]
pub struct Due {
    /// The frame.
    pub frame: FrameNo,
    /// By how much, where the call is carried out.
    pub change: i32,
}

/// The work of a call that is not decided.
#[derive(Clone, Copy, PartialEq, Eq, Debug)]
pub enum Work {
    /// What its plan names next is looked up.
    Lookup { look: Look },
    /// Its names are found, and the word of a component is loaded, which names its epoch, before this look-up of its target.
    Read { comp: FrameNo, look: Look },
    /// Its look-ups are made, and the other cores are scanned for the calls that still use what was removed from its target; for a place of
    /// a page table then all flush words.
    Scan { quiet: Quiet, act: Act },
    /// Its look-ups are made, and it acquires a count that its act changes by so many references.
    Acquire { pin: Pin, change: i32, act: Act },
    /// It has acquired all counts that its act changes, and the act goes on.
    Act { act: Act },
}

/// What a decided call has still to store beside its counts, and before it commits them where nothing else is said: known as soon as
/// it is decided, and carried out by stores alone.
#[derive(Clone, Copy, PartialEq, Eq, Debug)]
pub enum Tail {
    /// Nothing.
    Nothing,
    /// The entry that quiesces since the stamp that was drawn.
    Quiesce {
        close: Close,
    },
    /// The word of a frame that the call has marked: with its object where the call is carried out, and as it was found where it is
    /// refused.
    Unmark {
        frame: FrameNo,
        word: u64,
    },
    /// The word of a liveness number that is dead since the stamp that was drawn.
    StoreDead {
        life: CompWord,
        stamp: Stamp,
    },
    /// The word of a liveness number that the call has marked, and then that of a frame: live and with its component where the call is
    /// carried out, and both as they were found where it is refused.
    StoreLive {
        number: u8,
        live: u64,
        frame: FrameNo,
        word: u64,
    },
    /// The word of a core's last flush, which this stamp has.
    StoreFlush {
        core: CoreNo,
        stamp: Stamp,
    },
    /// The counters that the call has frozen, and then the word of their frame, which it has marked. These are stored after its counts
    /// are committed.
    Release {
        release: Release,
    },
    /// The words of the core's thread, onto whose stack a component is pushed.
    Push {
        push: Push,
    },
    /// The words of the core's thread, of whose stack the top is popped.
    Pop {
        pop: Pop,
    },
    /// The word of the thread as which the core goes on, running, and then that of the thread that it has left, idle.
    StoreRunning {
        thread: FrameNo,
        core: CoreNo,
        depth: u8,
        old: FrameNo,
        old_depth: u8,
    },
    /// The word of a thread that the call has claimed, idle.
    StoreIdle {
        thread: FrameNo,
        depth: u8,
    },
    /// The words of two temporal capabilities, of which the first is marked: list B, head B and head A of a delegation that is carried
    /// out, and else head A alone.
    Share {
        pair: Pair,
    },
}

/// What a step of the work of a call led to.
#[derive(Clone, Copy, PartialEq, Eq, Debug)]
pub enum WorkStep {
    /// The work goes on.
    Goes {
        work: Work,
    },
    /// This count is acquired, and the work goes on.
    Acquires {
        count: Acquired,
        work: Work,
    },
    /// The call is refused, and has this still to store beside its counts.
    Refuses {
        refusal: Refusal,
        tail: Tail,
    },
    /// The call is carried out with this value, has drawn this stamp or none, and has this still to store beside its counts.
    Answers {
        value: Value,
        drawn: Option<Stamp>,
        tail: Tail,
    },
    /// The call is decided with this reply, has drawn this stamp or none and has this still to store beside its counts, and changes this of
    /// what its core has of its own.
    Changes {
        reply: Reply,
        change: OwnChange,
        drawn: Option<Stamp>,
        tail: Tail,
    },
}
