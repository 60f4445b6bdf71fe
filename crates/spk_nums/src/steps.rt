//! Atomic steps on the shared words, the items of an order of steps, and what a stage of a call answers.

use crate::numbers::CoreNo;
use crate::replies::Reply;

/// One atomic step on the word at the place `at` of the shared table.
#[derive(Clone, Copy, PartialEq, Eq, Debug)]
pub enum WordOp {
    /// Reads the word.
    Load { at: u32 },
    /// Puts `word` in the place of `expected`, and changes nothing where it finds another word.
    Compare { at: u32, expected: u64, word: u64 },
    /// Puts `word` there, whatever stood there.
    Store { at: u32, word: u64 },
    /// Adds `by` to the word, modulo 2^64.
    Add { at: u32, by: u64 },
}

/// How far an item of an order takes its core.
#[derive(Clone, Copy, PartialEq, Eq, Debug)]
pub enum How {
    /// One atomic step.
    One,
    /// Until its call is ready: its next step is its deciding one, or it has decided.
    Ready,
    /// Until its call has decided.
    Decide,
    /// Until its call has returned.
    Return,
}

/// One item of an order of steps: a core, and how far it goes on.
#[derive(Clone, Copy, PartialEq, Eq, Debug)]
pub struct Item {
    /// The core that goes on.
    pub core: CoreNo,
    /// How far it goes on.
    pub how: How,
}

/// What one step of a stage of a call led to.
#[derive(Clone, Copy, PartialEq, Debug)]
pub enum StageEnd<T> {
    /// The stage has further steps.
    Going,
    /// The call is decided with this reply at this step, and the stage has further steps.
    Decided(Reply),
    /// The stage is over and hands on what it found.
    Done(T),
    /// The stage is over: the call is refused with this reply.
    Refuse(Reply),
}
