//! What a lost race and a held word rest on: what calls have left in the words that they stepped on.

use crate::fault::Fault;
use std::alloc::Global;
use step_views::{StepView, WordName};
use stop_causes::{CallAt, is_held, is_lost};

/// A step that was made: its call, its word, what it left there, and whether that is another value than it found.
#[derive(Clone, Copy, Debug, PartialEq, Eq)]
struct Past {
    call: CallAt,
    word: WordName,
    left: u64,
    changed: bool,
}

/// The steps that were made, the oldest first.
#[derive(Drop)]
pub struct Causes {
    past: Vec<Past>,
}

impl Causes {
    /// No step.
    pub fn none(alloc: Global) -> Causes {
        Causes {
            past: Vec::new(alloc),
        }
    }

    /// Keeps a step of this call.
    pub fn keep(&mut self, call: CallAt, step: &StepView) -> Result<(), Fault> {
        self.past.push(Past {
            call,
            word: step.word,
            left: step.left,
            changed: step.found != step.left,
        })?;
        Ok(())
    }

    // What the call left in the word when it last stepped on it.
    fn left(&self, call: &CallAt, word: &WordName) -> Option<u64> {
        let mut left = None;
        for past in &self.past {
            if past.call == *call && past.word == *word {
                left = Some(past.left);
            }
        }
        left
    }

    // The call that last changed the word.
    fn changed(&self, word: &WordName) -> Option<CallAt> {
        let mut changed = None;
        for past in &self.past {
            if past.changed && past.word == *word {
                changed = Some(past.call);
            }
        }
        changed
    }

    /// Whether the call may be answered `raced` at this step: it has stepped on the word before, and finds there another value than it
    /// had left.
    pub fn has_lost(&self, call: &CallAt, step: &StepView) -> bool {
        is_lost(&self.left(call, &step.word), step.found)
    }

    /// Whether a call may be answered `busy` at this step, by this call: it was the last to change the word.
    pub fn holds(&self, by: &CallAt, step: &StepView) -> bool {
        is_held(&self.changed(&step.word), by)
    }
}
