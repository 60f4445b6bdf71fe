//! The program of an endpoint call at the shared table.

ghost use Rattle.std.specs.Prelude.{◌≡◌, ◌≤◌};
ghost use Rattle.async_ends.specs.Running.{unused};

use crate::endpoint::{EndAct, EndCall, EndOp};
use spk_nums::WordOp;
use std::marker::Model;
use turn_rule::CoreProgram;

/// Where a call stands.
#[derive(Clone, Copy, PartialEq, Eq, Debug)]
pub enum EndStage {
    /// Between calls.
    Idle,
    /// A send adds one to the count.
    Adds { frame: u16 },
    /// A receive loads the count.
    Loads { frame: u16 },
    /// It puts 0 in place of the count that it has seen, which was not 0.
    Takes { frame: u16, seen: u64 },
}

/// A core at the endpoints' table.
#[derive(Clone, Copy, Debug)]
pub struct EndRun {
    pub(crate) stage: EndStage,
    pub(crate) frames: u16,
    pub(crate) begun: u64,
    pub(crate) last: EndAct,
}

impl Model for EndRun {
    ghost use Rattle.async_ends.specs.Running.{EndCore, end_core};

    ghost Value = { EndCore };

    ghost use Rattle.std.specs.Prelude.{◌≤◌};
    ghost use Rattle.async_ends.specs.Running.{StageFits, most_calls};

    ghost view = { λ r. end_core r.stage r.frames r.begun r.last };

    ghost invariant = { λ r. StageFits r.frames r.stage × (r.begun ≤ most_calls) };

    ghost inverse = { λ r. record { stage = r.stage; frames = r.frames; begun = r.begun; last = r.last } };
}

impl EndRun {
    // A core that has begun no call.
    pub(crate) fn new(frames: u16) -> EndRun
        ensures { result ≡ unused frames }
    {
        EndRun {
            stage: EndStage::Idle,
            frames,
            begun: 0,
            last: EndAct::Raced,
        }
    }
}

impl CoreProgram for EndRun {
    type Call = EndCall;

    ghost use Rattle.async_ends.specs.Running.{end_steps};

    ghost steps = { end_steps };

    #[inline]
    fn begin(&mut self, call: EndCall) {
        let frame = call.frame;
        self.stage = match call.op {
            EndOp::Send => EndStage::Adds { frame },
            EndOp::Recv => EndStage::Loads { frame },
        };
        self.begun += 1;
    }

    #[inline]
    fn next_op(&self) -> Option<WordOp> {
        match self.stage {
            EndStage::Idle => None,
            EndStage::Adds { frame } => Some(WordOp::Add {
                at: u32::from(frame),
                by: 1,
            }),
            EndStage::Loads { frame } => Some(WordOp::Load {
                at: u32::from(frame),
            }),
            EndStage::Takes { frame, seen } => Some(WordOp::Compare {
                at: u32::from(frame),
                expected: seen,
                word: 0,
            }),
        }
    }

    #[inline]
    fn absorb(&mut self, found: u64) {
        match self.stage {
            EndStage::Idle => {}
            EndStage::Adds { .. } => {
                self.stage = EndStage::Idle;
                self.last = EndAct::Sent;
            }
            EndStage::Loads { frame } => {
                if found == 0 {
                    self.stage = EndStage::Idle;
                    self.last = EndAct::Taken(0);
                } else {
                    self.stage = EndStage::Takes { frame, seen: found };
                }
            }
            EndStage::Takes { frame: _, seen } => {
                self.stage = EndStage::Idle;
                self.last = if found == seen {
                    EndAct::Taken(seen)
                } else {
                    EndAct::Raced
                };
            }
        }
    }
}
