//! A program whose calls add one to word 0.

ghost use Rattle.std.specs.Prelude.{◌≡◌};
ghost use Rattle.turn_tests.specs.declared.counter.Stage.TheVariants.{Idle};
ghost use Rattle.turn_tests.specs.Counter.{counter};

use spk_nums::WordOp;
use turn_rule::CoreProgram;

/// Where a call stands, and how many lost tries it may still follow by another.
#[derive(Clone, Copy, PartialEq, Debug)]
pub enum Stage {
    Idle,
    Looks { left: u8 },
    Tries { seen: u64, left: u8 },
}

/// A core that counts. A call says how often it tries again, and wins at most once.
#[derive(Clone, Copy, Debug)]
pub struct Counter {
    pub stage: Stage,
    /// Its tries that were not lost, modulo 2^64.
    pub wins: u64,
}

impl Counter {
    /// A core between calls, with no win yet.
    pub fn new() -> Counter
        ensures { result ≡ counter Idle 0 }
    {
        Counter {
            stage: Stage::Idle,
            wins: 0,
        }
    }
}

impl CoreProgram for Counter {
    type Call = u8;

    ghost use Rattle.turn_tests.specs.Counter.{counter_steps};

    ghost steps = { counter_steps };

    fn begin(&mut self, call: u8) {
        self.stage = Stage::Looks { left: call };
    }

    fn next_op(&self) -> Option<WordOp> {
        match self.stage {
            Stage::Idle => None,
            Stage::Looks { .. } => Some(WordOp::Load { at: 0 }),
            Stage::Tries { seen, .. } => Some(WordOp::Compare {
                at: 0,
                expected: seen,
                word: seen.wrapping_add(1),
            }),
        }
    }

    fn absorb(&mut self, found: u64) {
        match self.stage {
            Stage::Idle => {}
            Stage::Looks { left } => self.stage = Stage::Tries { seen: found, left },
            Stage::Tries { seen, left } => {
                if found == seen {
                    self.wins = self.wins.wrapping_add(1);
                    self.stage = Stage::Idle;
                } else if left == 0 {
                    self.stage = Stage::Idle;
                } else {
                    self.stage = Stage::Tries {
                        seen: found,
                        left: left - 1,
                    };
                }
            }
        }
    }
}
