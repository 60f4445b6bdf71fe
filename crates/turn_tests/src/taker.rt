//! A program whose calls take tickets. Word 0 is the next ticket, and each core shows its ticket in a word of its own.

ghost use Rattle.std.specs.Prelude.{◌≡◌};
ghost use Rattle.turn_tests.specs.declared.taker.Phase.TheVariants.{Idle};
ghost use Rattle.turn_tests.specs.Taker.{word_place, taker};

use spk_nums::WordOp;
use turn_rule::CoreProgram;

/// Which of two cores it is.
#[derive(Clone, Copy, PartialEq, Debug)]
pub enum Side {
    Left,
    Right,
}

impl Side {
    /// Where the core's own word is.
    pub fn place(self) -> u32
        ensures { result ≡ word_place self }
    {
        match self {
            Side::Left => 1,
            Side::Right => 2,
        }
    }
}

/// Where a call stands.
#[derive(Clone, Copy, PartialEq, Debug)]
pub enum Phase {
    Idle,
    Takes { count: u8 },
    Shows { ticket: u64 },
    ReadsBack { ticket: u64 },
}

/// A core that takes tickets. A call takes so many at once, shows the first of them, and reads it back.
#[derive(Clone, Copy, Debug)]
pub struct Taker {
    pub side: Side,
    pub phase: Phase,
    /// How many tickets it has taken, modulo 2^64.
    pub taken: u64,
    /// The ticket that it has read back last.
    pub last: u64,
}

impl Taker {
    /// A core between calls, with no ticket yet.
    pub fn new(side: Side) -> Taker
        ensures { result ≡ taker side Idle 0 0 }
    {
        Taker {
            side,
            phase: Phase::Idle,
            taken: 0,
            last: 0,
        }
    }
}

impl CoreProgram for Taker {
    type Call = u8;

    ghost use Rattle.turn_tests.specs.Taker.{taker_steps};

    ghost steps = { taker_steps };

    fn begin(&mut self, call: u8) {
        self.phase = Phase::Takes { count: call };
    }

    fn next_op(&self) -> Option<WordOp> {
        match self.phase {
            Phase::Idle => None,
            Phase::Takes { count } => Some(WordOp::Add {
                at: 0,
                by: u64::from(count),
            }),
            Phase::Shows { ticket } => Some(WordOp::Store {
                at: self.side.place(),
                word: ticket,
            }),
            Phase::ReadsBack { .. } => Some(WordOp::Load {
                at: self.side.place(),
            }),
        }
    }

    fn absorb(&mut self, found: u64) {
        match self.phase {
            Phase::Idle => {}
            Phase::Takes { count } => {
                self.taken = self.taken.wrapping_add(u64::from(count));
                self.phase = Phase::Shows { ticket: found };
            }
            Phase::Shows { .. } => self.phase = Phase::ReadsBack { ticket: found },
            Phase::ReadsBack { .. } => {
                self.last = found;
                self.phase = Phase::Idle;
            }
        }
    }
}
