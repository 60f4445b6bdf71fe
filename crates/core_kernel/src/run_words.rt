//! The words of the shared table, as a core makes its steps on them.

use crate::core_run::CoreRun;
use call_steps::Words;
use spk_nums::WordOp;
use std::marker::Model;
use turn_rule::TurnWords;

// The words on which a core's program makes a whole call: the core is that of the program.
pub(crate) struct RunWords<W: TurnWords<CoreRun>> {
    pub(crate) words: W,
}

impl<W: TurnWords<CoreRun>> Model for RunWords<W> {
    ghost use Rattle.core_kernel.specs.RunSteps.{IsRun};

    ghost Value = { W };

    ghost view = { λ w. w.words };

    ghost invariant = { λ w. IsRun (W.program w.words) (W.last w.words) };
}

impl<W: TurnWords<CoreRun>> Words for RunWords<W> {
    ghost use Rattle.core_kernel.specs.RunSteps.{said};

    ghost core = { λ w. (W.program w).state };

    ghost last = { λ w. said (W.last w) };

    #[inline(always)]
    fn make(&mut self, op: WordOp) -> u64 {
        self.words.make(op)
    }
}
