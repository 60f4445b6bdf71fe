//! The handle with which a core makes its calls, and the note of what it has seen.

ghost use Rattle.std.specs.Prelude.{◌≡◌, ◌<◌};
ghost use Rattle.boot_words.specs.kernel_history.specs.Trace.{state_after};
ghost use Rattle.core_kernel.specs.Calls.{HasSeen};

use crate::core_run::CoreRun;
use spk_nums::{CoreNo, Setup};
use std::marker::Model;
use turn_rule::{TurnNote, TurnSeat};

/// The seat of a core at a kernel. Its core is between calls. It has seen a trace, which has all steps of the core.
#[derive(Drop)]
pub struct CoreSeat {
    pub(crate) seat: TurnSeat<CoreRun>,
    pub(crate) setup: Setup,
}

impl Model for CoreSeat {
    ghost use Rattle.core_kernel.specs.Kernel.{CoreSeatValue, seat_value, IsSeat};

    ghost Value = { CoreSeatValue };

    ghost view = { λ s. seat_value s.setup s.seat };

    ghost invariant = { λ s. IsSeat s.setup s.seat };
}

/// A note of the trace that a seat had seen. It may be dropped, which changes nothing.
#[derive(Drop)]
pub struct CoreNote {
    pub(crate) note: TurnNote<CoreRun>,
    pub(crate) setup: Setup,
}

impl Model for CoreNote {
    ghost use Rattle.core_kernel.specs.Kernel.{CoreNoteValue, note_value};

    ghost Value = { CoreNoteValue };

    ghost view = { λ n. note_value n.setup n.note };
}

/// Where a core stands.
#[derive(Clone, Copy, PartialEq, Eq, Debug)]
pub struct Front {
    /// The core.
    pub core: CoreNo,
    /// How many calls it has counted, at most the setup's: those that it has made, but for those answered `calls-spent`.
    pub calls: u64,
}

impl CoreSeat {
    /// Where the core stands. Its contract also says what holds of every seat: what it has seen is a legal history, and
    /// its core, one of the machine's, is between calls.
    pub fn front(&self) -> Front
        ensures core { result.core ≡ self.now.core }
        ensures inside { self.now.core < self.now.kernel.setup.cores }
        ensures calls { result.calls ≡ ((state_after self.now.kernel.setup self.now.seen).core self.now.core).counted }
        ensures seen { HasSeen self.now }
    {
        let program = self.seat.program();
        Front {
            core: program.state.core(),
            calls: program.state.made(),
        }
    }
}
