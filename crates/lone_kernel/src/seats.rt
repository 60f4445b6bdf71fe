//! Where each core stands in its list.

use call_steps::CoreState;
use spk_nums::Call;

/// Where a core stands in its list of calls.
#[derive(Clone, Copy, Debug, PartialEq, Eq)]
pub struct Seat {
    /// How many calls of the list have begun.
    pub begun: usize,
    /// How many are not decided.
    pub due: usize,
    /// The core.
    pub state: CoreState,
}

/// What a core does next: the first step of a call, or a further one.
#[derive(Clone, Copy, Debug, PartialEq, Eq)]
pub enum Turn {
    /// This call begins, and makes its first step.
    Begins { call: Call },
    /// The active call makes its next step.
    GoesOn,
}
