//! Where a call stands between two of its steps.

use act_states::call_plans::Caps;
use act_states::stage_pins::AcquiredCounts;
use act_states::stage_thread::Alive;
use act_states::{OwnChange, Tail, Work};
use spk_nums::{Call, Reply, Stamp};

/// Where a call stands between two of its steps.
#[derive(Clone, Copy, PartialEq, Eq, Debug)]
pub enum Stage {
    /// Before its first step: the core word is stored, with inside set and the stamp of the last exit.
    Enter,
    /// Inside, and it is asked whether the component in which the core works lives, before all else.
    Living {
        alive: Alive,
    },
    /// Inside, and not decided: the component was found alive, where the call's plan asks for that.
    Undecided {
        work: Work,
    },
    /// Decided, with the stamp that it has drawn, if it has, and what it has still to store, before it commits the counts that it has
    /// acquired or, of frozen counters and their frame's word, after. Then the clock is loaded, which begins the exit.
    Decided {
        reply: Reply,
        drawn: Option<Stamp>,
        tail: Tail,
    },
    /// The core word is stored, with inside cleared and the clock that was loaded.
    Leave {
        reply: Reply,
        stamp: Stamp,
    },
}

/// A call that has begun and not returned.
#[derive(Clone, Copy, PartialEq, Eq, Debug)]
pub struct ActiveCall {
    /// How many steps it has made.
    pub steps: u32,
    /// Where it stands.
    pub stage: Stage,
    /// What its names have led to so far.
    pub found: Caps,
    /// The epoch of the component whose word it has read before it looks its target up.
    pub read: Option<u16>,
    /// The counts that it has acquired and not committed.
    pub counts: AcquiredCounts,
    /// The call.
    pub call: Call,
}

/// What a step of a call led to, as its core needs it.
#[derive(Clone, Copy, PartialEq, Eq, Debug)]
pub enum Told {
    /// The call goes on.
    Going,
    /// The call was decided at this step, and goes on.
    Decided { reply: Reply },
    /// The call returns, and the core word was left with this stamp.
    Returned { reply: Reply, stamp: Stamp },
    /// The call was decided at this step, which changes this of what its core has of its own, and goes on.
    Changed { reply: Reply, change: OwnChange },
}

/// What a core tells of a step that it has made.
#[derive(Clone, Copy, PartialEq, Eq, Debug)]
pub enum Absorbed {
    /// Its call goes on.
    Going,
    /// Its call was decided at this step, and goes on.
    Decided(Reply),
    /// Its call has returned.
    Returned(Reply),
}
