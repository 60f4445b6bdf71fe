//! How far a part of a straight call went.

use spk_nums::{Cap, Reply};
use step_lands::act_states::stage_look::Look;

/// How far a straight call went.
#[derive(Clone, Copy)]
pub enum Went {
    /// It has made no step.
    Plainly,
    /// Its call stands where it was left, and makes its next step there.
    Stands,
    /// Its call stands where it was left, and the step made there has told this word.
    Falls { found: u64 },
    /// It has returned this.
    Returned { reply: Reply },
}

/// How the question ended whether the core's component lives.
#[derive(Clone, Copy)]
pub enum Asked {
    /// It lives.
    Lives,
    /// The call stands where it was left, and the step made there has told this word.
    Falls { found: u64 },
}

/// Where the load of a root's entry led.
#[derive(Clone, Copy)]
pub enum Followed {
    /// To a leaf, where the look-up stands now.
    Leads { look: Look },
    /// The call stands where it was left, and the step made there has told this word.
    Falls { found: u64 },
}

/// Where a name led.
#[derive(Clone, Copy)]
pub enum Named {
    /// To this capability.
    Finds { cap: Cap },
    /// The call stands where it was left, and the step made there has told this word.
    Falls { found: u64 },
}
