//! How far a part of a mapping went.

use act_counts::act_states::stage_look::Found;
use act_counts::act_states::stage_quiet::Quiet;

/// Where the look-up of a place led that is to be free.
#[derive(Clone, Copy)]
pub(crate) enum Placed {
    /// To this place, which is free.
    At { place: Found },
    /// The call stands where it was left, and the step made there has told this word.
    Falls { found: u64 },
}

/// How one load of a scan went.
#[derive(Clone, Copy)]
pub(crate) enum Scanning {
    /// The scan goes on here.
    Goes { quiet: Quiet },
    /// It was the last, and no core is waited for.
    Ends,
    /// The call stands where it was left, and the step made there has told this word.
    Falls { found: u64 },
}

/// How a scan went.
#[derive(Clone, Copy)]
pub(crate) enum Scanned {
    /// No core is waited for, after so many steps of the call.
    Quiet { steps: u32 },
    /// The call stands where it was left, and makes its next step there.
    Stands,
    /// The call stands where it was left, and the step made there has told this word.
    Falls { found: u64 },
}
