//! What `stop_runs` asks of a machine at each stop, as functions of plain values: that what the machine says of a core in a call is so,
//! that a lost race finds another value than its call had left, and that a word counts as held by the call that last changed it. The
//! program stands on them, so one that lets too much pass would hide what the program is there to show.
#![tactic(auto)]

ghost use Rattle.std.specs.Prelude.{◌↔◌, IsTrue};
ghost use Rattle.stop_causes.specs.Causes.{IsLost, IsHeld};
ghost use Rattle.stop_causes.specs.Inside.{IsSo};

use spk_nums::CoreNo;

/// A call of a core, by its number among the calls that the core has begun.
#[derive(Clone, Copy, Debug, PartialEq, Eq)]
pub struct CallAt {
    /// The core.
    pub core: CoreNo,
    /// The number.
    pub number: usize,
}

/// How far a call is.
#[derive(Clone, Copy, Debug, PartialEq, Eq)]
pub struct Progress {
    /// How many steps it has made.
    pub made: u32,
    /// The most steps that it may make.
    pub bound: u32,
}

/// Whether a call that last left this in a word, where it has stepped on it, has lost a race where it finds this there.
pub fn is_lost(left: &Option<u64>, found: u64) -> bool
    ensures { IsTrue result ↔ IsLost left.now found }
{
    match left {
        Some(left) => *left != found,
        None => false,
    }
}

/// Whether a word that was last changed by this call, if by any, is held by that call.
pub fn is_held(changed: &Option<CallAt>, by: &CallAt) -> bool
    ensures { IsTrue result ↔ IsHeld changed.now by.now }
{
    match changed {
        Some(call) => *call == *by,
        None => false,
    }
}

/// Whether what a machine says of a core is so, where the core is so far in a call, if in one: how many steps the call has made, which
/// are fewer than its bound; and nothing of a core that is between calls.
pub fn is_so(said: Option<u32>, within: &Option<Progress>) -> bool
    ensures { IsTrue result ↔ IsSo said within.now }
{
    match (said, within) {
        (None, None) => true,
        (Some(made), Some(within)) => made == within.made && made < within.bound,
        _ => false,
    }
}
