//! Why parts are no setup, and the setup whose cores are all granted the same.

ghost use Rattle.std.specs.Prelude.{◌≡◌, ◌≤◌, ◌<◌, Some, replicate};
ghost use Rattle.spk_nums.specs.Setting.{Setting};
ghost use Rattle.spk_nums.specs.SetupFaults.{TellsSetup, fault_text, equal_grant, equal_setting};

use crate::grants::{Grant, Grants};
use crate::setup::{Setup, grants_fit};
use std::error::Error;
use std::fmt;

/// Why parts are no setup: the first of them, in this order, that is outside its limits.
#[derive(Clone, Copy, PartialEq, Eq, Debug)]
pub enum SetupFault {
    /// There are not 1 to 8 cores.
    Cores,
    /// There are not `4 + 2 * cores` to 512 frames.
    Frames,
    /// There is not one grant for each core.
    GrantCount,
    /// A grant has a budget past 500,000,000, a scheduler past 63, or a quality that is 0 or past 16,777,215.
    Grant,
    /// A core may make more than 2^40 - 1 calls.
    Calls,
    /// A liveness number has no epoch.
    Epochs,
}

impl fmt::Display for SetupFault {
    ghost output = { λ f. Some (fault_text f) };

    fn fmt<W: fmt::Write>(&self, f: &mut fmt::Formatter<W>) -> fmt::Result {
        f.write_str(match self {
            SetupFault::Cores => "not 1 to 8 cores",
            SetupFault::Frames => "not 4 + 2 * cores to 512 frames",
            SetupFault::GrantCount => "not one grant for each core",
            SetupFault::Grant => "a grant out of range",
            SetupFault::Calls => "more than 1099511627775 calls of a core",
            SetupFault::Epochs => "no epoch of a liveness number",
        })
    }
}

impl Error for SetupFault {}

impl Setup {
    /// The setup of these parts, as `new`; where they are none, the first part that is outside its limits.
    pub fn checked(
        cores: u8,
        frames: u16,
        grants: Grants,
        calls: u64,
        epochs: u16,
    ) -> Result<Setup, SetupFault>
        ensures { TellsSetup (record { cores = cores; frames = frames; grants = grants; calls = calls; epochs = epochs }) result }
    {
        if cores < 1 || 8 < cores {
            return Err(SetupFault::Cores);
        }
        if frames < 4 + 2 * u16::from(cores) || 512 < frames {
            return Err(SetupFault::Frames);
        }
        if grants.len() != usize::from(cores) {
            return Err(SetupFault::GrantCount);
        }
        if !grants_fit(grants.as_slice()) {
            return Err(SetupFault::Grant);
        }
        if (1 << 40) - 1 < calls {
            return Err(SetupFault::Calls);
        }
        Setup::new(cores, frames, grants, calls, epochs).ok_or(SetupFault::Epochs)
    }

    /// The setup whose cores are each granted `budget` ticks, 0 to 500,000,000, through scheduler 0 at quality 1, with the
    /// most calls and epochs; where there is none, the first part that is outside its limits.
    pub fn equal(cores: u8, frames: u16, budget: u32) -> Result<Setup, SetupFault>
        ensures { TellsSetup (equal_setting cores frames budget) result }
    {
        if 8 < cores {
            return Err(SetupFault::Cores);
        }
        Setup::checked(
            cores,
            frames,
            equal_grants(cores, budget),
            (1 << 40) - 1,
            65_535,
        )
    }
}

// So many grants of the budget.
fn equal_grants(cores: u8, budget: u32) -> Grants
    requires { cores ≤ 8 }
    ensures { result ≡ replicate cores (equal_grant budget) }
{
    let mut grants = Grants::empty();
    'each: for _core in 0..cores {
        let _added = grants.add(Grant {
            budget,
            sched: 0,
            quality: 1,
        });
    }
    grants
}
