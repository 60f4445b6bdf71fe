//! Setups, and what calls may be made.

ghost use Rattle.std.specs.Prelude.{IsTrue, ◌↔◌};
ghost use Rattle.std.specs.Option.{SomeIff};
ghost use Rattle.spk_nums.specs.CallLimits.{InLimits};
ghost use Rattle.spk_nums.specs.Setting.{Setting, IsSetting};
ghost use Rattle.spk_nums.specs.SetupFaults.{TellsSetup, equal_setting};

use spk_nums::{Call, Grants, Setup, SetupFault, in_limits};

/// The setup of these parts, where they are one.
pub fn setup_of(cores: u8, frames: u16, grants: Grants, calls: u64, epochs: u16) -> Option<Setup>
    ensures { let setting : Setting = record { cores = cores; frames = frames; grants = grants; calls = calls; epochs = epochs } in
        SomeIff result (IsSetting setting) setting }
{
    Setup::new(cores, frames, grants, calls, epochs)
}

/// The setup whose cores are all granted the same.
pub fn equal(cores: u8, frames: u16, budget: u32) -> Result<Setup, SetupFault>
    ensures { TellsSetup (equal_setting cores frames budget) result }
{
    Setup::equal(cores, frames, budget)
}

/// Whether a call's arguments are in range.
pub fn may_call(call: &Call) -> bool
    ensures { IsTrue result ↔ InLimits call.now }
{
    in_limits(call)
}
