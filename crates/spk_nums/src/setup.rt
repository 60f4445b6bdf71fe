//! What a machine is booted with.

ghost use Rattle.std.specs.Prelude.{◌≡◌, ◌<◌, ◌≤◌, ◌+◌, ◌*◌, ◌^◌, length, IsTrue, ◌↔◌, All};
ghost use Rattle.std.specs.Option.{SomeIff};
ghost use Rattle.spk_nums.specs.Setting.{Setting, IsSetting, GrantFits};

use crate::grants::{Grant, Grants};
use std::marker::Model;

/// A machine to boot, within the limits: 1 to 8 cores, `4 + 2 * cores` to 512 frames, one grant for each core, at
/// most 2^40 - 1 calls of each core, and 1 to 65,535 epochs of each liveness number.
#[derive(Clone, Copy, PartialEq, Eq, Debug)]
pub struct Setup {
    cores: u8,
    frames: u16,
    grants: Grants,
    calls: u64,
    epochs: u16,
}

impl Model for Setup {
    ghost use Rattle.spk_nums.specs.Setting.{Setting, IsSetting};

    ghost Value = { Setting };

    ghost view = { λ s. record { cores = s.cores; frames = s.frames; grants = s.grants; calls = s.calls; epochs = s.epochs } };

    ghost invariant = { λ s. IsSetting record {
      cores = s.cores;
      frames = s.frames;
      grants = s.grants;
      calls = s.calls;
      epochs = s.epochs;
    } };

    ghost inverse = { λ s. record { cores = s.cores; frames = s.frames; grants = s.grants; calls = s.calls; epochs = s.epochs } };
}

impl Setup {
    /// The setup of these parts: None exactly where one of them is outside the limits of a setup, or where the
    /// number of grants is not `cores`.
    pub fn new(cores: u8, frames: u16, grants: Grants, calls: u64, epochs: u16) -> Option<Setup>
        ensures { let setting : Setting = record { cores = cores; frames = frames; grants = grants; calls = calls; epochs = epochs } in
            SomeIff result (IsSetting setting) setting }
    {
        let sized = 1 <= cores && cores <= 8 && 4 + 2 * u16::from(cores) <= frames && frames <= 512;
        let limited = calls <= (1 << 40) - 1 && 1 <= epochs;
        let granted = grants.len() == usize::from(cores) && grants_fit(grants.as_slice());
        if sized && limited && granted {
            Some(Setup {
                cores,
                frames,
                grants,
                calls,
                epochs,
            })
        } else {
            None
        }
    }

    /// The number of cores, 1 to 8.
    #[inline]
    pub fn cores(&self) -> u8
        ensures value { result ≡ self.now.cores }
        ensures limits { IsSetting self.now }
    {
        self.cores
    }

    /// The number of frames, `4 + 2 * cores` to 512.
    #[inline]
    pub fn frames(&self) -> u16
        ensures value { result ≡ self.now.frames }
        ensures limits { IsSetting self.now }
    {
        self.frames
    }

    /// What the cores are granted, core 0 first: one grant for each core.
    #[inline]
    pub fn grants(&self) -> &Grants
        ensures value { result.now ≡ self.now.grants }
        ensures limits { IsSetting self.now }
    {
        &self.grants
    }

    /// The most calls that a core may make, at most 2^40 - 1.
    #[inline]
    pub fn calls(&self) -> u64
        ensures value { result ≡ self.now.calls }
        ensures limits { IsSetting self.now }
    {
        self.calls
    }

    /// The most epochs that a liveness number has, 1 to 65,535.
    #[inline]
    pub fn epochs(&self) -> u16
        ensures value { result ≡ self.now.epochs }
        ensures limits { IsSetting self.now }
    {
        self.epochs
    }
}

/// Whether a grant is in range.
fn grant_fits(grant: &Grant) -> bool
    ensures { IsTrue result ↔ GrantFits grant.now }
{
    grant.budget <= 500_000_000
        && grant.sched < 64
        && 1 <= grant.quality
        && grant.quality < 16_777_216
}

/// Whether each grant is in range.
pub(crate) fn grants_fit(grants: &[Grant]) -> bool
    ensures { IsTrue result ↔ All GrantFits grants.now }
{
    'each: for grant in grants {
        if !grant_fits(grant) {
            return false;
        }
    }
    true
}
