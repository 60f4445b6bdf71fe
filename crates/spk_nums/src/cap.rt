//! Capabilities.

ghost use Rattle.std.specs.Prelude.{◌≡◌, ◌<◌, ◌≤◌};
ghost use Rattle.spk_nums.specs.Capability.{cap_of};
ghost use Rattle.spk_nums.specs.Limits.{least_arg, end_of_arg};
ghost use Rattle.spk_nums.specs.Rights.{kept, kept_rights, least_rights, part_of};

use crate::kinds::Kind;
use crate::numbers::FrameNo;
use crate::rights::Rights;
use std::marker::Model;

/// A capability, or another entry of a node: a kind, the frame that it names, a number whose meaning the kind gives (the
/// count of frames of a range, the epoch of a gate, the flags of a page, else 0), and its rights. A link and a page have both
/// rights.
#[derive(Clone, Copy, PartialEq, Eq, Debug)]
pub struct Cap {
    kind: Kind,
    frame: FrameNo,
    arg: u32,
    rights: Rights,
}

impl Model for Cap {
    ghost use Rattle.spk_nums.specs.Capability.{Capability};

    ghost Value = { Capability };

    ghost use Rattle.std.specs.Prelude.{◌<◌, ◌≤◌};
    ghost use Rattle.spk_nums.specs.Limits.{least_arg, end_of_arg};
    ghost use Rattle.spk_nums.specs.Rights.{least_rights};

    ghost view = { λ c. record { kind = c.kind; frame = c.frame; arg = c.arg; rights = c.rights.0 } };

    ghost invariant = { λ c. (least_arg c.kind ≤ c.arg) × (c.arg < end_of_arg c.kind)
        × (least_rights c.kind ≤ c.rights.0) × (c.rights.0 < 4) };

    ghost inverse = { λ c. record { kind = c.kind; frame = c.frame; arg = c.arg; rights = record { 0 = c.rights } } };
}

impl Cap {
    /// The capability of this kind on this frame, with both rights. The number is below 2^24 for a range, 1 to 65,535 for a gate,
    /// 0 to 3 for a page, else 0.
    #[inline]
    pub fn new(kind: Kind, frame: FrameNo, arg: u32) -> Cap
        requires least { least_arg kind ≤ arg }
        requires end { arg < end_of_arg kind }
        ensures { result ≡ cap_of kind frame arg }
    {
        Cap {
            kind,
            frame,
            arg,
            rights: Rights::both(),
        }
    }

    /// The capability of this kind on this frame with these rights, the bits 0 and 1 alone; a link and a page have both. The
    /// number is as for `new`.
    #[inline]
    pub fn with_rights(kind: Kind, frame: FrameNo, arg: u32, rights: Rights) -> Cap
        requires least { least_arg kind ≤ arg }
        requires end { arg < end_of_arg kind }
        requires least_rights { least_rights kind ≤ rights.0 }
        requires end_of_rights { rights.0 < 4 }
        ensures { result ≡ record { kind = kind; frame = frame; arg = arg; rights = rights.0 } }
    {
        Cap {
            kind,
            frame,
            arg,
            rights,
        }
    }

    /// What it leads to.
    #[inline]
    pub fn kind(self) -> Kind
        ensures { result ≡ self.kind }
    {
        self.kind
    }

    /// The frame that it names; of a range, the first.
    #[inline]
    pub fn frame(self) -> FrameNo
        ensures { result ≡ self.frame }
    {
        self.frame
    }

    /// The number that its kind gives a meaning, within the kind's range.
    #[inline]
    pub fn arg(self) -> u32
        ensures value { result ≡ self.arg }
        ensures least { least_arg self.kind ≤ self.arg }
        ensures end { self.arg < end_of_arg self.kind }
    {
        self.arg
    }

    /// Its rights: bits 0 and 1 alone, and both of a link and of a page.
    #[inline]
    pub fn rights(self) -> Rights
        ensures value { result ≡ record { 0 = self.rights } }
        ensures least { least_rights self.kind ≤ self.rights }
        ensures end { self.rights < 4 }
    {
        self.rights
    }

    /// The same capability with those of its rights that are among these. A link and a page, which can have no others, keep
    /// both.
    #[inline]
    #[tactic(auto, using(crate::proofs::KeptRights::kept_above, crate::proofs::KeptRights::kept_below))]
    pub fn keep(self, rights: Rights) -> Cap
        ensures { result ≡ kept self rights.0 }
    {
        Cap {
            kind: self.kind,
            frame: self.frame,
            arg: self.arg,
            rights: kept_rights(self.kind, self.rights, rights),
        }
    }

    /// The range of this many frames from a frame on, with the rights of this range.
    #[inline]
    pub fn part(self, frame: FrameNo, count: u16) -> Cap
        ensures { result ≡ part_of self frame count }
    {
        Cap {
            kind: Kind::Range,
            frame,
            arg: u32::from(count),
            rights: self.rights,
        }
    }
}

// The rights that a capability of this kind keeps of these.
#[inline]
fn kept_rights(kind: Kind, own: Rights, these: Rights) -> Rights
    ensures { result ≡ record { 0 = kept_rights kind own.0 these.0 } }
{
    match kind {
        Kind::Link | Kind::Page => own,
        _ => Rights::of_bits(own.number() & these.number()),
    }
}
