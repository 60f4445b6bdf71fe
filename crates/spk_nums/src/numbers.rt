//! The numbers of the machine, each a type with its range; contracts see each as a plain number.

ghost use Rattle.std.specs.Prelude.{◌≡◌, ◌<◌, ◌^◌};

use std::marker::Model;

/// A core of the machine, 0 to 7.
#[derive(Clone, Copy, PartialEq, Eq, PartialOrd, Ord, Debug)]
pub struct CoreNo {
    number: u8,
}

impl Model for CoreNo {
    ghost use Rattle.std.specs.Prelude.{ℕ, ◌<◌};

    ghost Value = { ℕ };

    ghost view = { λ n. n.number };

    ghost invariant = { λ n. n.number < 8 };

    ghost inverse = { λ n. record { number = n } };
}

impl CoreNo {
    /// The core of this number, below 8.
    #[inline]
    pub fn new(number: u8) -> CoreNo
        requires { number < 8 }
        ensures { result ≡ number }
    {
        CoreNo { number }
    }

    /// The number itself, below 8.
    #[inline]
    pub fn number(self) -> u8
        ensures value { result ≡ self }
        ensures range { self < 8 }
    {
        self.number
    }
}

/// A frame of memory, 0 to 511.
#[derive(Clone, Copy, PartialEq, Eq, PartialOrd, Ord, Debug)]
pub struct FrameNo {
    number: u16,
}

impl Model for FrameNo {
    ghost use Rattle.std.specs.Prelude.{ℕ, ◌<◌};

    ghost Value = { ℕ };

    ghost view = { λ n. n.number };

    ghost invariant = { λ n. n.number < 512 };

    ghost inverse = { λ n. record { number = n } };
}

impl FrameNo {
    /// The frame of this number, below 512.
    #[inline]
    pub fn new(number: u16) -> FrameNo
        requires { number < 512 }
        ensures { result ≡ number }
    {
        FrameNo { number }
    }

    /// The number itself, below 512.
    #[inline]
    pub fn number(self) -> u16
        ensures value { result ≡ self }
        ensures range { self < 512 }
    {
        self.number
    }
}

/// The number of a capability in a table, as written: past 4,095 it names no slot.
#[derive(Clone, Copy, PartialEq, Eq, PartialOrd, Ord, Debug)]
pub struct CapId {
    number: u16,
}

impl Model for CapId {
    ghost use Rattle.std.specs.Prelude.{ℕ};

    ghost Value = { ℕ };

    ghost view = { λ n. n.number };

    ghost inverse = { λ n. record { number = n } };
}

impl CapId {
    /// The capability number as written.
    #[inline]
    pub fn new(number: u16) -> CapId
        ensures { result ≡ number }
    {
        CapId { number }
    }

    /// The number itself.
    #[inline]
    pub fn number(self) -> u16
        ensures { result ≡ self }
    {
        self.number
    }
}

/// The number of a page in a page table, as written: past 4,095 it names no page.
#[derive(Clone, Copy, PartialEq, Eq, PartialOrd, Ord, Debug)]
pub struct PageNo {
    number: u16,
}

impl Model for PageNo {
    ghost use Rattle.std.specs.Prelude.{ℕ};

    ghost Value = { ℕ };

    ghost view = { λ n. n.number };

    ghost inverse = { λ n. record { number = n } };
}

impl PageNo {
    /// The page number as written.
    #[inline]
    pub fn new(number: u16) -> PageNo
        ensures { result ≡ number }
    {
        PageNo { number }
    }

    /// The number itself.
    #[inline]
    pub fn number(self) -> u16
        ensures { result ≡ self }
    {
        self.number
    }
}

/// The number of an entry in one node, as written: past 63 it names no entry.
#[derive(Clone, Copy, PartialEq, Eq, PartialOrd, Ord, Debug)]
pub struct EntryNo {
    number: u16,
}

impl Model for EntryNo {
    ghost use Rattle.std.specs.Prelude.{ℕ};

    ghost Value = { ℕ };

    ghost view = { λ n. n.number };

    ghost inverse = { λ n. record { number = n } };
}

impl EntryNo {
    /// The entry number as written.
    #[inline]
    pub fn new(number: u16) -> EntryNo
        ensures { result ≡ number }
    {
        EntryNo { number }
    }

    /// The number itself.
    #[inline]
    pub fn number(self) -> u16
        ensures { result ≡ self }
    {
        self.number
    }
}

/// The number of a frame as written in a call, which may be past the machine's frames.
#[derive(Clone, Copy, PartialEq, Eq, PartialOrd, Ord, Debug)]
pub struct FrameArg {
    number: u16,
}

impl Model for FrameArg {
    ghost use Rattle.std.specs.Prelude.{ℕ};

    ghost Value = { ℕ };

    ghost view = { λ n. n.number };

    ghost inverse = { λ n. record { number = n } };
}

impl FrameArg {
    /// The frame number as written.
    #[inline]
    pub fn new(number: u16) -> FrameArg
        ensures { result ≡ number }
    {
        FrameArg { number }
    }

    /// The number itself.
    #[inline]
    pub fn number(self) -> u16
        ensures { result ≡ self }
    {
        self.number
    }
}

/// A moment of the machine's logical clock, below 2^43; 0 stands for never.
#[derive(Clone, Copy, PartialEq, Eq, PartialOrd, Ord, Debug)]
pub struct Stamp {
    number: u64,
}

impl Model for Stamp {
    ghost use Rattle.std.specs.Prelude.{ℕ, ◌<◌, ◌^◌};

    ghost Value = { ℕ };

    ghost view = { λ n. n.number };

    ghost invariant = { λ n. n.number < 2 ^ 43 };

    ghost inverse = { λ n. record { number = n } };
}

impl Stamp {
    /// The stamp of this number, below 2^43.
    #[inline]
    pub fn new(number: u64) -> Stamp
        requires { number < 2 ^ 43 }
        ensures { result ≡ number }
    {
        Stamp { number }
    }

    /// The number itself, below 2^43.
    #[inline]
    pub fn number(self) -> u64
        ensures value { result ≡ self }
        ensures range { self < 2 ^ 43 }
    {
        self.number
    }
}
