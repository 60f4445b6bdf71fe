//! What a frame and an entry may be, and how a page may be used.

ghost use Rattle.std.specs.Prelude.{⊤, ◌≡◌, ◌<◌, [], ◌∷◌, codes};

use bitflags::{Flag, Flags, bitflag_items};
/// What an entry of a node leads to.
#[derive(Clone, Copy, PartialEq, Eq, Debug)]
pub enum Kind {
    /// A run of frames.
    Range,
    /// The root of a capability table.
    Table,
    /// A leaf of a capability table.
    Leaf,
    /// The root of a page table.
    Pages,
    /// A leaf of a page table.
    Pleaf,
    /// A component.
    Comp,
    /// The invocation of a component in one of its epochs.
    Gate,
    /// A thread.
    Thread,
    /// A temporal capability.
    Tcap,
    /// A leaf, from an entry of a root.
    Link,
    /// A user frame, mapped by an entry of a leaf of a page table.
    Page,
}

/// The use that a frame is put to.
#[derive(Clone, Copy, PartialEq, Eq, Debug)]
pub enum FrameKind {
    /// Neither of the others: it may be retyped to them.
    Untyped,
    /// May be mapped.
    User,
    /// Blank, or holds a kernel object.
    Kernel,
}

/// What a kernel frame holds.
#[derive(Clone, Copy, PartialEq, Eq, Debug)]
pub enum Obj {
    /// Nothing yet.
    Blank,
    /// The root of a capability table.
    Table,
    /// A leaf of a capability table.
    Leaf,
    /// The root of a page table.
    Pages,
    /// A leaf of a page table.
    Pleaf,
    /// A component.
    Comp,
    /// A thread.
    Thread,
    /// A temporal capability.
    Tcap,
}

/// How a page may be used: a set of bits, bit 0 to write, bit 1 to execute.
#[derive(Clone, Copy, PartialEq, Eq, Debug)]
pub struct PageFlags(u8);

bitflag_items! {
    impl PageFlags: u8 {
        const WRITE = 1;
        const EXEC = 2;
    }
}

impl Flags for PageFlags {
    type Bits = u8;

    ghost exact = { ⊤ };

    ghost table = { (codes "WRITE", 1) ∷ (codes "EXEC", 2) ∷ [] };

    ghost set_of = { λ p. p.0 };

    fn flags<'a>() -> &'a [Flag<PageFlags>] {
        PageFlags::FLAGS
    }

    fn bits(&self) -> u8 {
        self.0
    }

    fn from_bits_retain(bits: u8) -> PageFlags {
        PageFlags(bits)
    }
}

impl PageFlags {
    /// Neither written nor executed.
    #[inline]
    pub fn none() -> PageFlags
        ensures { result ≡ record { 0 = 0 } }
    {
        PageFlags(0)
    }

    /// The flags of these bits.
    #[inline]
    pub fn of_bits(bits: u8) -> PageFlags
        ensures { result ≡ record { 0 = bits } }
    {
        PageFlags(bits)
    }

    /// The bits as a number, bit 0 to write, bit 1 to execute.
    #[inline]
    pub fn number(self) -> u8
        ensures { result ≡ self.0 }
    {
        self.0
    }
}
