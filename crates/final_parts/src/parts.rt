//! The parts, as C reads them.

ghost use Rattle.std.specs.Prelude.{◌≡◌};
ghost use Rattle.final_parts.specs.Kinds.{kind_code, fault_code};

use spk_nums::Kind;

/// Why there is no such part.
#[derive(Clone, Copy, PartialEq, Eq, Debug)]
pub enum NoPart {
    /// A number is outside the machine.
    Outside,
    /// The frame holds no such object.
    Kind,
    /// The place holds nothing.
    Empty,
}

impl NoPart {
    /// Its number for C: 255, 7 and 2, as `speck.h` names them.
    pub fn code(self) -> u8
        ensures { result ≡ fault_code self }
    {
        match self {
            NoPart::Outside => 255,
            NoPart::Kind => 7,
            NoPart::Empty => 2,
        }
    }
}

/// How large the machine is.
#[repr(C)]
#[derive(Clone, Copy, PartialEq, Eq, Debug)]
pub struct SizePart {
    /// The number of frames.
    pub frames: u16,
    /// The number of cores.
    pub cores: u8,
}

/// What a frame is.
#[repr(C)]
#[derive(Clone, Copy, PartialEq, Eq, Debug)]
pub struct FramePart {
    /// 0 untyped, 1 user, 2 kernel.
    pub kind: u8,
    /// The kind of the capability that names such an object, by its number; 255 where the frame holds none.
    pub object: u8,
}

/// A capability, or a mapping.
#[repr(C)]
#[derive(Clone, Copy, PartialEq, Eq, Debug)]
pub struct CapPart {
    /// Its kind, by its number.
    pub kind: u8,
    /// Its rights.
    pub rights: u8,
    /// Its frame.
    pub frame: u16,
    /// A range's length, a gate's epoch or a page's flags.
    pub argument: u32,
}

/// A component.
#[repr(C)]
#[derive(Clone, Copy, PartialEq, Eq, Debug)]
pub struct CompPart {
    /// The frame of the root of its capability table.
    pub table: u16,
    /// The frame of the root of its page table.
    pub pages: u16,
    /// Its epoch.
    pub epoch: u16,
    /// Its liveness number.
    pub live: u8,
}

/// A scheduler and the quality there.
#[repr(C)]
#[derive(Clone, Copy, PartialEq, Eq, Debug)]
pub struct QualityPart {
    /// The quality.
    pub quality: u32,
    /// The scheduler.
    pub sched: u8,
}

/// What a liveness number stands for.
#[repr(C)]
#[derive(Clone, Copy, PartialEq, Eq, Debug)]
pub struct LivePart {
    /// The epoch of the component that lives, or that was killed.
    pub epoch: u16,
    /// The frame of the component that lives; 0 where it was killed.
    pub frame: u16,
    /// 1 where the component lives, 0 where it was killed.
    pub lives: u8,
}

/// Where a core ended.
#[repr(C)]
#[derive(Clone, Copy, PartialEq, Eq, Debug)]
pub struct CorePart {
    /// The ticks charged on it.
    pub spent: u64,
    /// The ticks of these that it has had back.
    pub back: u64,
    /// The ticks that it owes.
    pub owed: u64,
    /// The frame of its thread.
    pub thread: u16,
    /// The frame of its temporal capability.
    pub tcap: u16,
    /// The frame of the component in which it works.
    pub comp: u16,
    /// How many translations it has cached.
    pub cached: u16,
}

/// A translation that a core has cached.
#[repr(C)]
#[derive(Clone, Copy, PartialEq, Eq, Debug)]
pub struct CachedPart {
    /// The frame of the root of the page table.
    pub pages: u16,
    /// The page.
    pub page: u16,
    /// The frame mapped there.
    pub frame: u16,
    /// Its flags.
    pub flags: u8,
}

/// The number of a kind of capability, from 0 in the order of its declaration.
pub fn kind_number(kind: Kind) -> u8
    ensures { result ≡ kind_code kind }
{
    match kind {
        Kind::Range => 0,
        Kind::Table => 1,
        Kind::Leaf => 2,
        Kind::Pages => 3,
        Kind::Pleaf => 4,
        Kind::Comp => 5,
        Kind::Gate => 6,
        Kind::Thread => 7,
        Kind::Tcap => 8,
        Kind::Link => 9,
        Kind::Page => 10,
    }
}
