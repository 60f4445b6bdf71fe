//! The calls that are made again and again.

ghost use Rattle.spk_nums.specs.CallLimits.{InLimits};

use spk_nums::{Call, CapId, FrameArg, FrameKind, Make, Rights};

/// Makes frame 8 a kernel frame.
pub fn prepare() -> Call
    ensures { InLimits result }
{
    Call::Retype {
        r: CapId::new(0),
        f: FrameArg::new(8),
        k: FrameKind::Kernel,
    }
}

/// Makes a table in frame 8, whose capability is put into the entry 20.
pub fn make() -> Call
    ensures { InLimits result }
{
    Call::Make {
        what: Make::Table,
        range: CapId::new(0),
        frame: FrameArg::new(8),
        table: CapId::new(1),
        slot: CapId::new(20),
    }
}

/// Puts the capability 20 into this entry too.
pub fn copy(entry: u16) -> Call
    ensures { InLimits result }
{
    Call::Copy {
        a: CapId::new(20),
        t: CapId::new(1),
        b: CapId::new(entry),
        rights: Rights::both(),
    }
}

/// Removes an entry.
pub fn remove(entry: u16) -> Call
    ensures { InLimits result }
{
    Call::Remove {
        t: CapId::new(1),
        b: CapId::new(entry),
    }
}

/// Makes frame 8 untyped again.
pub fn clear() -> Call
    ensures { InLimits result }
{
    Call::Retype {
        r: CapId::new(0),
        f: FrameArg::new(8),
        k: FrameKind::Untyped,
    }
}

/// Answers the capability 0.
pub fn look() -> Call
    ensures { InLimits result }
{
    Call::Look { a: CapId::new(0) }
}

/// Says that the core has flushed what it may still translate.
pub fn flush() -> Call
    ensures { InLimits result }
{
    Call::Flush
}
