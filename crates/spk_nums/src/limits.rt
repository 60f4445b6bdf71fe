//! The ranges of a call's arguments.

ghost use Rattle.std.specs.Prelude.{IsTrue, ◌↔◌};
ghost use Rattle.spk_nums.specs.CallLimits.{InLimits, MakeInLimits};

use crate::calls::{Call, Make};

/// Whether a call's arguments are in range: at most 1,000,000 ticks, rights and flags up to 3, schedulers and liveness numbers
/// below 64, qualities from 1 to 16,777,215. The other arguments may be any number of their types.
pub fn in_limits(call: &Call) -> bool
    ensures { IsTrue result ↔ InLimits call.now }
{
    match call {
        Call::Copy {
            a: _,
            t: _,
            b: _,
            rights,
        } => rights.number() < 4,
        Call::Make {
            what,
            range: _,
            frame: _,
            table: _,
            slot: _,
        } => make_in_limits(what),
        Call::Map {
            p: _,
            v: _,
            r: _,
            f: _,
            w,
        } => w.number() < 4,
        Call::Tick { n } => *n <= 1_000_000,
        _ => true,
    }
}

/// Whether an object to make has its scheduler, quality and liveness number in range.
fn make_in_limits(what: &Make) -> bool
    ensures { IsTrue result ↔ MakeInLimits what.now }
{
    match what {
        Make::Tcap { sched, quality } => *sched < 64 && 1 <= *quality && *quality < 16_777_216,
        Make::Comp {
            table: _,
            pages: _,
            live,
        } => *live < 64,
        _ => true,
    }
}
