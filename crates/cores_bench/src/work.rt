//! What a core does, again and again.

ghost use Rattle.std.specs.Prelude.{IfSome};
ghost use Rattle.spk_nums.specs.CallLimits.{InLimits, MakeInLimits};

use spk_nums::{Call, CapId, EntryNo, FrameArg, FrameKind, Make, PageFlags, PageNo, Rights};

/// A kind of work. Each core has places of its own in the table at boot, eight of them, and a temporal capability of its own.
#[derive(Clone, Copy, PartialEq, Eq, Debug)]
pub enum Work {
    /// It looks at a capability that all look at.
    Look,
    /// It copies a range into a place of its own and removes it, at eight places in turn; those of a core stand on a line of the
    /// memory that no other core's stand on.
    CopyApart,
    /// The same, at places that stand beside those of the other cores.
    CopyBeside,
    /// As `CopyApart`, but what all cores copy is the capability of one object, whose references are counted.
    CopyObject,
    /// It lets a tick pass.
    Tick,
    /// It flushes.
    Flush,
    /// It maps a page, unmaps it and flushes. One core alone does this, and what is below.
    Map,
    /// It calls a component and returns.
    Call,
    /// It switches between two threads.
    Switch,
    /// It moves a tick to another core's temporal capability and back.
    Transfer,
    /// It asks for a page that is mapped.
    Touch,
    /// It delegates a tick to another core's temporal capability and back.
    Delegate,
    /// It asks whether its temporal capability preempts another core's.
    Test,
}

impl Work {
    /// The kinds that many cores do at once.
    pub fn of_many() -> [Work; 6] {
        [
            Work::Look,
            Work::CopyApart,
            Work::CopyBeside,
            Work::CopyObject,
            Work::Tick,
            Work::Flush,
        ]
    }

    /// The kinds of which one core's calls are counted and timed.
    pub fn of_one() -> [Work; 12] {
        [
            Work::Look,
            Work::CopyApart,
            Work::CopyObject,
            Work::Map,
            Work::Touch,
            Work::Tick,
            Work::Flush,
            Work::Call,
            Work::Switch,
            Work::Transfer,
            Work::Delegate,
            Work::Test,
        ]
    }

    /// What the kind is called in print.
    pub fn name(self) -> &'static str {
        match self {
            Work::Look => "look",
            Work::CopyApart => "copy and remove of a range, on lines apart",
            Work::CopyBeside => "copy and remove of a range, side by side",
            Work::CopyObject => "copy and remove of one object",
            Work::Tick => "tick",
            Work::Flush => "flush",
            Work::Map => "map, unmap and flush",
            Work::Call => "call and ret",
            Work::Switch => "switch",
            Work::Transfer => "transfer",
            Work::Touch => "touch",
            Work::Delegate => "delegate",
            Work::Test => "test",
        }
    }

    /// The word for it on the command line.
    pub fn word(self) -> &'static str {
        match self {
            Work::CopyApart => "range",
            Work::CopyBeside => "beside",
            Work::CopyObject => "object",
            Work::Map => "map",
            Work::Call => "call",
            _ => self.name(),
        }
    }

    /// How many cores a machine has at which one core does it.
    pub fn least_cores(self) -> u8 {
        match self {
            Work::Transfer | Work::Delegate | Work::Test => 2,
            _ => 1,
        }
    }

    /// The call of core 0 after so many that comes before the work, if there is one more.
    pub fn call_before(self, made: u32) -> Option<Call>
        ensures { IfSome result InLimits }
    {
        match (self, made) {
            (Work::Map | Work::Touch, 0) => Some(retype(8, FrameKind::Kernel)),
            (Work::Map | Work::Touch, 1) => Some(make(Make::Pleaf, 8, 21)),
            (Work::Map | Work::Touch, 2) => Some(Call::Grow {
                t: CapId::new(2),
                i: EntryNo::new(0),
                l: CapId::new(21),
            }),
            (Work::Map | Work::Touch, 3) => Some(retype(9, FrameKind::User)),
            (Work::Touch, 4) => Some(map_or_unmap(0)),
            (Work::Call, 0) => Some(retype(10, FrameKind::Kernel)),
            (Work::Call, 1) => Some(make_comp()),
            (Work::Call, 2) => Some(Call::Gate {
                c: CapId::new(22),
                t: CapId::new(1),
                b: CapId::new(23),
            }),
            (Work::Switch, 0) => Some(retype(8, FrameKind::Kernel)),
            (Work::Switch, 1) => Some(make_thread()),
            _ => None,
        }
    }

    /// The call that a core, of 0 to 3, makes after so many.
    pub fn call(self, core: u8, made: u32) -> Call
        ensures { InLimits result }
    {
        let lane = (core % 4) as u16;
        let turn = (made / 2 % 8) as u16;
        let even = made % 2 == 0;
        let (tcap, other) = if even { (12, 13) } else { (13, 12) };
        match self {
            Work::Look => Call::Look { a: CapId::new(0) },
            Work::CopyApart => copy_or_remove(0, 24 + 8 * lane + turn, even),
            Work::CopyBeside => copy_or_remove(0, 24 + 4 * turn + lane, even),
            Work::CopyObject => copy_or_remove(1, 24 + 8 * lane + turn, even),
            Work::Tick => Call::Tick { n: 1 },
            Work::Flush => Call::Flush,
            Work::Map => map_or_unmap(made % 3),
            Work::Call if even => Call::Call { g: CapId::new(23) },
            Work::Call => Call::Ret,
            Work::Switch => Call::Switch {
                h: CapId::new(if even { 20 } else { 4 }),
                q: CapId::new(12),
            },
            Work::Touch => Call::Touch { v: PageNo::new(5) },
            Work::Transfer => Call::Transfer {
                a: CapId::new(tcap),
                b: CapId::new(other),
                m: 1,
            },
            Work::Delegate => Call::Delegate {
                a: CapId::new(tcap),
                b: CapId::new(other),
                m: 1,
            },
            Work::Test => Call::Test {
                a: CapId::new(12),
                b: CapId::new(13),
            },
        }
    }
}

// A copy of the capability into the place, or its removal from there.
fn copy_or_remove(a: u16, place: u16, copies: bool) -> Call
    ensures { InLimits result }
{
    let t = CapId::new(1);
    let b = CapId::new(place);
    if copies {
        Call::Copy {
            a: CapId::new(a),
            t,
            b,
            rights: Rights::both(),
        }
    } else {
        Call::Remove { t, b }
    }
}

// The calls on page 5, in turn.
fn map_or_unmap(turn: u32) -> Call
    ensures { InLimits result }
{
    let p = CapId::new(2);
    let v = PageNo::new(5);
    match turn {
        0 => Call::Map {
            p,
            v,
            r: CapId::new(0),
            f: FrameArg::new(9),
            w: PageFlags::of_bits(3),
        },
        1 => Call::Unmap { p, v },
        _ => Call::Flush,
    }
}

fn retype(f: u16, k: FrameKind) -> Call
    ensures { InLimits result }
{
    Call::Retype {
        r: CapId::new(0),
        f: FrameArg::new(f),
        k,
    }
}

fn make(what: Make, frame: u16, slot: u16) -> Call
    requires { MakeInLimits what }
    ensures { InLimits result }
{
    Call::Make {
        what,
        range: CapId::new(0),
        frame: FrameArg::new(frame),
        table: CapId::new(1),
        slot: CapId::new(slot),
    }
}

// A component with the table and the pages of the start.
fn make_comp() -> Call
    ensures { InLimits result }
{
    let what = Make::Comp {
        table: CapId::new(1),
        pages: CapId::new(2),
        live: 5,
    };
    make(what, 10, 22)
}

fn make_thread() -> Call
    ensures { InLimits result }
{
    let what = Make::Thread {
        comp: CapId::new(3),
    };
    make(what, 8, 20)
}
