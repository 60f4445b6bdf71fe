//! The plans of calls, each by a row of what the calls' steps are.

use call_plans::{Decides, TargetKind, bound, plan_of};
use spk_nums::{Call, CapId, EntryNo, FrameArg, FrameKind, Make, PageNo, Rights};

// Whether a call asks for life, its names, target, counts, deciding step, and bound on a machine of 2 cores.
fn row(call: Call) -> (bool, u8, TargetKind, u8, Decides, u32) {
    let plan = plan_of(&call);
    (
        plan.living,
        plan.names.count(),
        plan.target.kind(),
        plan.pins,
        plan.decides,
        bound(&call, 2),
    )
}

fn cap(number: u16) -> CapId {
    CapId::new(number)
}

#[test]
fn calls_have_their_plans(rt: HostRuntime) {
    let (a, t, b) = (cap(0), cap(1), cap(20));
    let i = EntryNo::new(3);
    let frame = FrameArg::new(9);
    let make = |what| Call::Make {
        what,
        range: a,
        frame,
        table: t,
        slot: b,
    };
    let retype = |k| Call::Retype { r: a, f: frame, k };
    let comp = Make::Comp {
        table: t,
        pages: b,
        live: 1,
    };
    let nowhere = TargetKind::Nowhere;
    let place = TargetKind::Place;
    let root = TargetKind::Root;
    let rows = [
        (
            Call::Look { a },
            (true, 1, nowhere, 0, Decides::LeafEntry, 7),
        ),
        (
            Call::Copy {
                a,
                t,
                b,
                rights: Rights::both(),
            },
            (true, 2, place, 1, Decides::Target, 16),
        ),
        (
            Call::Remove { t, b },
            (true, 1, place, 1, Decides::Draw, 15),
        ),
        (
            Call::Grow { t, i, l: a },
            (true, 2, root, 1, Decides::Target, 17),
        ),
        (Call::Shrink { t, i }, (true, 1, root, 1, Decides::Draw, 14)),
        (
            retype(FrameKind::Kernel),
            (true, 1, nowhere, 0, Decides::FrameWord, 9),
        ),
        (
            retype(FrameKind::Untyped),
            (true, 1, nowhere, 2, Decides::Draw, 84),
        ),
        (make(Make::Pleaf), (true, 2, place, 1, Decides::Target, 83)),
        (
            make(Make::Thread { comp: a }),
            (true, 3, place, 2, Decides::Target, 41),
        ),
        (make(comp), (true, 4, place, 3, Decides::Target, 36)),
        (
            Call::Touch { v: PageNo::new(0) },
            (true, 0, nowhere, 0, Decides::Translation, 7),
        ),
        (Call::Flush, (false, 0, nowhere, 0, Decides::Clock, 5)),
        (
            Call::Call { g: a },
            (true, 1, nowhere, 1, Decides::LiveWord, 16),
        ),
        (Call::Ret, (false, 0, nowhere, 1, Decides::Draw, 12)),
        (
            Call::Switch { h: a, q: t },
            (true, 2, nowhere, 4, Decides::Draw, 30),
        ),
        (
            Call::Tick { n: 1 },
            (false, 0, nowhere, 0, Decides::Head, 5),
        ),
        (
            Call::Delegate { a, b: t, m: 1 },
            (true, 2, nowhere, 0, Decides::HeadB, 39),
        ),
        (
            Call::Test { a, b: t },
            (true, 2, nowhere, 0, Decides::HeadBAgain, 30),
        ),
        (
            Call::Part {
                r: a,
                f: frame,
                n: 4,
                t,
                b,
            },
            (true, 2, place, 0, Decides::Target, 13),
        ),
        (
            Call::Replenish { a, m: 1 },
            (true, 1, nowhere, 0, Decides::Head, 17),
        ),
    ];
    for (call, wanted) in rows {
        assert!(rt; row(call) == wanted, "{call:?}");
    }
}
