use spk_nums::{
    Call, Cap, CapId, CoreNo, Decision, EntryNo, FrameArg, FrameKind, FrameNo, Kind, Make,
    PageFlags, PageNo, Reply, ReplyLine, Rights, Value, call_name, reply_name, reply_number,
};
use std::alloc::Global;
use std::fmt::Display;
use std::test::Fail;

// Whether a value prints as this text.
fn prints<T: Display>(alloc: Global, value: &T, text: &str) -> Result<bool, Fail> {
    let printed = value.to_string(alloc)?;
    Ok(printed.as_str() == text)
}

fn id(number: u16) -> CapId {
    CapId::new(number)
}

fn made(what: Make) -> Call {
    Call::Make {
        what,
        range: id(0),
        frame: FrameArg::new(8),
        table: id(1),
        slot: id(20),
    }
}

#[test]
fn looks_copies_and_removals_print_as_they_are_written(rt: HostRuntime) -> Result<(), Fail> {
    let alloc = rt.alloc();
    assert!(rt; prints(alloc, &Call::Look { a: id(65535) }, "look 65535")?);
    assert!(rt;
        prints(
            alloc,
            &Call::Copy {
                a: id(0),
                t: id(1),
                b: id(20),
                rights: Rights::both()
            },
            "copy 0 1 20"
        )?
    );
    assert!(rt;
        prints(
            alloc,
            &Call::Copy {
                a: id(0),
                t: id(1),
                b: id(20),
                rights: Rights::COPY
            },
            "copy 0 1 20 1"
        )?
    );
    assert!(rt;
        prints(
            alloc,
            &Call::Remove {
                t: id(1),
                b: id(20)
            },
            "remove 1 20"
        )?
    );
    Ok(())
}

#[test]
fn grows_shrinks_and_retypes_print_as_they_are_written(rt: HostRuntime) -> Result<(), Fail> {
    let alloc = rt.alloc();
    assert!(rt;
        prints(
            alloc,
            &Call::Grow {
                t: id(2),
                i: EntryNo::new(0),
                l: id(20)
            },
            "grow 2 0 20"
        )?
    );
    assert!(rt;
        prints(
            alloc,
            &Call::Shrink {
                t: id(1),
                i: EntryNo::new(63)
            },
            "shrink 1 63"
        )?
    );
    assert!(rt;
        prints(
            alloc,
            &Call::Retype {
                r: id(0),
                f: FrameArg::new(9),
                k: FrameKind::Untyped
            },
            "retype 0 9 untyped"
        )?
    );
    Ok(())
}

#[test]
fn parts_print_as_they_are_written(rt: HostRuntime) -> Result<(), Fail> {
    let alloc = rt.alloc();
    assert!(rt;
        prints(
            alloc,
            &Call::Part {
                r: id(0),
                f: FrameArg::new(16),
                n: 8,
                t: id(1),
                b: id(20)
            },
            "part 0 16 8 1 20"
        )?
    );
    Ok(())
}

#[test]
fn replenishments_print_as_they_are_written(rt: HostRuntime) -> Result<(), Fail> {
    let alloc = rt.alloc();
    assert!(rt;
        prints(
            alloc,
            &Call::Replenish {
                a: id(12),
                m: 4_000_000_000
            },
            "replenish 12 4000000000"
        )?
    );
    Ok(())
}

#[test]
fn makes_print_as_they_are_written(rt: HostRuntime) -> Result<(), Fail> {
    let alloc = rt.alloc();
    assert!(rt; prints(alloc, &made(Make::Table), "make table 0 8 1 20")?);
    assert!(rt; prints(alloc, &made(Make::Leaf), "make leaf 0 8 1 20")?);
    assert!(rt; prints(alloc, &made(Make::Pages), "make pages 0 8 1 20")?);
    assert!(rt; prints(alloc, &made(Make::Pleaf), "make pleaf 0 8 1 20")?);
    assert!(rt;
        prints(
            alloc,
            &made(Make::Thread { comp: id(3) }),
            "make thread 0 8 1 20 3"
        )?
    );
    assert!(rt;
        prints(
            alloc,
            &made(Make::Tcap {
                sched: 0,
                quality: 5
            }),
            "make tcap 0 8 1 20 0 5"
        )?
    );
    assert!(rt;
        prints(
            alloc,
            &made(Make::Comp {
                table: id(1),
                pages: id(2),
                live: 7
            }),
            "make comp 0 8 1 20 1 2 7"
        )?
    );
    assert_eq!(rt; call_name(&made(Make::Leaf)), "make");
    Ok(())
}

#[test]
fn calls_on_pages_print_as_they_are_written(rt: HostRuntime) -> Result<(), Fail> {
    let alloc = rt.alloc();
    assert!(rt;
        prints(
            alloc,
            &Call::Map {
                p: id(2),
                v: PageNo::new(0),
                r: id(0),
                f: FrameArg::new(9),
                w: PageFlags::WRITE
            },
            "map 2 0 0 9 1"
        )?
    );
    assert!(rt;
        prints(
            alloc,
            &Call::Unmap {
                p: id(2),
                v: PageNo::new(4095)
            },
            "unmap 2 4095"
        )?
    );
    assert!(rt; prints(alloc, &Call::Touch { v: PageNo::new(3) }, "touch 3")?);
    assert!(rt; prints(alloc, &Call::Flush, "flush")?);
    Ok(())
}

#[test]
fn calls_on_components_and_threads_print_as_they_are_written(rt: HostRuntime) -> Result<(), Fail> {
    let alloc = rt.alloc();
    assert!(rt;
        prints(
            alloc,
            &Call::Gate {
                c: id(3),
                t: id(1),
                b: id(20)
            },
            "gate 3 1 20"
        )?
    );
    assert!(rt; prints(alloc, &Call::Kill { c: id(3) }, "kill 3")?);
    assert!(rt; prints(alloc, &Call::Call { g: id(20) }, "call 20")?);
    assert!(rt; prints(alloc, &Call::Ret, "ret")?);
    assert!(rt;
        prints(
            alloc,
            &Call::Switch {
                h: id(4),
                q: id(12)
            },
            "switch 4 12"
        )?
    );
    Ok(())
}

#[test]
fn calls_on_budgets_print_as_they_are_written(rt: HostRuntime) -> Result<(), Fail> {
    let alloc = rt.alloc();
    assert!(rt; prints(alloc, &Call::Tick { n: 1000000 }, "tick 1000000")?);
    assert!(rt;
        prints(
            alloc,
            &Call::Transfer {
                a: id(12),
                b: id(13),
                m: 50
            },
            "transfer 12 13 50"
        )?
    );
    assert!(rt;
        prints(
            alloc,
            &Call::Delegate {
                a: id(12),
                b: id(20),
                m: 0
            },
            "delegate 12 20 0"
        )?
    );
    assert!(rt;
        prints(
            alloc,
            &Call::Test {
                a: id(12),
                b: id(13)
            },
            "test 12 13"
        )?
    );
    Ok(())
}

#[test]
fn answers_and_capabilities_print_what_they_tell(rt: HostRuntime) -> Result<(), Fail> {
    let alloc = rt.alloc();
    let range = Cap::new(Kind::Range, FrameNo::new(8), 24);
    assert!(rt; prints(alloc, &Reply::Ok(Value::Nothing), "ok")?);
    assert!(rt; prints(alloc, &Reply::Ok(Value::Cap(range)), "ok range 8 24")?);
    assert!(rt; prints(alloc, &Cap::new(Kind::Gate, FrameNo::new(3), 1), "gate 3 1")?);
    assert!(rt; prints(alloc, &Cap::new(Kind::Link, FrameNo::new(1), 0), "link 1")?);
    assert!(rt;
        prints(
            alloc,
            &Reply::Ok(Value::Page {
                frame: FrameNo::new(9),
                flags: PageFlags::WRITE
            }),
            "ok 9 1"
        )?
    );
    assert!(rt; prints(alloc, &Reply::Ok(Value::Amount(5)), "ok 5")?);
    assert!(rt; prints(alloc, &Reply::Ok(Value::Preempts), "ok preempts")?);
    Ok(())
}

#[test]
fn replies_print_their_word_and_number(rt: HostRuntime) -> Result<(), Fail> {
    let alloc = rt.alloc();
    let core = CoreNo::new(1);
    assert!(rt; prints(alloc, &Reply::Quiescing(core), "quiescing 1")?);
    assert!(rt; prints(alloc, &Reply::Referenced(2), "referenced 2")?);
    assert!(rt; prints(alloc, &Reply::CallsSpent, "calls-spent")?);
    assert!(rt; prints(alloc, &Reply::NoRight, "no-right")?);
    assert!(rt;
        prints(
            alloc,
            &Decision {
                core,
                index: 3,
                reply: Reply::Busy(CoreNo::new(0))
            },
            "1.3 = busy 0"
        )?
    );
    assert_eq!(rt; reply_name(&Reply::TooMany), "too-many");
    assert_eq!(rt; reply_number(&Reply::Raced), 20);
    let line = ReplyLine {
        core,
        index: 1,
        call: &Call::Ret,
        reply: &Reply::Bottom,
    };
    assert!(rt; prints(alloc, &line, "1.1 ret = bottom\n")?);
    Ok(())
}
