//! The rows, by the states in which their decisions are judged.

ghost use Rattle.std.specs.Prelude.{◌≤◌};

use crate::judging::Verdict::{Changes, Forbidden, Keeps, Spent};
use crate::judging::{Row, Scene, Verdict, judge};
use spk_nums::{Cap, CoreNo, FrameNo, Kind, Reply, Value};
use std::test::Fail;

const START: Scene = Scene {
    script: "speck 1\ncores 2\nframes 32\ngrant 100 0 1\ngrant 100 0 1\n",
    inside: None,
};

// Core 1 kills the component in which both cores work.
const KILLED: Scene = Scene {
    script: "speck 1\ncores 2\nframes 32\ngrant 100 0 1\ngrant 100 0 1\ncore 1\nkill 3\n",
    inside: None,
};

// Core 0 has made its one call.
const MADE_ONE: Scene = Scene {
    script: "speck 1\ncores 2\nframes 32\ngrant 100 0 1\ngrant 100 0 1\ncalls 1\ncore 0\nlook 0\n",
    inside: None,
};

// Capability 20 may be copied, and not used.
const LESS_RIGHTS: Scene = Scene {
    script: "speck 2\ncores 2\nframes 32\ngrant 100 0 1\ngrant 100 0 1\ncore 0\ncopy 0 1 20 1\n",
    inside: None,
};

// Core 0 removes capability 20 while core 1 is in a call.
const REMOVED: Scene = Scene {
    script: "speck 1\ncores 2\nframes 32\ngrant 100 0 1\ngrant 100 0 1\ncore 0\ncopy 0 1 20\nremove 1 20\n",
    inside: Some(1),
};

// Core 0 unmaps a page, and flushes.
const UNMAPPED: Scene = Scene {
    script: "speck 1\ncores 2\nframes 32\ngrant 100 0 1\ngrant 100 0 1\ncore 0\nretype 0 8 kernel\nmake pleaf 0 8 1 20\ngrow 2 0 20\nretype 0 9 user\nmap 2 0 0 9 1\nunmap 2 0\nflush\n",
    inside: None,
};

const DONE: Reply = Reply::Ok(Value::Nothing);

fn row(core: u8, call: &'static str, reply: Reply, due: Verdict) -> Row {
    Row {
        core,
        call,
        reply,
        due,
    }
}

fn range(frames: u32) -> Reply
    requires { frames ≤ 24 }
{
    Reply::Ok(Value::Cap(Cap::new(Kind::Range, FrameNo::new(8), frames)))
}

// The ticks that were charged.
fn charged(ticks: u32) -> Reply {
    Reply::Ok(Value::Amount(ticks))
}

#[test]
fn a_refusal_is_permitted_by_each_cause_that_a_name_shows_and_by_no_other(
    rt: HostRuntime,
) -> Result<(), Fail> {
    let rows = [
        // Nothing has the number 9, the target is taken, and both stand beside each other.
        row(0, "copy 9 1 0", Reply::Empty, Keeps),
        row(0, "copy 9 1 0", Reply::Occupied, Keeps),
        row(0, "copy 9 1 0", Reply::WrongCap, Forbidden),
        row(0, "copy 9 1 0", Reply::NoSlot, Forbidden),
        row(0, "copy 9 1 0", Reply::NoRight, Forbidden),
        row(0, "copy 9 1 0", Reply::Quiescing(CoreNo::new(1)), Forbidden),
        row(0, "copy 9 1 0", Reply::Unflushed(CoreNo::new(1)), Forbidden),
        row(0, "copy 9 1 0", Reply::Dead, Forbidden),
        row(0, "copy 9 1 0", DONE, Forbidden),
        // What a name leads to is asked only where the name leads to it: of a table that is none no target is taken.
        row(0, "copy 9 3 0", Reply::Empty, Keeps),
        row(0, "copy 9 3 0", Reply::WrongCap, Keeps),
        row(0, "copy 9 3 0", Reply::Occupied, Forbidden),
        row(0, "copy 0 1 64", Reply::NoSlot, Keeps),
        row(0, "copy 0 1 4096", Reply::NoSlot, Keeps),
        row(0, "copy 0 1 64", Reply::Empty, Forbidden),
        // Own causes, whatever else stands.
        row(0, "retype 0 3 user", Reply::OutOfRange, Keeps),
        row(0, "retype 0 3 user", Reply::FrameKind, Keeps),
        row(0, "retype 0 3 user", Reply::Referenced(4), Forbidden),
        row(0, "retype 0 3 untyped", Reply::Referenced(4), Keeps),
        row(0, "retype 0 3 untyped", Reply::Referenced(3), Forbidden),
        row(0, "transfer 12 12 101", Reply::Same, Keeps),
        row(0, "transfer 12 12 101", Reply::Short(100), Keeps),
        row(0, "transfer 12 12 101", Reply::Short(99), Forbidden),
        row(0, "transfer 12 13 101", Reply::Unlike, Forbidden),
        row(0, "switch 5 12", Reply::Running(CoreNo::new(1)), Keeps),
        row(0, "switch 5 12", Reply::Running(CoreNo::new(0)), Forbidden),
        row(0, "ret", Reply::Bottom, Keeps),
        row(0, "touch 0", Reply::Fault, Keeps),
        row(0, "touch 4096", Reply::Fault, Forbidden),
    ];
    judge(&rt, rt.alloc(), &START, &rows)
}

#[test]
fn an_ok_is_permitted_with_its_value_alone(rt: HostRuntime) -> Result<(), Fail> {
    let rows = [
        row(0, "copy 0 1 20", DONE, Changes),
        row(0, "copy 0 1 20", charged(1), Forbidden),
        row(0, "look 0", range(24), Keeps),
        row(0, "look 0", range(23), Forbidden),
        row(0, "look 0", DONE, Forbidden),
        row(0, "tick 40", charged(40), Changes),
        row(0, "tick 40", charged(39), Forbidden),
        row(0, "tick 140", charged(100), Changes),
        row(0, "tick 140", charged(140), Forbidden),
        row(0, "test 12 13", Reply::Ok(Value::Stays), Keeps),
        row(0, "test 12 13", Reply::Ok(Value::Preempts), Forbidden),
        row(0, "transfer 12 13 100", DONE, Changes),
        row(0, "kill 3", DONE, Changes),
        row(0, "flush", DONE, Keeps),
    ];
    judge(&rt, rt.alloc(), &START, &rows)
}

#[test]
fn a_lost_race_is_permitted_and_owes_the_ticks_of_a_tick(rt: HostRuntime) -> Result<(), Fail> {
    let rows = [
        row(0, "copy 0 1 20", Reply::Raced, Keeps),
        row(0, "copy 0 1 20", Reply::Busy(CoreNo::new(1)), Keeps),
        row(0, "kill 3", Reply::Raced, Keeps),
        row(0, "tick 0", Reply::Raced, Keeps),
        row(0, "tick 40", Reply::Raced, Changes),
        row(0, "tick 40", Reply::Busy(CoreNo::new(1)), Changes),
    ];
    judge(&rt, rt.alloc(), &START, &rows)
}

#[test]
fn dead_is_permitted_where_a_call_asks_for_life(rt: HostRuntime) -> Result<(), Fail> {
    let rows = [
        row(0, "look 0", Reply::Dead, Keeps),
        row(0, "look 0", range(24), Forbidden),
        row(0, "look 9", Reply::Dead, Keeps),
        row(0, "look 9", Reply::Empty, Keeps),
        row(0, "kill 3", Reply::Dead, Keeps),
        row(0, "kill 3", DONE, Forbidden),
        row(0, "ret", Reply::Dead, Forbidden),
        row(0, "ret", Reply::Bottom, Keeps),
        row(0, "flush", Reply::Dead, Forbidden),
        row(0, "flush", DONE, Keeps),
        row(0, "tick 5", Reply::Dead, Forbidden),
        row(0, "tick 5", charged(5), Changes),
    ];
    judge(&rt, rt.alloc(), &KILLED, &rows)
}

#[test]
fn calls_spent_is_permitted_exactly_where_they_are(rt: HostRuntime) -> Result<(), Fail> {
    let rows = [
        row(0, "look 0", Reply::CallsSpent, Spent),
        row(0, "look 0", range(24), Forbidden),
        row(0, "look 0", Reply::Raced, Forbidden),
        row(0, "look 9", Reply::Empty, Forbidden),
        row(1, "look 0", Reply::CallsSpent, Forbidden),
        row(1, "look 0", range(24), Keeps),
    ];
    judge(&rt, rt.alloc(), &MADE_ONE, &rows)
}

#[test]
fn no_right_is_permitted_where_the_kind_fits(rt: HostRuntime) -> Result<(), Fail> {
    let rows = [
        row(0, "retype 20 8 user", Reply::NoRight, Keeps),
        row(0, "retype 20 8 user", Reply::WrongCap, Forbidden),
        row(0, "retype 20 8 user", DONE, Forbidden),
        row(0, "retype 0 8 user", Reply::NoRight, Forbidden),
        row(0, "kill 20", Reply::WrongCap, Keeps),
        row(0, "kill 20", Reply::NoRight, Forbidden),
        row(0, "copy 20 1 21", Reply::NoRight, Forbidden),
        row(0, "copy 20 1 21", DONE, Changes),
    ];
    judge(&rt, rt.alloc(), &LESS_RIGHTS, &rows)
}

#[test]
fn what_was_removed_may_be_found_and_may_be_missed_by_those_who_wait(
    rt: HostRuntime,
) -> Result<(), Fail> {
    let rows = [
        // Core 1 is in its call since before the removal.
        row(1, "look 20", range(24), Keeps),
        row(1, "look 20", Reply::Empty, Keeps),
        row(1, "kill 20", Reply::WrongCap, Keeps),
        row(1, "copy 0 1 20", DONE, Changes),
        row(1, "copy 0 1 20", Reply::Occupied, Forbidden),
        row(1, "remove 1 20", Reply::Empty, Keeps),
        row(1, "remove 1 20", DONE, Forbidden),
        // Core 0 begins its call after it.
        row(0, "look 20", range(24), Forbidden),
        row(0, "look 20", Reply::Empty, Keeps),
        row(0, "kill 20", Reply::WrongCap, Forbidden),
        row(0, "copy 0 1 20", DONE, Forbidden),
        row(0, "copy 0 1 20", Reply::Quiescing(CoreNo::new(1)), Keeps),
        row(
            0,
            "copy 0 1 20",
            Reply::Quiescing(CoreNo::new(0)),
            Forbidden,
        ),
        row(
            0,
            "copy 0 1 20",
            Reply::Unflushed(CoreNo::new(1)),
            Forbidden,
        ),
    ];
    judge(&rt, rt.alloc(), &REMOVED, &rows)
}

#[test]
fn what_was_unmapped_waits_for_the_flush_of_each_core(rt: HostRuntime) -> Result<(), Fail> {
    let rows = [
        row(0, "map 2 0 0 9 1", Reply::Unflushed(CoreNo::new(1)), Keeps),
        row(
            0,
            "map 2 0 0 9 1",
            Reply::Unflushed(CoreNo::new(0)),
            Forbidden,
        ),
        row(
            0,
            "map 2 0 0 9 1",
            Reply::Quiescing(CoreNo::new(1)),
            Forbidden,
        ),
        row(0, "map 2 0 0 9 1", DONE, Forbidden),
        row(0, "touch 0", Reply::Fault, Keeps),
        row(
            0,
            "retype 0 9 untyped",
            Reply::Unflushed(CoreNo::new(1)),
            Keeps,
        ),
        row(0, "retype 0 9 untyped", DONE, Forbidden),
        row(1, "flush", DONE, Keeps),
    ];
    judge(&rt, rt.alloc(), &UNMAPPED, &rows)
}
