//! Calls that are decided by the words found: refusals in the order in which they are judged, and words that no machine has.

use crate::driving::{copy, core_of, decided, look};
use spk_nums::{Call, CapId, CoreNo, FrameArg, FrameKind, Reply, Value, in_limits};

// The words of the core's component, of its liveness number, of the link to the leaf in frame 1, and of the table in frame 0.
const COMP: u64 = 0x40;

const LIVES: u64 = 0xc_0005;

const LINK: u64 = 0x65;

const TABLE: u64 = 5;

const RANGE: u64 = 0x2_0181;

// An entry that quiesces since the stamp 5, one that core 1 closes, and one that is none.
const QUIESCES: u64 = 0x53;

const CLOSING: u64 = 6;

const FOREIGN: u64 = 4;

// Counts of two references, with the stamp 5: held by no core, acquired by core 1; and a word of no count.
const TWO: u64 = 0x0000_1000_0000_0005;

const TWO_BY_1: u64 = 0x1000_1000_0000_0005;

const NO_COUNT: u64 = 0x8000_0000_0000_0000;

// Each of these rows: a call, the words that its steps find one after another, and the reply by which it is decided at the last of them.
fn are_decided(rows: &[(Call, &[u64], Reply)]) -> Option<usize> {
    let core = core_of(9)?;
    let mut at: usize = 0;
    for (call, found, reply) in rows {
        if !in_limits(call) || decided(&core, *call, found) != Some(*reply) {
            return Some(at);
        }
        at = at.saturating_add(1);
    }
    Some(at)
}

fn busy() -> Reply {
    Reply::Busy(CoreNo::new(1))
}

// Whether the call is decided with this reply where it finds this word of its component's liveness number.
fn is_asked(call: &Call, word: u64, reply: Reply) -> bool {
    let found = [1, COMP, word];
    let rows: [(Call, &[u64], Reply); 1] = [(*call, &found, reply)];
    are_decided(&rows) == Some(1)
}

#[test]
fn a_call_asks_whether_its_component_lives_before_all_else(rt: HostRuntime) {
    let calls = [look(63), look(4096), copy(63, 0)];
    let mut asked = true;
    for call in &calls {
        // Live in another epoch, dead, and closed by core 1.
        asked = asked
            && is_asked(call, 0xc_0009, Reply::Dead)
            && is_asked(call, 0x14_0007, Reply::Dead)
            && is_asked(call, 0x800_0006, busy());
    }
    assert!(rt; asked);
    let unasked: [(Call, &[u64], Reply); 2] = [
        (Call::Flush, &[1, 9], Reply::Ok(Value::Nothing)),
        (Call::Ret, &[1], Reply::Bottom),
    ];
    assert!(rt; are_decided(&unasked) == Some(2));
}

fn retype(f: u16) -> Call {
    Call::Retype {
        r: CapId::new(0),
        f: FrameArg::new(f),
        k: FrameKind::User,
    }
}

#[test]
fn a_call_is_refused_at_the_first_cause(rt: HostRuntime) {
    let rows: [(Call, &[u64], Reply); 10] = [
        (look(63), &[1, COMP, LIVES, LINK, 0], Reply::Empty),
        (look(0), &[1, COMP, LIVES, TABLE], Reply::NoSlot),
        (look(4096), &[1, COMP, LIVES], Reply::NoSlot),
        // After `empty` and `wrong-cap` of the second name the target is not judged.
        (copy(63, 0), &[1, COMP, LIVES, LINK, 0], Reply::Empty),
        (
            copy(0, 0),
            &[1, COMP, LIVES, LINK, RANGE, LINK, RANGE],
            Reply::WrongCap,
        ),
        (
            copy(0, 0),
            &[1, COMP, LIVES, LINK, RANGE, LINK, QUIESCES],
            Reply::Empty,
        ),
        (
            copy(0, 0),
            &[1, COMP, LIVES, LINK, RANGE, LINK, CLOSING],
            busy(),
        ),
        (
            copy(1, 20),
            &[1, COMP, LIVES, LINK, TABLE, LINK, TABLE, LINK, 0, TWO_BY_1],
            busy(),
        ),
        (retype(8), &[1, COMP, LIVES, LINK, RANGE], Reply::OutOfRange),
        (retype(6), &[1, COMP, LIVES, LINK, RANGE, 130], busy()),
    ];
    assert!(rt; are_decided(&rows) == Some(10));
}

#[test]
fn a_word_that_no_machine_has_is_raced(rt: HostRuntime) {
    // A component without a number, a number without an epoch, a link past the machine's frames, an entry, a count and a frame of none.
    let rows: [(Call, &[u64], Reply); 7] = [
        (look(0), &[1, 0], Reply::Raced),
        (look(0), &[1, COMP, 1], Reply::Raced),
        (look(0), &[1, COMP, LIVES, 549], Reply::Raced),
        (look(0), &[1, COMP, LIVES, LINK, FOREIGN], Reply::Raced),
        (
            copy(1, 20),
            &[1, COMP, LIVES, LINK, TABLE, LINK, TABLE, LINK, 0, NO_COUNT],
            Reply::Raced,
        ),
        (
            copy(1, 20),
            &[
                1, COMP, LIVES, LINK, TABLE, LINK, TABLE, LINK, 0, TWO, TWO, FOREIGN,
            ],
            Reply::Raced,
        ),
        (retype(6), &[1, COMP, LIVES, LINK, RANGE, 3], Reply::Raced),
    ];
    assert!(rt; are_decided(&rows) == Some(7));
}

#[test]
fn a_core_without_calls_is_told_so_at_its_first_step(rt: HostRuntime) {
    let Some(core) = core_of(0) else {
        panic!(rt; "no core");
    };
    assert!(rt; decided(&core, look(0), &[1]) == Some(Reply::CallsSpent));
}
