//! A core that is driven by hand: each of its steps finds a word, as one of a machine would.

ghost use Rattle.spk_nums.specs.CallLimits.{InLimits};

use call_steps::{Absorbed, CoreState};
use spk_nums::{Call, CapId, CoreNo, Grant, Grants, Reply, Rights, Setup, Value, WordOp};

/// Core 0 of a machine of one core and eight frames, which makes at most so many calls. Its words: the count of frame 0 at 520, the core
/// word at 528, the word of its component at 194, that of the liveness number 0 at 530, and the clock at 594.
pub fn core_of(calls: u64) -> Option<CoreState> {
    let mut grants = Grants::empty();
    let _added = grants.add(Grant {
        budget: 100,
        sched: 0,
        quality: 1,
    });
    let setup = Setup::new(1, 8, grants, calls, 1)?;
    if setup.cores() < 1 {
        return None;
    }
    Some(CoreState::start(CoreNo::new(0), &setup))
}

/// The reply by which a call is decided at the last of its steps that find these words, and at none before; None where it is not so.
pub fn decided(core: &CoreState, call: Call, found: &[u64]) -> Option<Reply>
    requires { InLimits call }
{
    let mut core = *core;
    if core.in_call() {
        return None;
    }
    core.begin(call);
    for (at, word) in found.iter().enumerate() {
        if !core.in_call() {
            return None;
        }
        match core.absorb(*word) {
            Absorbed::Going => {}
            Absorbed::Decided(reply) if at + 1 == found.len() => return Some(reply),
            _ => return None,
        }
    }
    None
}

/// A look at this capability.
pub fn look(a: u16) -> Call
    ensures { InLimits result }
{
    Call::Look { a: CapId::new(a) }
}

/// A copy into the table 1 that keeps both rights.
pub fn copy(a: u16, b: u16) -> Call
    ensures { InLimits result }
{
    Call::Copy {
        a: CapId::new(a),
        t: CapId::new(1),
        b: CapId::new(b),
        rights: Rights::both(),
    }
}

// A step, the word that it finds, what the core is then told, and whether the call is ready before it.
type Row = (WordOp, u64, Absorbed, bool);

// How many steps of the core's call are as wanted, from its first step on.
fn steps_alike(core: &mut CoreState, rows: &[Row]) -> usize {
    for (at, row) in rows.iter().enumerate() {
        let layout = *core.layout();
        if !core.in_call() || core.is_ready() != row.3 || core.next_op(&layout) != row.0 {
            return at;
        }
        if core.absorb(row.1) != row.2 {
            return at;
        }
    }
    rows.len()
}

// A load that finds this word, and a step that finds what it expects or stores, after which the call goes on.
fn loads(at: u32, found: u64, ready: bool) -> Row {
    (WordOp::Load { at }, found, Absorbed::Going, ready)
}

fn stores(at: u32, word: u64, ready: bool) -> Row {
    (WordOp::Store { at, word }, word, Absorbed::Going, ready)
}

// Counts of frame 0 of two references and of three, held by no core, and of two, which core 0 has acquired; each with the stamp 5.
const TWO: u64 = 0x0000_1000_0000_0005;

const THREE: u64 = 0x0000_1800_0000_0005;

const TWO_BY_0: u64 = 0x0800_1000_0000_0005;

// A copy of the table in frame 0 into the place 20. The leaf in frame 1 has the table in its entry 1, and nothing in its entry 20.
#[test]
fn a_copy_makes_fifteen_steps_and_is_ready_at_the_compare_of_its_target(rt: HostRuntime) {
    let acquires = WordOp::Compare {
        at: 520,
        expected: TWO,
        word: TWO_BY_0,
    };
    let fills = WordOp::Compare {
        at: 84,
        expected: 0,
        word: 5,
    };
    let leaves = WordOp::Store { at: 528, word: 14 };
    let rows = [
        stores(528, 1, false),
        loads(194, 0x40, false),
        loads(530, 0xc_0005, false),
        loads(0, 0x65, false),
        loads(65, 5, false),
        loads(0, 0x65, false),
        loads(65, 5, false),
        loads(0, 0x65, false),
        loads(84, 0, false),
        loads(520, TWO, false),
        (acquires, TWO, Absorbed::Going, false),
        (fills, 0, Absorbed::Decided(Reply::Ok(Value::Nothing)), true),
        stores(520, THREE, true),
        loads(594, 7, true),
        (
            leaves,
            14,
            Absorbed::Returned(Reply::Ok(Value::Nothing)),
            true,
        ),
    ];
    let Some(mut core) = core_of(9) else {
        panic!(rt; "no core");
    };
    if core.in_call() {
        panic!(rt; "in a call");
    }
    core.begin(copy(1, 20));
    assert!(rt; steps_alike(&mut core, &rows) == 15);
    assert!(rt; !core.in_call());
    assert!(rt; core.made() == 1);
    assert!(rt; core.steps_made() == None);
}
