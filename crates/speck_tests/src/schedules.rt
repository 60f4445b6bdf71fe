//! The command `run` in each order of the calls of two cores.
//!
//! A gate is asked between calls alone; within a call nothing is asked. So each order of whole calls can be forced here, and
//! no order of the single steps within them: those orders are the items of a script, which `replay` follows.
//!
//! No core is in a call while another makes one of these. So each is answered as by the sequential kernel after the calls
//! before it: a look answers what the place holds; a copy is refused where what it names is empty or its target is held,
//! and else its target holds the same; a remove empties its target, which may then be filled again.

ghost use Rattle.std.specs.Prelude.{◌≡◌, false};

use crate::shared::{FROM_ENTRIES, MACHINE, TO_ENTRIES, runs};
use speck_run::{Gate, Status};
use spk_nums::CoreNo;
use std::alloc::Global;
use std::sync::atomic::{AtomicU64, Ordering};
use std::test::Fail;
use std::thread::Threads;

// The orders of two calls of core 0 and two of core 1.
const ORDERS: [[u8; 4]; 6] = [
    [0, 0, 1, 1],
    [0, 1, 0, 1],
    [0, 1, 1, 0],
    [1, 0, 0, 1],
    [1, 0, 1, 0],
    [1, 1, 0, 0],
];

const OK: &str = "ok";

const RANGE: &str = "ok range 8 24";

const EMPTY: &str = "empty";

const OCCUPIED: &str = "occupied";

// Lets the calls of two cores go on in one order of their cores, each once the one before it has returned. A core shows
// that its call has returned by asking for the next one; so a list has a further call at its end, which goes on once
// all calls of the order have returned.
#[derive(Drop)]
struct InOrder {
    order: [u8; 4],
    returned: AtomicU64,
}

// How many calls of the order come before the core's next one, where it has made so many. Behind its last one all do.
fn calls_before(order: &[u8], core: u8, made: u64) -> u64 {
    let mut left = made;
    for (at, next) in order.iter().enumerate() {
        if *next == core {
            if left == 0 {
                return at as u64;
            }
            left -= 1;
        }
    }
    order.len() as u64
}

impl Gate for InOrder {
    ghost use Rattle.std.specs.Prelude.{false};

    ghost is_free = { λ _. false };

    fn may_go(&self, core: CoreNo, made: u64) -> bool {
        if made > 0 {
            let _before = self.returned.fetch_add(1, Ordering::SeqCst);
        }
        let before = calls_before(self.order.as_slice(), core.number(), made);
        for _ in 0..2_000_000_000u32 {
            if self.returned.load(Ordering::SeqCst) >= before {
                return true;
            }
        }
        false
    }
}

// Whether the calls, two of core 0 and two of core 1, are answered so in this order, and the tables are then the
// start's with these entry lines added.
fn is_answered<R: Threads + Sync>(
    rt: &R,
    alloc: Global,
    calls: &[&str; 4],
    order: &[u8; 4],
    replies: &[&str; 4],
    added: &str,
) -> Result<bool, Fail> {
    let [c0, c1, c2, c3] = *calls;
    let [r0, r1, r2, r3] = *replies;
    let script = format!(in alloc;
        "{MACHINE}core 0\n{c0}\n{c1}\nlook 0\ncore 1\n{c2}\n{c3}\nlook 0\n"
    )?;
    let replies = format!(in alloc;
        "0.1 {c0} = {r0}\n0.2 {c1} = {r1}\n0.3 look 0 = {RANGE}\n1.1 {c2} = {r2}\n1.2 {c3} = {r3}\n1.3 look 0 = {RANGE}\n"
    )?;
    let text = format!(in alloc; "{replies}{TO_ENTRIES}{added}{FROM_ENTRIES}")?;
    let gate = InOrder {
        order: *order,
        returned: AtomicU64::new(0),
    };
    runs(rt, alloc, &gate, &script, Status::Done, &text)
}

#[test]
fn calls_on_places_of_their_own_are_answered_the_same_in_each_order(
    rt: HostRuntime,
) -> Result<(), Fail> {
    let calls = ["copy 0 1 20", "look 20", "copy 0 1 21", "look 21"];
    let added = "  20 range 8 24\n  21 range 8 24\n";
    for order in ORDERS {
        let replies = [OK, RANGE, OK, RANGE];
        assert!(rt;
            is_answered(&rt, rt.alloc(), &calls, &order, &replies, added)?,
            "{order:?}"
        );
    }
    Ok(())
}

#[test]
fn the_first_copy_to_a_place_is_the_one_carried_out(rt: HostRuntime) -> Result<(), Fail> {
    let calls = ["copy 0 1 20", "look 20", "look 20", "copy 0 1 20"];
    // A copy finds the place free or occupied, and a look finds it empty or held, by what has returned before.
    let replies = [
        [OK, RANGE, RANGE, OCCUPIED],
        [OK, RANGE, RANGE, OCCUPIED],
        [OK, RANGE, RANGE, OCCUPIED],
        [OK, RANGE, EMPTY, OCCUPIED],
        [OK, RANGE, EMPTY, OCCUPIED],
        [OCCUPIED, RANGE, EMPTY, OK],
    ];
    for (order, wanted) in ORDERS.iter().zip(replies.iter()) {
        let added = "  20 range 8 24\n";
        assert!(rt;
            is_answered(&rt, rt.alloc(), &calls, order, wanted, added)?,
            "{order:?}"
        );
    }
    Ok(())
}

#[test]
fn a_call_finds_what_those_before_it_have_copied(rt: HostRuntime) -> Result<(), Fail> {
    // Each core copies what the other one has copied, if it has by then.
    let calls = ["copy 0 1 20", "copy 21 1 22", "copy 20 1 21", "look 22"];
    let rows = [
        ([OK, EMPTY, OK, EMPTY], "  20 range 8 24\n  21 range 8 24\n"),
        (
            [OK, OK, OK, RANGE],
            "  20 range 8 24\n  21 range 8 24\n  22 range 8 24\n",
        ),
        (
            [OK, OK, OK, EMPTY],
            "  20 range 8 24\n  21 range 8 24\n  22 range 8 24\n",
        ),
        ([OK, EMPTY, EMPTY, EMPTY], "  20 range 8 24\n"),
        ([OK, EMPTY, EMPTY, EMPTY], "  20 range 8 24\n"),
        ([OK, EMPTY, EMPTY, EMPTY], "  20 range 8 24\n"),
    ];
    for (order, row) in ORDERS.iter().zip(rows.iter()) {
        assert!(rt;
            is_answered(&rt, rt.alloc(), &calls, order, &row.0, row.1)?,
            "{order:?}"
        );
    }
    Ok(())
}

#[test]
fn a_removed_place_is_empty_and_may_be_filled_again(rt: HostRuntime) -> Result<(), Fail> {
    let calls = ["copy 0 1 20", "remove 1 20", "look 20", "copy 0 1 20"];
    let rows = [
        ([OK, OK, EMPTY, OK], "  20 range 8 24\n"),
        ([OK, OK, RANGE, OK], "  20 range 8 24\n"),
        ([OK, OK, RANGE, OCCUPIED], ""),
        ([OK, OK, EMPTY, OK], "  20 range 8 24\n"),
        ([OK, OK, EMPTY, OCCUPIED], ""),
        ([OCCUPIED, OK, EMPTY, OK], ""),
    ];
    for (order, row) in ORDERS.iter().zip(rows.iter()) {
        assert!(rt;
            is_answered(&rt, rt.alloc(), &calls, order, &row.0, row.1)?,
            "{order:?}"
        );
    }
    Ok(())
}
