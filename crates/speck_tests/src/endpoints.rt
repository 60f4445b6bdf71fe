//! The command `ends` at gates, and by eight cores at once.

ghost use Rattle.std.specs.Prelude.{◌≡◌, false};

use crate::shared::{by_words, list_of};
use byte_ends::{MemSink, MemSource};
use speck_run::{FreeGate, Gate, Status, speck};
use spk_nums::CoreNo;
use std::alloc::Global;
use std::str::from_utf8;
use std::sync::atomic::{AtomicU64, Ordering};
use std::test::Fail;

// A list of one call of core 0, and then two sends of each core.
const TWO_SENDS_EACH: &str =
    "speck 1\ncores 2\nframes 32\ngrant 100 0 1\ngrant 100 0 1\ncore 0\ngate 3 1 20\nends\ncore 0\nsend 20\nsend 20\ncore 1\nsend 20\nsend 20\n";

const FOUR_SENDS: &str =
    "0.1 gate 3 1 20 = ok\n0.1 send 20 = ok\n0.2 send 20 = ok\n1.1 send 20 = ok\n1.2 send 20 = ok\nend 3 sent 4 taken 0 left 4\n";

// Lets core 0 make its first send once core 1 asks for its second one, and core 1 its first once core 0 has asked for its
// first. It counts how often it was asked, and how often it has answered false.
#[derive(Drop)]
struct Crossing {
    first_of_0: AtomicU64,
    second_of_1: AtomicU64,
    asked: AtomicU64,
    refused: AtomicU64,
}

impl Crossing {
    fn new() -> Crossing {
        Crossing {
            first_of_0: AtomicU64::new(0),
            second_of_1: AtomicU64::new(0),
            asked: AtomicU64::new(0),
            refused: AtomicU64::new(0),
        }
    }
}

// Whether the flag was raised within so many loads.
fn is_raised(flag: &AtomicU64) -> bool {
    for _ in 0..200_000_000u32 {
        if flag.load(Ordering::SeqCst) > 0 {
            return true;
        }
    }
    false
}

impl Gate for Crossing {
    ghost use Rattle.std.specs.Prelude.{false};

    ghost is_free = { λ _. false };

    fn may_go(&self, core: CoreNo, made: u64) -> bool {
        let _asked = self.asked.fetch_add(1, Ordering::SeqCst);
        let goes = match (core.number(), made) {
            (0, 1) => {
                self.first_of_0.store(1, Ordering::SeqCst);
                is_raised(&self.second_of_1)
            }
            (1, 0) => is_raised(&self.first_of_0),
            (1, 1) => {
                self.second_of_1.store(1, Ordering::SeqCst);
                true
            }
            _ => true,
        };
        if !goes {
            let _refused = self.refused.fetch_add(1, Ordering::SeqCst);
        }
        goes
    }
}

// A gate that lets a core make one call.
struct Once;

impl Gate for Once {
    ghost use Rattle.std.specs.Prelude.{false};

    ghost is_free = { λ _. false };

    fn may_go(&self, _core: CoreNo, made: u64) -> bool {
        made < 1
    }
}

#[test]
fn endpoint_calls_go_by_threads_of_their_own(rt: HostRuntime) -> Result<(), Fail> {
    let gate = Crossing::new();
    assert!(rt;
        by_words(
            &rt,
            rt.alloc(),
            &gate,
            "ends",
            TWO_SENDS_EACH,
            Status::Done,
            FOUR_SENDS
        )?
    );
    assert_eq!(rt; gate.asked.load(Ordering::SeqCst), 5);
    assert_eq!(rt; gate.refused.load(Ordering::SeqCst), 0);
    Ok(())
}

#[test]
fn endpoint_calls_are_stopped_by_the_gate(rt: HostRuntime) -> Result<(), Fail> {
    assert!(rt;
        by_words(
            &rt,
            rt.alloc(),
            &Once,
            "ends",
            TWO_SENDS_EACH,
            Status::Stopped,
            ""
        )?
    );
    Ok(())
}

// What was taken and what is left, by the lines of receives and of frames.
fn sums(text: &str) -> (u64, u64, u64) {
    let mut received: u64 = 0;
    let mut taken: u64 = 0;
    let mut left: u64 = 0;
    for line in text.lines() {
        if let Some((_, count)) = line.split_once(" recv 3 = ok ") {
            received = received.saturating_add(count.parse().unwrap_or(0));
        }
        if let Some((_, counts)) = line.split_once("end 3 sent 24 taken ") {
            let (first, second) = counts.split_once(" left ").unwrap_or(("", ""));
            taken = first.parse().unwrap_or(0);
            left = second.parse().unwrap_or(0);
        }
    }
    (received, taken, left)
}

// Eight cores, each of which sends three times and receives twice.
fn eight_cores(alloc: Global) -> Result<String, Fail> {
    let mut script = String::from_str(alloc, "speck 1\ncores 8\nframes 64\n")?;
    for _ in 0..8 {
        script.push_str("grant 100 0 1\n")?;
    }
    script.push_str("core 5\ngate 3 1 20\nends\n")?;
    for core in 0..8u32 {
        write!(
            script,
            "core {core}\nsend 20\nrecv 3\nsend 20\nsend 20\nrecv 3\n"
        )?;
    }
    Ok(script)
}

#[test]
fn what_eight_cores_send_is_taken_once_or_left(rt: HostRuntime) -> Result<(), Fail> {
    let alloc = rt.alloc();
    for _ in 0..20 {
        let words = list_of(alloc, &["ends"])?;
        let script = eight_cores(alloc)?;
        let mut source = MemSource::new(
            Vec::from_slice(alloc, script.as_bytes())?,
            4096,
            Vec::new(alloc),
        );
        let mut sink = MemSink::new(alloc, 4096, 4096, Vec::new(alloc))?;
        let status = speck(&rt, alloc, &FreeGate, &words, &mut source, &mut sink);
        assert_eq!(rt; status, Status::Done);
        let (received, taken, left) = sums(from_utf8(sink.bytes()).unwrap_or(""));
        assert_eq!(rt; received, taken);
        assert_eq!(rt; taken.saturating_add(left), 24);
    }
    Ok(())
}
