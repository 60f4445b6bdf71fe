//! The command `run` at gates of several kinds.

ghost use Rattle.std.specs.Prelude.{◌≡◌, false};

use crate::shared::runs;
use speck_run::{Gate, Status};
use spk_nums::CoreNo;
use std::sync::atomic::{AtomicU64, Ordering};
use std::test::Fail;

// Two cores that make two calls each, on entries of their own.
const TWO_LISTS: &str =
    "speck 1\ncores 2\nframes 32\ngrant 100 0 1\ngrant 100 0 1\ncore 0\nlook 0\ncopy 0 1 20\ncore 1\ncopy 1 1 21\nlook 21\n";

const REPLIES: &str =
    "0.1 look 0 = ok range 8 24\n0.2 copy 0 1 20 = ok\n1.1 copy 1 1 21 = ok\n1.2 look 21 = ok table 0\n";

const TABLES: &str = "frame 0 table refs 3
  0 link 1
frame 1 leaf refs 1
  0 range 8 24
  1 table 0
  2 pages 2
  3 comp 3
  4 thread 4
  5 thread 5
  12 tcap 6
  13 tcap 7
  20 range 8 24
  21 table 0
frame 2 pages refs 2
frame 3 comp refs 4
  fields 0 2 0 1
frame 4 thread refs 2
  stack 3
frame 5 thread refs 2
  stack 3
frame 6 tcap refs 2
  budget 100
  quality 0 1
frame 7 tcap refs 2
  budget 100
  quality 0 1
live 0 epoch 1 frame 3
core 0 thread 4 tcap 6 comp 3 spent 0 owed 0
core 1 thread 5 tcap 7 comp 3 spent 0 owed 0
total 200
";

// Lets core 0 make its first call once core 1 asks for its second one, and core 1 its first once core 0 has asked for
// its first. It counts how often it was asked, and how often it has answered false.
#[derive(Drop)]
struct Meeting {
    first_of_0: AtomicU64,
    second_of_1: AtomicU64,
    asked: AtomicU64,
    refused: AtomicU64,
}

impl Meeting {
    fn new() -> Meeting {
        Meeting {
            first_of_0: AtomicU64::new(0),
            second_of_1: AtomicU64::new(0),
            asked: AtomicU64::new(0),
            refused: AtomicU64::new(0),
        }
    }
}

// Whether the flag was raised within so many loads.
fn is_raised(flag: &AtomicU64) -> bool {
    for _ in 0..200_000_000u32 {
        if flag.load(Ordering::SeqCst) > 0 {
            return true;
        }
    }
    false
}

impl Gate for Meeting {
    ghost use Rattle.std.specs.Prelude.{false};

    ghost is_free = { λ _. false };

    fn may_go(&self, core: CoreNo, made: u64) -> bool {
        let _asked = self.asked.fetch_add(1, Ordering::SeqCst);
        let goes = match (core.number(), made) {
            (0, 0) => {
                self.first_of_0.store(1, Ordering::SeqCst);
                is_raised(&self.second_of_1)
            }
            (1, 0) => is_raised(&self.first_of_0),
            (1, 1) => {
                self.second_of_1.store(1, Ordering::SeqCst);
                true
            }
            _ => true,
        };
        if !goes {
            let _refused = self.refused.fetch_add(1, Ordering::SeqCst);
        }
        goes
    }
}

// A gate that lets no call go on.
struct Shut;

impl Gate for Shut {
    ghost use Rattle.std.specs.Prelude.{false};

    ghost is_free = { λ _. false };

    fn may_go(&self, _core: CoreNo, _made: u64) -> bool {
        false
    }
}

#[test]
fn cores_run_in_threads_of_their_own(rt: HostRuntime) -> Result<(), Fail> {
    let text = format!(in rt.alloc(); "{REPLIES}{TABLES}")?;
    let gate = Meeting::new();
    assert!(rt; runs(&rt, rt.alloc(), &gate, TWO_LISTS, Status::Done, &text)?);
    assert_eq!(rt; gate.asked.load(Ordering::SeqCst), 4);
    assert_eq!(rt; gate.refused.load(Ordering::SeqCst), 0);
    Ok(())
}

#[test]
fn a_run_that_is_stopped_writes_nothing(rt: HostRuntime) -> Result<(), Fail> {
    assert!(rt; runs(&rt, rt.alloc(), &Shut, TWO_LISTS, Status::Stopped, "")?);
    Ok(())
}
