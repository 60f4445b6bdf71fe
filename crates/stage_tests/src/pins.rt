//! The acquiring of a count.

ghost use Rattle.std.specs.Prelude.{◌≡◌, ◌<◌};
ghost use Rattle.stage_pins.specs.Acquire.{PinFits};

use crate::steps::{compares, loads};
use frame_words::{CountWord, Hold};
use spk_nums::{CoreNo, FrameNo, Reply, StageEnd, Stamp, WordOp};
use stage_pins::{Pin, Pinned};
use word_map::Layout;

// Words of counts: 2 references and the stamp 5, held by no core, acquired by core 1 and frozen by core 1, and a
// word of no count.
const UNHELD: u64 = 0x0000_1000_0000_0005;

const PINNED: u64 = 0x1000_1000_0000_0005;

const CLOSED: u64 = 0x9000_1000_0000_0005;

const FOREIGN: u64 = 0x8000_0000_0000_0000;

// A step, the word that it finds, and what that leads to.
type Row = (WordOp, u64, StageEnd<Pinned>);

// Whether these are the next steps of an acquiring.
fn goes(pin: &mut Pin, layout: &Layout, rows: &[Row]) -> bool
    requires { PinFits layout.now pin.old }
{
    'rows: for row in rows {
        if pin.next(layout) != row.0 || pin.take(layout, row.1) != row.2 {
            return false;
        }
    }
    true
}

// Core 1's count of frame 3, on a machine of two cores and eight frames, is at 533.
fn begun() -> Pin
    ensures { result ≡ Pin.AtLoad 3 1 }
{
    Pin::new(FrameNo::new(3), CoreNo::new(1))
}

fn load() -> Row {
    (loads(533), UNHELD, StageEnd::Going)
}

#[test]
fn acquires_a_count_that_no_core_holds(rt: HostRuntime) {
    let word = CountWord {
        hold: Hold::Unheld,
        count: 2,
        stamp: Stamp::new(5),
    };
    let pinned = Pinned {
        frame: FrameNo::new(3),
        core: CoreNo::new(1),
        word,
    };
    let compare = compares(533, UNHELD, PINNED);
    if let Some(layout) = Layout::new(2, 8) {
        let rows = [load(), (compare, UNHELD, StageEnd::Done(pinned))];
        assert!(rt; goes(&mut begun(), &layout, &rows));
        let lost = [load(), (compare, PINNED, StageEnd::Refuse(Reply::Raced))];
        assert!(rt; goes(&mut begun(), &layout, &lost));
    }
}

// Whether an acquiring is refused so at the count's word.
fn refuses(layout: &Layout, word: u64, reply: Reply) -> bool
    requires frames { 3 < layout.now.frames }
    requires cores { 1 < layout.now.cores }
{
    begun().take(layout, word) == StageEnd::Refuse(reply)
}

#[test]
fn refuses_a_count_that_a_core_holds(rt: HostRuntime) {
    if let Some(layout) = Layout::new(2, 8) {
        assert!(rt; refuses(&layout, PINNED, Reply::Busy(CoreNo::new(1))));
        assert!(rt; refuses(&layout, CLOSED, Reply::Busy(CoreNo::new(1))));
        assert!(rt; refuses(&layout, FOREIGN, Reply::Raced));
    }
}
