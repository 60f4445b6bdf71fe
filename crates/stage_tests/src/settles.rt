//! The commit of a count.

ghost use Rattle.std.specs.Prelude.{◌≡◌};
ghost use Rattle.frame_words.specs.Count.{NumberFits};
ghost use Rattle.stage_pins.specs.Counts.{unheld};

use frame_words::{CountWord, Hold};
use spk_nums::{CoreNo, FrameNo, StageEnd, Stamp, WordOp};
use stage_pins::{Pinned, Settle};
use word_map::Layout;

// A count that core 1 has acquired, and its place on a machine of two cores and eight frames.
fn pinned(count: i32) -> Pinned
    requires { NumberFits count }
    ensures { result ≡ record { frame = 3; core = 1; word = unheld count 5 } }
{
    let word = CountWord {
        hold: Hold::Unheld,
        count,
        stamp: Stamp::new(5),
    };
    Pinned {
        frame: FrameNo::new(3),
        core: CoreNo::new(1),
        word,
    }
}

#[test]
fn commits_the_change_and_the_later_stamp(rt: HostRuntime) {
    let rows = [
        (2, 1, None, 0x0000_1800_0000_0005),
        (2, -3, Some(Stamp::new(9)), 0x07ff_f800_0000_0009),
        (2, 0, Some(Stamp::new(4)), 0x0000_1000_0000_0005),
        (0x7fff, 1, None, 0x0400_0000_0000_0005),
        (-0x8000, -1, None, 0x03ff_f800_0000_0005),
    ];
    if let Some(layout) = Layout::new(2, 8) {
        let at = layout.count_at(FrameNo::new(3), CoreNo::new(1));
        for (count, change, stamp, word) in rows {
            let mut settle = Settle::new(pinned(count), change, stamp);
            assert!(rt; settle.next(&layout) == WordOp::Store { at, word });
            assert!(rt; settle.take(&layout, word) == StageEnd::Done(()));
        }
    }
}
