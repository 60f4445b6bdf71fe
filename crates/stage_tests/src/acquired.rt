//! The counts that a call has acquired.

use frame_words::{CountWord, Hold};
use spk_nums::{CoreNo, FrameNo, Stamp};
use stage_pins::{Acquired, AcquiredCounts, Pinned, Settle};

// Core 1's count of a frame, which was found with 2 references and the stamp 5.
fn pinned(frame: FrameNo) -> Pinned {
    let word = CountWord {
        hold: Hold::Unheld,
        count: 2,
        stamp: Stamp::new(5),
    };
    Pinned {
        frame,
        core: CoreNo::new(1),
        word,
    }
}

fn acquired(frame: FrameNo, change: i32) -> Acquired {
    let pin = pinned(frame);
    Acquired { pin, change }
}

#[test]
fn holds_the_counts_in_the_order_in_which_they_were_acquired(rt: HostRuntime) {
    let mut counts = AcquiredCounts::none();
    assert!(rt; counts.is_empty());
    counts.push(acquired(FrameNo::new(3), 1));
    counts.push(acquired(FrameNo::new(4), -1));
    assert!(rt; counts.first() == Some(acquired(FrameNo::new(3), 1)));
    counts.pop();
    assert!(rt; counts.first() == Some(acquired(FrameNo::new(4), -1)));
    counts.pop();
    assert!(rt; counts.first() == None);
    assert!(rt; counts == AcquiredCounts::none());
}

#[test]
fn does_not_take_a_fifth_count(rt: HostRuntime) {
    let mut counts = AcquiredCounts::none();
    for frame in 0..4 {
        counts.push(acquired(FrameNo::new(frame), 1));
    }
    let four = counts;
    counts.push(acquired(FrameNo::new(4), 1));
    assert!(rt; counts == four);
}

#[test]
fn commits_the_change_of_a_call_that_is_carried_out(rt: HostRuntime) {
    let rows = [
        (true, 1, 1, None),
        (true, -1, -1, Some(Stamp::new(9))),
        (false, 1, 0, None),
        (false, -1, 0, None),
    ];
    for (carried_out, change, stored, stamp) in rows {
        let count = acquired(FrameNo::new(3), change);
        let commit = Settle::new(pinned(FrameNo::new(3)), stored, stamp);
        let drawn = Some(Stamp::new(9));
        assert!(rt;
            count.commit(carried_out, drawn) == commit,
            "{carried_out} {change}"
        );
    }
}
