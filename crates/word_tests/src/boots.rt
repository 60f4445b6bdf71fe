//! The words of the start.

use boot_words::boot_words;
use spk_nums::{CoreNo, FrameNo, Grant, Grants, Setup};
use word_map::Layout;

#[test]
fn boots_two_cores(rt: HostRuntime) {
    let mut grants = Grants::empty();
    for _ in 0..2 {
        grants.add(Grant {
            budget: 100,
            sched: 0,
            quality: 1,
        });
    }
    let Some(setup) = Setup::new(2, 32, grants, 10, 10) else {
        assert!(rt; false);
        return;
    };
    let Ok(words) = boot_words(rt.alloc(), &setup) else {
        assert!(rt; false);
        return;
    };
    // The link to the first leaf, the range and the table there, and the first thread's words.
    let places = [
        (0, 0x65),
        (64, 0x0000_0000_0018_0201),
        (65, 0x5),
        (4 * 64, 0x21),
        (4 * 64 + 1, 7),
        (2048, 6),
        (2048 + 8, 0),
        (2148, 0x0000_0000_000c_0005),
        (2212, 1),
    ];
    assert!(rt; words.len() == 2213);
    for (place, word) in places {
        assert!(rt; words.get(place).copied() == Some(word), "at {place}");
    }
    let Some(layout) = Layout::new(2, 32) else {
        assert!(rt; false);
        return;
    };
    // Core 0 counts the references to the table and to the component, core 1 none.
    let counts = [
        (
            layout.count_at(FrameNo::new(0), CoreNo::new(0)),
            0x0000_1000_0000_0000,
        ),
        (layout.count_at(FrameNo::new(0), CoreNo::new(1)), 0),
        (
            layout.count_at(FrameNo::new(3), CoreNo::new(0)),
            0x0000_2000_0000_0000,
        ),
        (layout.count_at(FrameNo::new(3), CoreNo::new(1)), 0),
    ];
    for (place, word) in counts {
        assert!(rt;
            words.get(place as usize).copied() == Some(word),
            "at {place}"
        );
    }
}
