//! The release of frozen counters.

use frame_words::FrameWord;
use spk_nums::{CoreNo, FrameKind, FrameNo, Obj};
use stage_sweep::{Sweep, Swept, Thaw};

// What core 1's sweep of frame 3 has found before its first step.
fn nothing() -> Swept {
    let word = FrameWord {
        kind: FrameKind::Kernel,
        object: Obj::Blank,
        mark: None,
    };
    Sweep::new(FrameNo::new(3), word, CoreNo::new(1)).kept()
}

#[test]
fn releases_no_counter_where_none_is_frozen(rt: HostRuntime) {
    assert!(rt; Thaw::new(&nothing(), false).is_none());
}
