//! The places of the words.

use spk_nums::{CoreNo, EntryNo, FrameNo};
use word_map::Layout;

#[test]
fn has_worked_places(rt: HostRuntime) {
    if let Some(largest) = Layout::new(8, 512) {
        assert!(rt; largest.size() == 37_457);
        assert!(rt; largest.clock_at() == 37_456);
        assert!(rt; largest.entry_at(FrameNo::new(511), EntryNo::new(63)) == 32_767);
        assert!(rt; largest.frame_at(FrameNo::new(511)) == 33_279);
        assert!(rt; largest.flush_at(CoreNo::new(7)) == 37_391);
    }
    if let Some(two_cores) = Layout::new(2, 32) {
        assert!(rt; two_cores.entry_at(FrameNo::new(0), EntryNo::new(0)) == 0);
        assert!(rt; two_cores.count_at(FrameNo::new(9), CoreNo::new(0)) == 2_089);
        assert!(rt; two_cores.count_at(FrameNo::new(9), CoreNo::new(1)) == 2_123);
        assert!(rt; two_cores.core_at(CoreNo::new(1)) == 2_146);
        assert!(rt; two_cores.flush_at(CoreNo::new(0)) == 2_113);
        assert!(rt; two_cores.live_at(0) == 2_148);
        assert!(rt; two_cores.live_at(63) == 2_211);
        assert!(rt; two_cores.size() == 2_213);
        assert!(rt; (two_cores.cores(), two_cores.frames()) == (2, 32));
    }
}

#[test]
fn keeps_to_the_limits(rt: HostRuntime) {
    let rows = [
        (0, 100, false),
        (1, 5, false),
        (1, 6, true),
        (8, 19, false),
        (8, 20, true),
        (8, 512, true),
        (8, 513, false),
        (9, 512, false),
        (2, 32, true),
    ];
    for (cores, frames, fits) in rows {
        assert!(rt;
            Layout::new(cores, frames).is_some() == fits,
            "{cores} cores, {frames} frames"
        );
    }
}
