//! The sweep of a frame.

ghost use Rattle.std.specs.Prelude.{◌<◌, IsTrue};
ghost use Rattle.stage_sweep.specs.Freeze.{SweepFits};

use crate::steps::{compares, loads};
use frame_words::FrameWord;
use spk_nums::{CoreNo, FrameKind, FrameNo, Obj, Reply, StageEnd, Stamp, WordOp};
use stage_sweep::Sweep;
use word_map::Layout;

// A counter with 2 references, one with one less than none, one with none and the stamp 5, and that frozen by core 1;
// one with none and the stamp 4; the word of a core that is inside a call since an exit at 5.
const TWO: u64 = 0x0000_1000_0000_0000;

const ONE_LESS: u64 = 0x07ff_f800_0000_0000;

const NONE: u64 = 5;

const FROZEN: u64 = 0x9000_0000_0000_0005;

const EARLIER: u64 = 4;

// That of two references, and that of the earlier stamp, frozen by core 1.
const TWO_FROZEN: u64 = 0x9000_1000_0000_0000;

const FROZEN_EARLIER: u64 = 0x9000_0000_0000_0004;

// Counters at the least count, and one above it; the least frozen by core 1.
const LEAST: u64 = 0x0400_0000_0000_0000;

const LEAST_FROZEN: u64 = 0x9400_0000_0000_0000;

const NEXT: u64 = 0x0400_0800_0000_0000;

const INSIDE_5: u64 = 11;

// The sweep of frame 3 by core 1.
fn sweep(_layout: &Layout, kind: FrameKind, object: Obj) -> Sweep
    requires frame { 3 < _layout.now.frames }
    requires core { 1 < _layout.now.cores }
    ensures { SweepFits _layout.now result }
{
    let word = FrameWord {
        kind,
        object,
        mark: None,
    };
    Sweep::new(FrameNo::new(3), word, CoreNo::new(1))
}

// Whether these are the next steps of a sweep, each of which finds this word, and goes on.
fn goes(sweep: &mut Sweep, layout: &Layout, rows: &[(WordOp, u64)]) -> bool
    requires { SweepFits layout.now sweep.old }
    ensures { IsTrue result → SweepFits layout.now sweep.new }
{
    'rows: for row in rows {
        if sweep.next(layout) != row.0 {
            return false;
        }
        match sweep.take(layout, row.1) {
            StageEnd::Going => {}
            _ => return false,
        }
    }
    true
}

// The counters of frame 3 are at 523 and 533, the core word of core 0 at 528, and the head of a temporal capability there at 192.
#[test]
fn freezes_then_scans_then_looks_at_the_object(rt: HostRuntime) {
    let freezes = [
        (loads(523), NONE),
        (compares(523, NONE, FROZEN), NONE),
        (loads(533), EARLIER),
        (compares(533, EARLIER, FROZEN_EARLIER), EARLIER),
    ];
    if let Some(layout) = Layout::new(2, 8) {
        let mut sweep = sweep(&layout, FrameKind::Kernel, Obj::Tcap);
        assert!(rt; goes(&mut sweep, &layout, &freezes));
        let mut early = sweep;
        let quiescing = StageEnd::Refuse(Reply::Quiescing(CoreNo::new(0)));
        assert!(rt; early.take(&layout, INSIDE_5) == quiescing);
        assert!(rt; goes(&mut sweep, &layout, &[(loads(528), 0)]));
        assert!(rt; sweep.next(&layout) == loads(192));
        let mut full = sweep;
        assert!(rt; full.take(&layout, 7) == StageEnd::Refuse(Reply::NotEmpty));
        let end = sweep.take(&layout, 0);
        let kept = sweep.kept();
        assert!(rt; end == StageEnd::Done(kept) && kept.stamp == Stamp::new(5));
    }
}

#[test]
fn sums_counters_modulo_their_field(rt: HostRuntime) {
    let least = [
        (loads(523), LEAST),
        (compares(523, LEAST, LEAST_FROZEN), LEAST),
    ];
    let second = (compares(533, LEAST, LEAST_FROZEN), LEAST);
    if let Some(layout) = Layout::new(2, 8) {
        let mut one = sweep(&layout, FrameKind::Kernel, Obj::Leaf);
        assert!(rt; goes(&mut one, &layout, &least));
        let mut none = one;
        assert!(rt; goes(&mut one, &layout, &[(loads(533), NEXT)]));
        let referenced = StageEnd::Refuse(Reply::Referenced(1));
        assert!(rt; one.take(&layout, NEXT) == referenced);
        assert!(rt; goes(&mut none, &layout, &[(loads(533), LEAST), second]));
    }
}

#[test]
fn refuses_a_frame_that_is_referenced_or_a_counter_that_is_held(rt: HostRuntime) {
    let rows = [
        (loads(523), TWO),
        (compares(523, TWO, TWO_FROZEN), TWO),
        (loads(533), ONE_LESS),
    ];
    if let Some(layout) = Layout::new(2, 8) {
        let mut leaf = sweep(&layout, FrameKind::Kernel, Obj::Leaf);
        let mut held = leaf;
        assert!(rt; goes(&mut leaf, &layout, &rows));
        let mut lost = leaf;
        let one = StageEnd::Refuse(Reply::Referenced(1));
        assert!(rt; leaf.take(&layout, ONE_LESS) == one);
        assert!(rt; leaf.kept().words.len() == 2);
        assert!(rt; lost.take(&layout, TWO) == StageEnd::Refuse(Reply::Raced));
        let busy = StageEnd::Refuse(Reply::Busy(CoreNo::new(1)));
        assert!(rt; held.take(&layout, FROZEN) == busy);
        assert!(rt; held.kept().words.len() == 0);
    }
}
