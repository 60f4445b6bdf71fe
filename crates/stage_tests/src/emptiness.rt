//! Whether an object holds nothing, and what it names, by the words of it that a sweep finds.

ghost use Rattle.std.specs.Prelude.{◌<◌};
ghost use Rattle.stage_sweep.specs.Freeze.{SweepFits};

use frame_words::FrameWord;
use spk_nums::{CoreNo, EntryNo, FrameKind, FrameNo, Obj, Reply, StageEnd};
use stage_sweep::{Owned, Sweep, SweepAt};
use word_map::Layout;

// The entry of a table, the marks of core 1, and words of threads and of heads of temporal capabilities.
const TABLE_0: u64 = 5;

const CLOSING: u64 = 6;

const QUIESCING: u64 = 0x53;

const CLAIMED: u64 = 0x26;

const MARKED: u64 = 0x2_0000_0000;

// Core 0's sweep of frame 3, before the load of this word of the object.
fn before(_layout: &Layout, object: Obj, entry: u16) -> Sweep
    requires frame { 3 < _layout.now.frames }
    requires core { 0 < _layout.now.cores }
    requires entry { entry < 64 }
    ensures { SweepFits _layout.now result }
{
    let word = FrameWord {
        kind: FrameKind::Kernel,
        object,
        mark: None,
    };
    let mut sweep = Sweep::new(FrameNo::new(3), word, CoreNo::new(0));
    sweep.at = SweepAt::Empty {
        entry: EntryNo::new(entry),
    };
    sweep
}

// The refusal to which this word of an object leads.
fn refusal(layout: &Layout, object: Obj, entry: u16, word: u64) -> Option<Reply>
    requires frame { 3 < layout.now.frames }
    requires core { 0 < layout.now.cores }
    requires entry { entry < 64 }
{
    let mut sweep = before(layout, object, entry);
    match sweep.take(layout, word) {
        StageEnd::Refuse(reply) => Some(reply),
        _ => None,
    }
}

fn busy() -> Option<Reply> {
    Some(Reply::Busy(CoreNo::new(1)))
}

fn full() -> Option<Reply> {
    Some(Reply::NotEmpty)
}

#[test]
fn asks_of_each_object_that_it_holds_nothing(rt: HostRuntime) {
    let rows = [
        (Obj::Leaf, 0, 0, None),
        (Obj::Table, 63, QUIESCING, None),
        (Obj::Pleaf, 1, TABLE_0, full()),
        (Obj::Pages, 1, CLOSING, busy()),
        (Obj::Comp, 0, 7, None),
        (Obj::Comp, 1, 8, Some(Reply::Raced)),
        (Obj::Thread, 0, 0x20, None),
        (Obj::Thread, 0, 0x40, full()),
        (Obj::Thread, 0, CLAIMED, busy()),
        (Obj::Thread, 1, 15, None),
        (Obj::Thread, 1, 17, Some(Reply::Raced)),
        (Obj::Tcap, 0, 0x10_0000_0000, None),
        (Obj::Tcap, 0, 1, full()),
        (Obj::Tcap, 0, MARKED, busy()),
    ];
    if let Some(layout) = Layout::new(1, 8) {
        for (object, at, word, wanted) in rows {
            assert!(rt;
                refusal(&layout, object, at % 64, word) == wanted,
                "at {word:#x} of {object:?}"
            );
        }
    }
}

// What a sweep is done with that finds this word of the object.
fn names(layout: &Layout, sweep: &mut Sweep, word: u64) -> Option<Owned>
    requires { SweepFits layout.now sweep.old }
{
    match sweep.take(layout, word) {
        StageEnd::Done(swept) => Some(swept.owned),
        _ => None,
    }
}

#[test]
fn tells_the_frames_that_an_object_names(rt: HostRuntime) {
    if let Some(layout) = Layout::new(1, 8) {
        let mut comp = before(&layout, Obj::Comp, 0);
        assert!(rt; comp.take(&layout, 2) == StageEnd::Going);
        let both = Owned {
            first: Some(FrameNo::new(2)),
            second: Some(FrameNo::new(3)),
        };
        assert!(rt; names(&layout, &mut comp, 3) == Some(both));
        let mut thread = before(&layout, Obj::Thread, 1);
        let bottom = Owned {
            first: Some(FrameNo::new(7)),
            second: None,
        };
        assert!(rt; names(&layout, &mut thread, 15) == Some(bottom));
    }
}
