//! The closing of an entry.

ghost use Rattle.std.specs.Prelude.{◌≡◌};
ghost use Rattle.stage_quiet.specs.Removal.{CloseFits};

use crate::steps::{compares, stores};
use spk_nums::{CoreNo, EntryNo, FrameNo, Reply, StageEnd, Stamp, Value, WordOp};
use stage_quiet::{Close, drawn};
use word_map::Layout;

// The entry of a table, the mark of core 1, and the entry that quiesces since the stamp 5.
const TABLE_0: u64 = 5;

const CLOSING: u64 = 6;

const QUIESCING: u64 = 0x53;

// A step, the word that it finds, and what that leads to.
type Row = (WordOp, u64, StageEnd<Stamp>);

// Whether these are the next steps of a closing.
fn goes(close: &mut Close, layout: &Layout, rows: &[Row]) -> bool
    requires { CloseFits layout.now close.old }
{
    'rows: for row in rows {
        if close.next(layout) != row.0 || close.take(layout, row.1) != row.2 {
            return false;
        }
    }
    true
}

fn begun() -> Close
    ensures { result ≡ Close.AtCompare 1 6 5 1 }
{
    Close::new(FrameNo::new(1), EntryNo::new(6), TABLE_0, CoreNo::new(1))
}

#[test]
fn closes_draws_and_stores(rt: HostRuntime) {
    let close = compares(70, TABLE_0, CLOSING);
    let draw = WordOp::Add { at: 594, by: 1 };
    let store = stores(70, QUIESCING);
    let ok = StageEnd::Decided(Reply::Ok(Value::Nothing));
    let done = StageEnd::Done(Stamp::new(5));
    if let Some(layout) = Layout::new(1, 8) {
        let rows = [
            (close, TABLE_0, StageEnd::Going),
            (draw, 5, ok),
            (store, QUIESCING, done),
        ];
        assert!(rt; goes(&mut begun(), &layout, &rows));
        let lost = [(close, 0, StageEnd::Refuse(Reply::Raced))];
        assert!(rt; goes(&mut begun(), &layout, &lost));
    }
}

#[test]
fn keeps_a_drawn_stamp_in_its_range(rt: HostRuntime) {
    for (clock, stamp) in [
        (0, 1),
        (7, 7),
        (1 << 42, 1 << 42),
        (1 << 50, 0x7ff_ffff_ffff),
    ] {
        assert!(rt; drawn(clock) == Stamp::new(stamp), "at {clock}");
    }
}
