//! The giving back of ticks.

ghost use Rattle.std.specs.Prelude.{◌<◌};
ghost use Rattle.stage_tcap.specs.Refilling.{RefillFits};

use crate::steps::{compares, loads};
use spk_nums::{CoreNo, FrameNo, Reply, StageEnd, Value, WordOp};
use stage_tcap::Refill;
use word_map::Layout;

// Heads of the version 1 with the budget 100, also with core 1's mark, and with 7 ticks more and less. Words of lists with the pairs
// (0, 1), (0, 2) and (1, 5).
const HEAD: u64 = 0x10_0000_0064;

const MARKED: u64 = 0x12_0000_0064;

const MORE: u64 = 0x10_0000_006b;

const LESS: u64 = 0x10_0000_005d;

const GOOD: u64 = 1;

const WORSE: u64 = 2;

const OTHER: u64 = 0x100_0005;

// A step, the word that it finds, and what that leads to.
type Row = (WordOp, u64, StageEnd<Value>);

// Whether these are the next steps.
fn goes(refill: &mut Refill, layout: &Layout, rows: &[Row]) -> bool
    requires { RefillFits layout.now refill.old }
{
    'rows: for row in rows {
        if refill.next(layout) != row.0 || refill.take(layout, row.1) != row.2 {
            return false;
        }
    }
    true
}

// So many ticks are given back to the temporal capability in frame 6, by a core with the grant (0, 1) that has 7 ticks left, up to the
// load of the list's last word; the list's first word is this, and the others have no pair.
fn read(ticks: u32, layout: &Layout, first: u64) -> Refill
    requires { 6 < layout.now.frames }
    ensures { RefillFits layout.now result }
{
    let mut refill = Refill::new(FrameNo::new(6), ticks, 7, (0, 1));
    refill.take(layout, HEAD);
    refill.take(layout, first);
    refill.take(layout, 0);
    refill.take(layout, 0);
    refill.take(layout, 0);
    refill.take(layout, 0);
    refill.take(layout, 0);
    refill.take(layout, 0);
    refill
}

// The load of the list's last word.
fn last(end: StageEnd<Value>) -> Row {
    (loads(392), 0, end)
}

fn done() -> StageEnd<Value> {
    StageEnd::Done(Value::Nothing)
}

fn unlike() -> StageEnd<Value> {
    StageEnd::Refuse(Reply::Unlike)
}

fn raced() -> StageEnd<Value> {
    StageEnd::Refuse(Reply::Raced)
}

#[test]
fn gives_back_what_is_left(rt: HostRuntime) {
    let gives = compares(384, HEAD, MORE);
    let short = StageEnd::Refuse(Reply::Short(7));
    let busy = StageEnd::Refuse(Reply::Busy(CoreNo::new(1)));
    if let Some(layout) = Layout::new(1, 8) {
        let mut given = read(7, &layout, GOOD);
        assert!(rt;
            goes(
                &mut given,
                &layout,
                &[last(StageEnd::Going), (gives, HEAD, done())]
            )
        );
        let mut worse = read(7, &layout, WORSE);
        assert!(rt;
            goes(
                &mut worse,
                &layout,
                &[last(StageEnd::Going), (gives, HEAD, done())]
            )
        );
        let mut lost = read(7, &layout, GOOD);
        assert!(rt;
            goes(
                &mut lost,
                &layout,
                &[last(StageEnd::Going), (gives, LESS, raced())]
            )
        );
        let mut more = read(8, &layout, GOOD);
        assert!(rt; goes(&mut more, &layout, &[last(short)]));
        let mut marked = Refill::new(FrameNo::new(6), 7, 7, (0, 1));
        assert!(rt; goes(&mut marked, &layout, &[(loads(384), MARKED, busy)]));
    }
}

#[test]
fn refuses_a_list_that_lacks_the_grant(rt: HostRuntime) {
    if let Some(layout) = Layout::new(1, 8) {
        let mut other = read(7, &layout, OTHER);
        assert!(rt;
            goes(
                &mut other,
                &layout,
                &[last(StageEnd::Going), (loads(384), HEAD, unlike())]
            )
        );
        let mut more = read(8, &layout, OTHER);
        assert!(rt;
            goes(
                &mut more,
                &layout,
                &[last(StageEnd::Going), (loads(384), HEAD, unlike())]
            )
        );
        let mut lost = read(7, &layout, OTHER);
        assert!(rt;
            goes(
                &mut lost,
                &layout,
                &[last(StageEnd::Going), (loads(384), LESS, raced())]
            )
        );
    }
}
