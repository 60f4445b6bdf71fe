//! The scan of the other cores.

ghost use Rattle.std.specs.Prelude.{◌≤◌};
ghost use Rattle.stage_quiet.specs.Scan.{QuietFits};

use crate::steps::loads;
use spk_nums::{CoreNo, Reply, StageEnd, Stamp, WordOp};
use stage_quiet::Quiet;
use word_map::Layout;

// Core words of a core that is out, and of one that is inside with the exits 4, 5 and 6; a word of no core.
const OUT: u64 = 0;

const INSIDE_4: u64 = 9;

const INSIDE_5: u64 = 11;

const INSIDE_6: u64 = 13;

const FOREIGN: u64 = 1 << 50;

// A step, the word that it finds, and what that leads to.
type Row = (WordOp, u64, StageEnd<()>);

// Whether these are the next steps of a scan.
fn goes(scan: &mut Quiet, layout: &Layout, rows: &[Row]) -> bool
    requires { QuietFits layout.now scan.old }
{
    'rows: for row in rows {
        if scan.next(layout) != row.0 || scan.take(layout, row.1) != row.2 {
            return false;
        }
    }
    true
}

// A machine of three cores and ten frames has its core words at 660, 672 and 684, and each flush word after its core word.
#[test]
fn scans_the_other_cores_then_the_flushes(rt: HostRuntime) {
    let rows = [
        (loads(660), OUT, StageEnd::Going),
        (loads(684), INSIDE_6, StageEnd::Going),
        (loads(661), 6, StageEnd::Going),
        (loads(673), 7, StageEnd::Going),
        (loads(685), 6, StageEnd::Done(())),
    ];
    let scan = Quiet::page(Stamp::new(5), CoreNo::new(1), 3);
    if let (Some(layout), Some(mut scan)) = (Layout::new(3, 10), scan) {
        assert!(rt; goes(&mut scan, &layout, &rows));
    }
}

// Whether core 0's scan of a machine of so many cores for the stamp 5 is refused so at this word.
fn waits(cores: u8, word: u64, reply: Reply) -> bool
    requires some { 1 ≤ cores }
    requires few { cores ≤ 8 }
{
    let scan = Quiet::page(Stamp::new(5), CoreNo::new(0), cores);
    match (Layout::new(cores, 10), scan) {
        (Some(layout), Some(mut scan)) => scan.take(&layout, word) == StageEnd::Refuse(reply),
        _ => false,
    }
}

#[test]
fn waits_for_cores_and_flushes_no_later_than_the_stamp(rt: HostRuntime) {
    assert!(rt; waits(2, INSIDE_4, Reply::Quiescing(CoreNo::new(1))));
    assert!(rt; waits(2, INSIDE_5, Reply::Quiescing(CoreNo::new(1))));
    assert!(rt; waits(2, FOREIGN, Reply::Raced));
    assert!(rt; waits(1, 5, Reply::Unflushed(CoreNo::new(0))));
    assert!(rt; waits(1, FOREIGN, Reply::Raced));
}

#[test]
fn makes_no_scan_where_there_is_nothing_to_load(rt: HostRuntime) {
    assert!(rt; Quiet::entry(Stamp::new(0), CoreNo::new(1), 3).is_none());
    assert!(rt; Quiet::entry(Stamp::new(5), CoreNo::new(0), 1).is_none());
    assert!(rt; Quiet::page(Stamp::new(0), CoreNo::new(1), 3).is_none());
}
