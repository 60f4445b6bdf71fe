//! The mark of a core's flush.

ghost use Rattle.stage_quiet.specs.Flushing.{FlushMarkFits};

use crate::steps::{loads, stores};
use spk_nums::{CoreNo, Reply, StageEnd, Value, WordOp};
use stage_quiet::FlushMark;
use word_map::Layout;

// A step, the word that it finds, and what that leads to.
type Row = (WordOp, u64, StageEnd<()>);

// Whether these are the next steps of a mark.
fn goes(mark: &mut FlushMark, layout: &Layout, rows: &[Row]) -> bool
    requires { FlushMarkFits layout.now mark.old }
{
    'rows: for row in rows {
        if mark.next(layout) != row.0 || mark.take(layout, row.1) != row.2 {
            return false;
        }
    }
    true
}

#[test]
fn stores_the_clock_that_it_loaded(rt: HostRuntime) {
    let ok = StageEnd::Decided(Reply::Ok(Value::Nothing));
    let rows = [(loads(604), 9, ok), (stores(539, 9), 9, StageEnd::Done(()))];
    if let Some(layout) = Layout::new(2, 8) {
        let mut mark = FlushMark::new(CoreNo::new(1));
        assert!(rt; goes(&mut mark, &layout, &rows));
    }
}
