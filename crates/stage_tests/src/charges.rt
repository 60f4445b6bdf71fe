//! The charge of a budget.

ghost use Rattle.stage_tcap.specs.Charging.{ChargeFits};

use crate::steps::{compares, loads};
use spk_nums::{CoreNo, FrameNo, Reply, StageEnd, Value, WordOp};
use stage_tcap::Charge;
use word_map::Layout;

// Heads of the version 1 with the budgets 100 and 93, with none, and with 100 and core 1's mark.
const HEAD_100: u64 = 0x10_0000_0064;

const HEAD_93: u64 = 0x10_0000_005d;

const HEAD_0: u64 = 0x10_0000_0000;

const MARKED: u64 = 0x12_0000_0064;

// A step, the word that it finds, and what that leads to.
type Row = (WordOp, u64, StageEnd<Value>);

// Whether these are the next steps of a charge.
fn goes(charge: &mut Charge, layout: &Layout, rows: &[Row]) -> bool
    requires { ChargeFits layout.now charge.old }
{
    'rows: for row in rows {
        if charge.next(layout) != row.0 || charge.take(layout, row.1) != row.2 {
            return false;
        }
    }
    true
}

fn load() -> Row {
    (loads(384), HEAD_100, StageEnd::Going)
}

#[test]
fn charges_the_ticks_or_the_whole_budget(rt: HostRuntime) {
    let some = compares(384, HEAD_100, HEAD_93);
    let all = compares(384, HEAD_100, HEAD_0);
    let seven = StageEnd::Done(Value::Amount(7));
    let hundred = StageEnd::Done(Value::Amount(100));
    let busy = StageEnd::Refuse(Reply::Busy(CoreNo::new(1)));
    if let Some(layout) = Layout::new(1, 8) {
        let mut charge = Charge::new(FrameNo::new(6), 7);
        assert!(rt; goes(&mut charge, &layout, &[load(), (some, HEAD_100, seven)]));
        let mut lost = Charge::new(FrameNo::new(6), 7);
        let raced = StageEnd::Refuse(Reply::Raced);
        assert!(rt; goes(&mut lost, &layout, &[load(), (some, HEAD_93, raced)]));
        let mut most = Charge::new(FrameNo::new(6), 1000);
        assert!(rt; goes(&mut most, &layout, &[load(), (all, HEAD_100, hundred)]));
        let mut marked = Charge::new(FrameNo::new(6), 7);
        assert!(rt; goes(&mut marked, &layout, &[(loads(384), MARKED, busy)]));
    }
}
