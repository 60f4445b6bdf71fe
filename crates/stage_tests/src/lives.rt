//! Whether a component lives.

ghost use Rattle.std.specs.Prelude.{◌<◌};
ghost use Rattle.stage_thread.specs.Living.{AliveFits};

use crate::steps::loads;
use spk_nums::{CoreNo, FrameNo, Reply, StageEnd, WordOp};
use stage_thread::Alive;
use word_map::Layout;

// The component with number 1 in epoch 2; the number live in epochs 2 and 1, closing by core 1, dead in epoch 2, free.
const COMP: u64 = 0x81;

const LIVE_2: u64 = 0xc_0009;

const LIVE_1: u64 = 0xc_0005;

const CLOSING: u64 = 0x800_000a;

const DEAD: u64 = 0x1c_000b;

// A step, the word that it finds, and what that leads to.
type Row = (WordOp, u64, StageEnd<()>);

// Whether these are the next steps of a question.
fn goes(alive: &mut Alive, layout: &Layout, rows: &[Row]) -> bool
    requires { AliveFits layout.now alive.old }
{
    'rows: for row in rows {
        if alive.next(layout) != row.0 || alive.take(layout, row.1) != row.2 {
            return false;
        }
    }
    true
}

// Whether the question leads to this where it finds this word of the number. On a machine of two cores and eight frames that of the
// number 1 is at 541.
fn leads(layout: &Layout, word: u64, end: StageEnd<()>) -> bool
    requires { 3 < layout.now.frames }
{
    let mut alive = Alive::new(FrameNo::new(3));
    let rows = [(loads(194), COMP, StageEnd::Going), (loads(541), word, end)];
    goes(&mut alive, layout, &rows)
}

#[test]
fn asks_the_number_that_the_component_names(rt: HostRuntime) {
    if let Some(layout) = Layout::new(2, 8) {
        let busy = StageEnd::Refuse(Reply::Busy(CoreNo::new(1)));
        assert!(rt; leads(&layout, LIVE_2, StageEnd::Done(())));
        assert!(rt; leads(&layout, LIVE_1, StageEnd::Refuse(Reply::Dead)));
        assert!(rt; leads(&layout, CLOSING, busy));
        assert!(rt; leads(&layout, DEAD, StageEnd::Refuse(Reply::Dead)));
        assert!(rt; leads(&layout, 0, StageEnd::Refuse(Reply::Dead)));
        assert!(rt; leads(&layout, 1, StageEnd::Refuse(Reply::Raced)));
        let mut alive = Alive::new(FrameNo::new(3));
        let foreign = [(loads(194), 0, StageEnd::Refuse(Reply::Raced))];
        assert!(rt; goes(&mut alive, &layout, &foreign));
    }
}
