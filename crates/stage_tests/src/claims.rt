//! The claim of a thread.

ghost use Rattle.std.specs.Prelude.{◌≡◌, ◌<◌};
ghost use Rattle.stage_thread.specs.Claiming.{ClaimFits};

use crate::steps::{compares, loads};
use spk_nums::{CoreNo, FrameNo, Reply, StageEnd, WordOp};
use stage_thread::{Claim, Claimed};
use word_map::Layout;

// Words of threads at depth 2: idle, claimed by core 1 and running on core 1; words of stacks with the frames 3 and
// 8, and with none.
const IDLE: u64 = 0x40;

const CLAIMED: u64 = 0x46;

const RUNNING: u64 = 0x45;

const COMP_3: u64 = 7;

const COMP_8: u64 = 17;

// A step, the word that it finds, and what that leads to.
type Row = (WordOp, u64, StageEnd<Claimed>);

// Whether these are the next steps of a claim.
fn goes(claim: &mut Claim, layout: &Layout, rows: &[Row]) -> bool
    requires { ClaimFits layout.now claim.old }
{
    'rows: for row in rows {
        if claim.next(layout) != row.0 || claim.take(layout, row.1) != row.2 {
            return false;
        }
    }
    true
}

fn begun() -> Claim
    ensures { result ≡ Claim.AtLoad 4 1 }
{
    Claim::new(FrameNo::new(4), CoreNo::new(1))
}

fn load() -> Row {
    (loads(256), IDLE, StageEnd::Going)
}

fn mark() -> Row {
    (compares(256, IDLE, CLAIMED), IDLE, StageEnd::Going)
}

#[test]
fn claims_an_idle_thread(rt: HostRuntime) {
    let claimed = Claimed {
        thread: FrameNo::new(4),
        depth: 2,
        comp: FrameNo::new(3),
    };
    if let Some(layout) = Layout::new(2, 8) {
        let rows = [
            load(),
            mark(),
            (loads(258), COMP_3, StageEnd::Done(claimed)),
        ];
        assert!(rt; goes(&mut begun(), &layout, &rows));
        let raced = StageEnd::Refuse(Reply::Raced);
        let lost = [load(), (compares(256, IDLE, CLAIMED), RUNNING, raced)];
        assert!(rt; goes(&mut begun(), &layout, &lost));
        let raced = StageEnd::Refuse(Reply::Raced);
        let foreign = [load(), mark(), (loads(258), COMP_8, raced)];
        assert!(rt; goes(&mut begun(), &layout, &foreign));
    }
}

// Whether a claim is refused so at the thread's word.
fn refuses(layout: &Layout, word: u64, reply: Reply) -> bool
    requires { 4 < layout.now.frames }
{
    begun().take(layout, word) == StageEnd::Refuse(reply)
}

#[test]
fn refuses_a_thread_that_runs_or_is_claimed(rt: HostRuntime) {
    if let Some(layout) = Layout::new(2, 8) {
        assert!(rt; refuses(&layout, RUNNING, Reply::Running(CoreNo::new(1))));
        assert!(rt; refuses(&layout, CLAIMED, Reply::Busy(CoreNo::new(1))));
        assert!(rt; refuses(&layout, 0, Reply::Raced));
    }
}
