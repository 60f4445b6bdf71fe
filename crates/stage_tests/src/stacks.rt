//! The stores to a stack.

ghost use Rattle.stage_thread.specs.Stacking.{PushFits, PopFits};

use crate::steps::stores;
use spk_nums::{CoreNo, FrameNo, StageEnd, WordOp};
use stage_thread::{Pop, Push};
use word_map::Layout;

// The steps of a push, and what each leads to.
fn pushed(push: &mut Push, layout: &Layout) -> [(WordOp, StageEnd<()>); 2]
    requires { PushFits layout.now push.old }
{
    let first = push.next(layout);
    let going = push.take(layout, 7);
    let second = push.next(layout);
    let done = push.take(layout, 0x45);
    [(first, going), (second, StageEnd::Done(()))]
}

// Those of a pop.
fn popped(pop: &mut Pop, layout: &Layout) -> [(WordOp, StageEnd<()>); 2]
    requires { PopFits layout.now pop.old }
{
    let first = pop.next(layout);
    let going = pop.take(layout, 0x25);
    let second = pop.next(layout);
    let done = pop.take(layout, 0);
    [(first, going), (second, StageEnd::Done(()))]
}

// A machine of two cores and eight frames; the words of thread 4 begin at 256.
#[test]
fn pushes_a_component_and_pops_it(rt: HostRuntime) {
    if let Some(layout) = Layout::new(2, 8) {
        let mut push = Push::new(FrameNo::new(4), CoreNo::new(1), 1, FrameNo::new(3));
        let wanted = [
            (stores(258, 7), StageEnd::Going),
            (stores(256, 0x45), StageEnd::Done(())),
        ];
        assert!(rt; pushed(&mut push, &layout) == wanted);
        let mut pop = Pop::new(FrameNo::new(4), CoreNo::new(1), 2);
        let wanted = [
            (stores(256, 0x25), StageEnd::Going),
            (stores(258, 0), StageEnd::Done(())),
        ];
        assert!(rt; popped(&mut pop, &layout) == wanted);
    }
}
