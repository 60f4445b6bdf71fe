//! What a decided call has still to store, and its exit.

ghost use Rattle.step_lands.specs.spk_nums.specs.WordSteps.{place_in};
ghost use Rattle.std.specs.Prelude.{◌<◌, ◌≡◌};
ghost use Rattle.step_lands.specs.call_stages.specs.Fits.{TailFits};
ghost use Rattle.step_lands.specs.call_stages.specs.Tails.{commits, is_ok, popped_on, pushed_on, stamp_of, tail_move, took_tail};
ghost use Rattle.step_lands.specs.stage_pins.specs.Held.{AllFit};
ghost use Rattle.step_lands.specs.word_map.specs.Moves.{op_of};
ghost use Rattle.step_lands.specs.word_map.specs.Places.{size_of};

use crate::words::{
    dead_op, flushed_op, idle_op, release_op, release_took, running_op, shared_more, shared_op,
};
use spk_nums::{Reply, Stamp, WordOp};
use step_lands::act_states::Tail;
use step_lands::act_states::stage_pins::AcquiredCounts;
use step_lands::act_states::stage_thread::{Pop, Push};
use step_lands::act_states::word_map::Layout;
use step_lands::call_stages::Stage;

/// The next step of a decided call that has acquired these counts: its next store, then the commit of its earliest count, then the
/// load of the clock; counters that the call has frozen, and their frame's word, are stored after the commits. The counts are of the
/// layout's machine.
#[inline(always)]
pub fn tail_op(
    reply: &Reply,
    drawn: Option<Stamp>,
    tail: &Tail,
    counts: &AcquiredCounts,
    layout: &Layout,
) -> WordOp
    requires tail { TailFits layout.now tail.now }
    requires counts { AllFit layout.now counts.now }
    ensures step { result ≡ op_of layout.now (tail_move reply.now drawn tail.now counts.now) }
    ensures below { place_in result < size_of layout.now }
{
    match tail {
        Tail::Quiesce { close } => close.next(layout),
        Tail::Unmark { frame, word } => WordOp::Store {
            at: layout.frame_at(*frame),
            word: *word,
        },
        Tail::StoreDead { life, stamp } => dead_op(life, *stamp, layout),
        Tail::StoreFlush { core, stamp } => flushed_op(*core, *stamp, layout),
        Tail::StoreLive {
            number,
            live,
            frame: _,
            word: _,
        } => WordOp::Store {
            at: layout.live_at(*number),
            word: *live,
        },
        Tail::Push { push } => push.next(layout),
        Tail::Pop { pop } => pop.next(layout),
        Tail::StoreRunning {
            thread,
            core,
            depth,
            old: _,
            old_depth: _,
        } => running_op(*thread, *core, *depth, layout),
        Tail::StoreIdle { thread, depth } => idle_op(*thread, *depth, layout),
        Tail::Share { pair } => shared_op(pair, layout),
        Tail::Nothing => match counts.first() {
            None => WordOp::Load {
                at: layout.clock_at(),
            },
            Some(count) => {
                let settle = count.commit(is_ok(reply), drawn);
                settle.next(layout)
            }
        },
        Tail::Release { release } => match counts.first() {
            None => release_op(release, layout),
            Some(count) => {
                let settle = count.commit(is_ok(reply), drawn);
                settle.next(layout)
            }
        },
    }
}

/// Whether a decided call with this still to store commits its counts first.
#[inline]
pub(crate) fn commits(tail: &Tail) -> bool
    ensures { result ≡ commits tail.now }
{
    matches!(tail, Tail::Nothing | Tail::Release { release: _ })
}

// Whether a reply says that the call was carried out.
#[inline]
fn is_ok(reply: &Reply) -> bool
    ensures { result ≡ is_ok reply.now }
{
    match reply {
        Reply::Ok(_) => true,
        _ => false,
    }
}

/// Where a decided call with these counts stands after that step found this. What it has to store is of the layout's machine.
#[inline]
pub(crate) fn took_tail(
    reply: Reply,
    drawn: Option<Stamp>,
    tail: &Tail,
    counts: &AcquiredCounts,
    layout: &Layout,
    found: u64,
) -> Stage
    requires { TailFits layout.now tail.now }
    ensures { result ≡ took_tail reply drawn tail.now counts.now found }
{
    match tail {
        Tail::Quiesce { close: _ }
        | Tail::Unmark { frame: _, word: _ }
        | Tail::StoreDead { life: _, stamp: _ }
        | Tail::StoreFlush { core: _, stamp: _ }
        | Tail::StoreIdle {
            thread: _,
            depth: _,
        } => Stage::Decided {
            reply,
            drawn,
            tail: Tail::Nothing,
        },
        Tail::StoreLive {
            number: _,
            live: _,
            frame,
            word,
        } => Stage::Decided {
            reply,
            drawn,
            tail: Tail::Unmark {
                frame: *frame,
                word: *word,
            },
        },
        Tail::StoreRunning {
            thread: _,
            core: _,
            depth: _,
            old,
            old_depth,
        } => Stage::Decided {
            reply,
            drawn,
            tail: Tail::StoreIdle {
                thread: *old,
                depth: *old_depth,
            },
        },
        Tail::Push { push } => Stage::Decided {
            reply,
            drawn,
            tail: pushed_on(push),
        },
        Tail::Pop { pop } => Stage::Decided {
            reply,
            drawn,
            tail: popped_on(pop),
        },
        Tail::Share { pair } => Stage::Decided {
            reply,
            drawn,
            tail: shared_more(pair, layout, found),
        },
        Tail::Nothing => match counts.first() {
            None => Stage::Leave {
                reply,
                stamp: stamp_of(found),
            },
            Some(_) => Stage::Decided {
                reply,
                drawn,
                tail: Tail::Nothing,
            },
        },
        Tail::Release { release } => match counts.first() {
            None => Stage::Decided {
                reply,
                drawn,
                tail: release_took(release, layout, found),
            },
            Some(_) => Stage::Decided {
                reply,
                drawn,
                tail: *tail,
            },
        },
    }
}

// What of a push is to be stored after its next store.
#[inline]
fn pushed_on(push: &Push) -> Tail
    ensures { result ≡ pushed_on push.now }
{
    match *push {
        Push::AtStack {
            thread,
            core,
            depth,
            comp: _,
        } => Tail::Push {
            push: Push::AtThread {
                thread,
                core,
                depth,
            },
        },
        Push::AtThread {
            thread: _,
            core: _,
            depth: _,
        } => Tail::Nothing,
    }
}

// What of a pop is to be stored after its next store.
#[inline]
fn popped_on(pop: &Pop) -> Tail
    ensures { result ≡ popped_on pop.now }
{
    match *pop {
        Pop::AtThread {
            thread,
            core: _,
            depth,
        } => Tail::Pop {
            pop: Pop::AtStack { thread, depth },
        },
        Pop::AtStack {
            thread: _,
            depth: _,
        } => Tail::Nothing,
    }
}

/// The stamp of a clock.
#[inline]
pub(crate) fn stamp_of(clock: u64) -> Stamp
    ensures { result ≡ stamp_of clock }
{
    if clock < 1 << 43 {
        Stamp::new(clock)
    } else {
        Stamp::new((1 << 43) - 1)
    }
}
