//! The steps of acts: of each act its next step, what it takes from the word found, and whether that step decides.
//!
//! **Removal.** What the target holds is closed by a compare, a stamp is drawn, which decides the call, and the entry that quiesces
//! since the stamp is stored. What was removed serves on for the calls that were in progress at the draw.
//!
//! A call that is new here adds a line to each function.

ghost use Rattle.make_acts.specs.act_states.specs.Acts.{ActFits, act_move, act_ready, maps_frame, maps_word, took_act, took_close};
ghost use Rattle.make_acts.specs.word_map.specs.Moves.{op_of};
ghost use Rattle.make_acts.specs.word_map.specs.Places.{size_of};
ghost use Rattle.make_acts.specs.spk_nums.specs.WordSteps.{place_in};
ghost use Rattle.std.specs.Prelude.{◌<◌, ◌≡◌};

use act_counts::act_states::frame_words::FrameWord;
use act_counts::act_states::stage_quiet::Close;
use act_counts::act_states::word_map::Layout;
use act_counts::act_states::{Act, Fill, Refusal, Tail, Work, WorkStep};
use act_counts::{drawn_by, refuse};
use frame_acts::{
    flush_op, flush_took, touch_op, touch_ready, touch_took, typing_op, typing_ready, typing_took,
    untyping_op, untyping_ready, untyping_took,
};
use make_acts::{
    comp_op, comp_ready, comp_took, fill_op, fill_took, killing_op, killing_ready, killing_took,
    making_op, making_ready, making_took,
};
use spk_nums::{Cap, FrameKind, StageEnd, Stamp, Value, WordOp};
use thread_acts::{
    invoking_op, invoking_ready, invoking_took, is_charging, is_refilling, is_sharing, refill_op,
    refill_took, returning_op, returning_ready, returning_took, share_op, share_took, switching_op,
    switching_ready, switching_took, tick_op, tick_took,
};

/// The next step of an act. What it names is of the layout's machine.
#[inline]
pub fn act_op(act: &Act, layout: &Layout) -> WordOp
    requires { ActFits layout.now act.now }
    ensures step { result ≡ op_of layout.now (act_move act.now) }
    ensures below { place_in result < size_of layout.now }
{
    match act {
        Act::Fill { fill } => fill_op(fill, layout),
        Act::Remove { close, cap: _ } => close.next(layout),
        Act::Retype { typing } => typing_op(typing, layout),
        Act::Make { making } => making_op(making, layout),
        Act::Map { fill } => {
            let frame = fill.cap.frame();
            WordOp::Load {
                at: layout.frame_at(frame),
            }
        }
        Act::Outside {
            node,
            entry,
            word: _,
        } => WordOp::Load {
            at: layout.entry_at(*node, *entry),
        },
        Act::Tick { charge } => tick_op(charge, layout),
        Act::Touch { touching } => touch_op(touching, layout),
        Act::Flush { core } => flush_op(*core, layout),
        Act::Kill { killing } => killing_op(killing, layout),
        Act::Untype { untyping } => untyping_op(untyping, layout),
        Act::MakeComp { making } => comp_op(making, layout),
        Act::Invoke { invoking } => invoking_op(invoking, layout),
        Act::Return { returning } => returning_op(returning, layout),
        Act::Switch { switching } => switching_op(switching, layout),
        Act::Share { pair } => share_op(pair, layout),
        Act::Refill { refill } => refill_op(refill, layout),
    }
}

/// What an act takes from the word that its step found. What it names is of the layout's machine.
#[inline]
pub fn act_took(act: &Act, layout: &Layout, found: u64) -> WorkStep
    requires { ActFits layout.now act.now }
    ensures { result ≡ took_act layout.now act.now found }
{
    match act {
        Act::Fill { fill } => fill_took(fill, found),
        Act::Remove { close, cap } => {
            let mut close = *close;
            let end = close.take(layout, found);
            close_took(*cap, close, &end)
        }
        Act::Retype { typing } => typing_took(typing, found),
        Act::Make { making } => making_took(making, found),
        Act::Map { fill } => maps_word(fill, FrameWord::unpack(found)),
        Act::Outside { .. } => refuse(Refusal::OutOfRange),
        Act::Tick { charge } => tick_took(charge, layout, found),
        Act::Touch { touching } => touch_took(touching, layout, found),
        Act::Flush { core } => flush_took(*core, layout, found),
        Act::Kill { killing } => killing_took(killing, found),
        Act::Untype { untyping } => untyping_took(untyping, layout, found),
        Act::MakeComp { making } => comp_took(making, layout, found),
        Act::Invoke { invoking } => invoking_took(invoking, layout, found),
        Act::Return { returning } => returning_took(returning, layout, found),
        Act::Switch { switching } => switching_took(switching, layout, found),
        Act::Share { pair } => share_took(pair, layout, found),
        Act::Refill { refill } => refill_took(refill, layout, found),
    }
}

// What a removal takes from its step, after which it stands here.
#[inline]
fn close_took(cap: Cap, close: Close, end: &StageEnd<Stamp>) -> WorkStep
    ensures { result ≡ took_close cap close end.now }
{
    match end {
        StageEnd::Going => WorkStep::Goes {
            work: Work::Act {
                act: Act::Remove { close, cap },
            },
        },
        StageEnd::Decided(_) => WorkStep::Answers {
            value: Value::Nothing,
            drawn: drawn_by(&close),
            tail: Tail::Quiesce { close },
        },
        StageEnd::Done(_) => refuse(Refusal::Raced),
        StageEnd::Refuse(reply) => refuse(Refusal::of(reply)),
    }
}

/// Whether the next step of an act is the one that decides `ok`.
#[inline]
pub fn act_ready(act: &Act) -> bool
    ensures { result ≡ act_ready act.now }
{
    match act {
        Act::Fill { fill: _ } => true,
        Act::Remove { close, cap: _ } => matches!(close, Close::AtDraw { .. }),
        Act::Retype { typing } => typing_ready(typing),
        Act::Make { making } => making_ready(making),
        Act::Map { fill: _ } => false,
        Act::Outside { .. } => false,
        Act::Tick { charge } => is_charging(charge),
        Act::Touch { touching } => touch_ready(touching),
        Act::Flush { core: _ } => true,
        Act::Kill { killing } => killing_ready(killing),
        Act::Untype { untyping } => untyping_ready(untyping),
        Act::MakeComp { making } => comp_ready(making),
        Act::Invoke { invoking } => invoking_ready(invoking),
        Act::Return { returning } => returning_ready(returning),
        Act::Switch { switching } => switching_ready(switching),
        Act::Share { pair } => is_sharing(pair),
        Act::Refill { refill } => is_refilling(refill),
    }
}

// What the load of the word of a frame that is to be mapped leads to, where the word shows this.
#[inline]
fn maps_word(fill: &Fill, shown: Option<FrameWord>) -> WorkStep
    ensures { result ≡ maps_word fill.now shown }
{
    match shown {
        None => refuse(Refusal::Raced),
        Some(shown) => maps_frame(fill, &shown),
    }
}

// What that load leads to, where the word shows a frame.
#[inline]
fn maps_frame(fill: &Fill, shown: &FrameWord) -> WorkStep
    ensures { result ≡ maps_frame fill.now shown.now.kind shown.now.mark }
{
    match (shown.mark, shown.kind) {
        (Some(by), _) => refuse(Refusal::Busy(by)),
        (None, FrameKind::User) => WorkStep::Goes {
            work: Work::Act {
                act: Act::Fill { fill: *fill },
            },
        },
        (None, _) => refuse(Refusal::FrameKind),
    }
}
