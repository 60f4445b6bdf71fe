//! The acts on two temporal capabilities, A and B: a transfer, a delegation, and a test of preemption.
//!
//! **Steps.** Head A is loaded and marked, and its list is read; then head B is loaded and its list is read. Head A's mark keeps A
//! and its list as they are, and each change of B's list raises the version in head B. So where head B is found the same again, both
//! budgets and both lists have stood together at that moment, and that step decides: it puts the ticks in head B, marks it, or
//! only loads it.
//!
//! **Storing.** A call that is decided after the mark has still to store head A: less the ticks, or as it was found. A delegation
//! stores the eight words of list B before, and then head B, which it has marked.

ghost use Rattle.act_counts.specs.act_states.specs.Shares.{is_carried, is_sharing, shared, took_share, took_shared};
ghost use Rattle.act_counts.specs.stage_tcap.specs.Pairs.{PairFits, pair_move};
ghost use Rattle.act_counts.specs.word_map.specs.Moves.{op_of};
ghost use Rattle.act_counts.specs.word_map.specs.Places.{size_of};
ghost use Rattle.act_counts.specs.spk_nums.specs.WordSteps.{place_in};
ghost use Rattle.std.specs.Prelude.{◌<◌, ◌≡◌};

use act_counts::act_states::stage_tcap::{Pair, PairAt};
use act_counts::act_states::word_map::Layout;
use act_counts::act_states::{Act, Refusal, Tail, Work, WorkStep};
use act_counts::refuse;
use spk_nums::{Reply, StageEnd, Value, WordOp};

/// The next step of a call on two temporal capabilities, which are below the layout's frames.
#[inline]
pub fn share_op(pair: &Pair, layout: &Layout) -> WordOp
    requires { PairFits layout.now pair.now }
    ensures step { result ≡ op_of layout.now (pair_move pair.now) }
    ensures below { place_in result < size_of layout.now }
{
    pair.next(layout)
}

/// What such a call takes from the word that its step found. Before head A is marked a refusal has nothing to store; after it the
/// call is decided with what is still to be stored. Both temporal capabilities are below the layout's frames.
#[inline(never)]
pub fn share_took(pair: &Pair, layout: &Layout, found: u64) -> WorkStep
    requires { PairFits layout.now pair.now }
    ensures { result ≡ took_share pair.now found }
{
    let mut pair = *pair;
    let end = pair.take(layout, found);
    took_shared(pair, &end)
}

// What it takes from its step, after which it stands here.
#[inline]
fn took_shared(pair: Pair, end: &StageEnd<Value>) -> WorkStep
    ensures { result ≡ took_shared pair end.now }
{
    match end {
        StageEnd::Going => WorkStep::Goes {
            work: Work::Act {
                act: Act::Share { pair },
            },
        },
        StageEnd::Decided(reply) => shared(pair, *reply),
        StageEnd::Done(_) => refuse(Refusal::Raced),
        StageEnd::Refuse(reply) => refuse(Refusal::of(reply)),
    }
}

// The call is decided with this reply, and has still to store what stands here.
#[inline]
fn shared(pair: Pair, reply: Reply) -> WorkStep
    ensures { result ≡ shared pair reply }
{
    match reply {
        Reply::Ok(value) => WorkStep::Answers {
            value,
            drawn: None,
            tail: Tail::Share { pair },
        },
        _ => WorkStep::Refuses {
            refusal: Refusal::of(&reply),
            tail: Tail::Share { pair },
        },
    }
}

/// Whether the next step of a call on two temporal capabilities is the one that decides `ok`.
#[inline]
pub fn is_sharing(pair: &Pair) -> bool
    ensures { result ≡ is_sharing pair.now.at }
{
    match pair.at {
        PairAt::CompareB => true,
        PairAt::AgainB { reply } => is_carried(&reply),
        _ => false,
    }
}

// Whether a reply carries the call out.
#[inline]
fn is_carried(reply: &Reply) -> bool
    ensures { result ≡ is_carried reply.now }
{
    match reply {
        Reply::Ok(_) => true,
        _ => false,
    }
}
