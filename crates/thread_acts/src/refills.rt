//! The act that gives ticks back to a temporal capability: its head is loaded, and its list; a compare with the head found puts the ticks
//! in, and decides the call.
//!
//! **What may be given back.** At most what the core has spent less what it has had back, which is the core's own number. A list that is
//! better than the core's grant is refused at a second load of the head that finds it the same.

ghost use Rattle.act_counts.specs.act_states.specs.Refills.{is_refilling, took_refill, took_refilled};
ghost use Rattle.act_counts.specs.stage_tcap.specs.Refilling.{RefillFits, refill_move};
ghost use Rattle.act_counts.specs.word_map.specs.Moves.{op_of};
ghost use Rattle.act_counts.specs.word_map.specs.Places.{size_of};
ghost use Rattle.act_counts.specs.spk_nums.specs.WordSteps.{place_in};
ghost use Rattle.std.specs.Prelude.{◌<◌, ◌≡◌};

use act_counts::act_states::stage_tcap::{Refill, RefillAt};
use act_counts::act_states::word_map::Layout;
use act_counts::act_states::{Act, OwnChange, Refusal, Tail, Work, WorkStep};
use act_counts::refuse;
use spk_nums::{Reply, StageEnd, Value, WordOp};

/// The next step of a giving back. Its temporal capability is below the layout's frames.
#[inline]
pub fn refill_op(refill: &Refill, layout: &Layout) -> WordOp
    requires { RefillFits layout.now refill.now }
    ensures step { result ≡ op_of layout.now (refill_move refill.now) }
    ensures below { place_in result < size_of layout.now }
{
    refill.next(layout)
}

/// What a giving back takes from the word that its step found: it goes on, is refused with nothing to store, or has given the ticks
/// back. The temporal capability is below the layout's frames.
#[inline(never)]
pub fn refill_took(refill: &Refill, layout: &Layout, found: u64) -> WorkStep
    requires { RefillFits layout.now refill.now }
    ensures { result ≡ took_refill refill.now found }
{
    let mut refill = *refill;
    let end = refill.take(layout, found);
    took_refilled(refill, &end)
}

// What it takes from its step, after which it stands here.
#[inline]
fn took_refilled(refill: Refill, end: &StageEnd<Value>) -> WorkStep
    ensures { result ≡ took_refilled refill end.now }
{
    match end {
        StageEnd::Going => WorkStep::Goes {
            work: Work::Act {
                act: Act::Refill { refill },
            },
        },
        StageEnd::Decided(reply) => refuse(Refusal::of(reply)),
        StageEnd::Done(value) => WorkStep::Changes {
            reply: Reply::Ok(*value),
            change: OwnChange::GivesBack {
                ticks: refill.ticks,
            },
            drawn: None,
            tail: Tail::Nothing,
        },
        StageEnd::Refuse(reply) => refuse(Refusal::of(reply)),
    }
}

/// Whether the next step of a giving back is the compare.
#[inline]
pub fn is_refilling(refill: &Refill) -> bool
    ensures { result ≡ is_refilling refill.now.at }
{
    matches!(refill.at, RefillAt::Compare)
}
