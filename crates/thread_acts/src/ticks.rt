//! The act that charges ticks to the core's temporal capability: a load of its head, and a compare with the head found, which
//! decides the call.
//!
//! **What is due.** The ticks asked for, and those that the core owes. Those that are charged are spent; what the budget does not
//! cover stays owed. A call that is refused, since another core has marked the head or changed it, charges nothing: all that is due
//! stays owed, and is charged by a later call.

ghost use Rattle.act_counts.specs.act_states.specs.Ticks.{is_charging, owes, took_charge, took_tick};
ghost use Rattle.act_counts.specs.stage_tcap.specs.Charging.{ChargeFits, charge_move};
ghost use Rattle.act_counts.specs.word_map.specs.Moves.{op_of};
ghost use Rattle.act_counts.specs.word_map.specs.Places.{size_of};
ghost use Rattle.act_counts.specs.spk_nums.specs.WordSteps.{place_in};
ghost use Rattle.std.specs.Prelude.{◌<◌, ◌≡◌};

use act_counts::act_states::stage_tcap::Charge;
use act_counts::act_states::word_map::Layout;
use act_counts::act_states::{Act, OwnChange, Tail, Work, WorkStep};
use act_counts::{charged_in, ticks_of};
use spk_nums::{Reply, StageEnd, Value, WordOp};

/// The next step of a charge. Its temporal capability is below the layout's frames.
#[inline]
pub fn tick_op(charge: &Charge, layout: &Layout) -> WordOp
    requires { ChargeFits layout.now charge.now }
    ensures step { result ≡ op_of layout.now (charge_move charge.now) }
    ensures below { place_in result < size_of layout.now }
{
    charge.next(layout)
}

/// What a tick takes from the word that its step found: a head that a core has marked is `busy`, and one that is not what was loaded
/// `raced`; both leave owed what is due. The temporal capability is below the layout's frames.
#[inline(never)]
pub fn tick_took(charge: &Charge, layout: &Layout, found: u64) -> WorkStep
    requires { ChargeFits layout.now charge.now }
    ensures { result ≡ took_tick charge.now found }
{
    let due = ticks_of(charge);
    let mut charge = *charge;
    let end = charge.take(layout, found);
    charge_took(due, charge, &end)
}

// What a tick of so many ticks takes from its step, after which it stands here.
#[inline]
fn charge_took(due: u64, charge: Charge, end: &StageEnd<Value>) -> WorkStep
    ensures { result ≡ took_charge due charge end.now }
{
    match end {
        StageEnd::Going => WorkStep::Goes {
            work: Work::Act {
                act: Act::Tick { charge },
            },
        },
        StageEnd::Decided(reply) => owes(*reply, due),
        StageEnd::Done(value) => WorkStep::Changes {
            reply: Reply::Ok(*value),
            change: OwnChange::Ticks {
                charged: charged_in(value),
                owed: due.saturating_sub(u64::from(charged_in(value))),
            },
            drawn: None,
            tail: Tail::Nothing,
        },
        StageEnd::Refuse(reply) => owes(*reply, due),
    }
}

// The call is decided with this reply, and all ticks that are due stay owed.
#[inline]
fn owes(reply: Reply, due: u64) -> WorkStep
    ensures { result ≡ owes reply due }
{
    WorkStep::Changes {
        reply,
        change: OwnChange::Ticks {
            charged: 0,
            owed: due,
        },
        drawn: None,
        tail: Tail::Nothing,
    }
}

/// Whether the next step of a charge is the compare.
#[inline]
pub fn is_charging(charge: &Charge) -> bool
    ensures { result ≡ is_charging charge.now }
{
    matches!(charge, Charge::AtCompare { .. })
}
