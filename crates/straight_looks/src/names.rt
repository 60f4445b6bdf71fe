//! The look-up of a name.

ghost use Rattle.std.specs.Prelude.{◌≡◌, ◌<◌, ◌≤◌, IfSome, []};
ghost use Rattle.step_starts.specs.call_plans.specs.After.{NextName, next_of, with_found};
ghost use Rattle.step_starts.specs.call_plans.specs.GoesBy.{want_of};
ghost use Rattle.step_starts.specs.call_plans.specs.PlanOf.{plan_for};
ghost use Rattle.step_starts.specs.call_stages.specs.Fits.{IsCore};
ghost use Rattle.step_starts.specs.stage_look.specs.declared.look.Look.TheVariants.{AtRoot};
ghost use Rattle.straight_looks.specs.Outcomes.{followed_so, named_so};
ghost use Rattle.straight_looks.specs.Standing.{LeadsTo, looks};

use crate::ends::{Followed, Named};
use crate::rests::rest_looking;
use crate::shows::{held_at, is_wanted};
use core_words::Words;
use spk_nums::{Call, Cap};
use step_lands::act_states::Own;
use step_lands::act_states::call_plans::{Caps, Name};
use step_lands::act_states::stage_look::Look;
use step_lands::call_stages::ActiveCall;

/// The load of a root's entry, in a look-up that stands before it.
#[inline(always)]
#[tactic(auto, using(crate::proofs::Sets::following))]
pub fn follow<W: Words>(
    own: &Own,
    active: &mut Option<ActiveCall>,
    call: &Call,
    steps: u32,
    look: Look,
    caps: &Caps,
    words: &mut W,
) -> Followed
    requires few { steps < 1000 }
    requires fits { IsCore (W.core words.old) }
    requires stands { W.core words.old ≡ looks own.now call.now steps look caps.now }
    ensures { followed_so own.now call.now steps caps.now active.old active.new (W.core words.new) (W.last words.new) result }
{
    let mut look = look;
    let found = words.make(look.next(&own.layout));
    if look.follows(&own.layout, found) {
        Followed::Leads { look }
    } else {
        rest_looking(active, call, steps, look, caps);
        Followed::Falls { found }
    }
}

/// A name of a call is looked up in the table of the core's component: the next one by its plan, whose names have led to these.
#[inline(always)]
#[tactic(auto, using(crate::proofs::Sets::naming))]
pub fn name<W: Words>(
    own: &Own,
    active: &mut Option<ActiveCall>,
    call: &Call,
    steps: u32,
    name: &Name,
    caps: &Caps,
    words: &mut W,
) -> Named
    requires few { steps < 1000 }
    requires number { name.now.number ≤ 4095 }
    requires next { next_of (plan_for call.now) caps.now ≡ NextName name.now.number (want_of (with_found [] caps.now) name.now) }
    requires fits { IsCore (W.core words.old) }
    requires stands { W.core words.old ≡ looks own.now call.now steps (AtRoot own.now.table name.now.number) caps.now }
    ensures { named_so own.now call.now steps caps.now active.old active.new (W.core words.new) (W.last words.new) result }
{
    let root = Look::own(own.table, name.number);
    match follow(own, active, call, steps, root, caps, words) {
        Followed::Falls { found } => Named::Falls { found },
        Followed::Leads { look } => {
            let found = words.make(look.next(&own.layout));
            match led_to(own, name, caps, &look, found) {
                Some(cap) => Named::Finds { cap },
                None => {
                    rest_looking(active, call, steps + 1, look, caps);
                    Named::Falls { found }
                }
            }
        }
    }
}

// The capability to which a name leads, where the word of its place shows one that is wanted.
#[inline(always)]
#[tactic(auto, using(crate::proofs::Sets::showing))]
fn led_to(own: &Own, name: &Name, caps: &Caps, look: &Look, word: u64) -> Option<Cap>
    ensures { IfSome result (λ k. LeadsTo own.now look.now word (want_of (with_found [] caps.now) name.now) k) }
{
    match held_at(own, look, word) {
        None => None,
        Some(held) => {
            if is_wanted(caps, name, &held.cap) {
                Some(held.cap)
            } else {
                None
            }
        }
    }
}
