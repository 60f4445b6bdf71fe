//! The steps after which an act goes on, made in its place.
//!
//! Most steps of an act change where the act stands, and nothing else. Such a step is written into the act, and the call has then nothing
//! to build, to copy or to store. A step that ends an act, or that few calls make, leaves the act as it was: what it leads to is told by
//! `act_took`.

ghost use Rattle.call_acts.specs.Moving.{MovesTo};
ghost use Rattle.make_acts.specs.act_states.specs.Acts.{ActFits, took_act, took_close, took_invoking, took_making, took_returning};
ghost use Rattle.make_acts.specs.act_states.specs.Acts.{took_switching, took_untyping};
ghost use Rattle.make_acts.specs.act_states.specs.Refills.{took_refill};
ghost use Rattle.make_acts.specs.act_states.specs.Switches.{SwitchingFits, took_claim};
ghost use Rattle.make_acts.specs.act_states.specs.Ticks.{took_tick};
ghost use Rattle.make_acts.specs.act_states.specs.Touches.{TouchFits, took_touch};
ghost use Rattle.make_acts.specs.act_states.specs.Untypings.{UntypingFits};
ghost use Rattle.make_acts.specs.stage_quiet.specs.Removal.{CloseFits, close_after, close_end};
ghost use Rattle.make_acts.specs.stage_tcap.specs.Charging.{ChargeFits};
ghost use Rattle.make_acts.specs.stage_tcap.specs.Refilling.{RefillFits};
ghost use Rattle.make_acts.specs.stage_thread.specs.Claiming.{ClaimFits, claim_after, claim_end};
ghost use Rattle.std.specs.Prelude.{◌≤◌};

use act_counts::act_states::stage_quiet::Close;
use act_counts::act_states::stage_tcap::{Charge, Refill};
use act_counts::act_states::stage_thread::Claim;
use act_counts::act_states::word_map::Layout;
use act_counts::act_states::{
    Act, Invoking, InvokingAt, Making, MakingAt, Returning, ReturningAt, SwitchAt, Switching,
    Touching, Untyping, UntypingAt,
};
use act_counts::frame_in;
use make_acts::stored;
use spk_nums::{Cap, StageEnd};
use thread_acts::below_in;

/// Makes the step of an act that found this word, where the same act goes on after it, and says so; else the act stays as it was. What it
/// names is of the layout's machine.
#[inline]
pub fn act_moves(act: &mut Act, layout: &Layout, found: u64) -> bool
    requires { ActFits layout.now act.old }
    ensures { MovesTo result (took_act layout.now act.old found) act.old act.new }
{
    match act {
        Act::Remove { close, cap } => close_moves(close, *cap, layout, found),
        Act::Make { making } => making_moves(making, found),
        Act::Tick { charge } => charge_moves(charge, layout, found),
        Act::Touch { touching } => touch_moves(touching, layout, found),
        Act::Untype { untyping } => untyping_moves(untyping, layout, found),
        Act::Invoke { invoking } => invoking_moves(invoking, found),
        Act::Return { returning } => returning_moves(returning, found),
        Act::Switch { switching } => switching_moves(switching, layout, found),
        Act::Refill { refill } => refill_moves(refill, layout, found),
        _ => false,
    }
}

// A removal goes on from its compare to the draw of its stamp.
#[inline]
fn close_moves(close: &mut Close, cap: Cap, layout: &Layout, found: u64) -> bool
    requires { CloseFits layout.now close.old }
    ensures { MovesTo result (took_close cap (close_after close.old found) (close_end close.old found))
        (Act.Remove close.old cap) (Act.Remove close.new cap) }
{
    let _cap = cap;
    let mut next = *close;
    match next.take(layout, found) {
        StageEnd::Going => {
            *close = next;
            true
        }
        _ => false,
    }
}

// A making goes on from the store of one word of its object to the next.
#[inline]
fn making_moves(making: &mut Making, found: u64) -> bool
    ensures { MovesTo result (took_making making.old found) (Act.Make making.old) (Act.Make making.new) }
{
    let _found = found;
    let at = making.at;
    match at {
        MakingAt::Store { word, entry } => {
            making.at = stored(making.object, word, entry);
            true
        }
        _ => false,
    }
}

// A tick goes on from the load of the head to its compare.
#[inline]
fn charge_moves(charge: &mut Charge, layout: &Layout, found: u64) -> bool
    requires { ChargeFits layout.now charge.old }
    ensures { MovesTo result (took_tick charge.old found) (Act.Tick charge.old) (Act.Tick charge.new) }
{
    let mut next = *charge;
    match next.take(layout, found) {
        StageEnd::Going => {
            *charge = next;
            true
        }
        _ => false,
    }
}

// A giving back goes on from one load to the next, and to its compare.
#[inline]
fn refill_moves(refill: &mut Refill, layout: &Layout, found: u64) -> bool
    requires { RefillFits layout.now refill.old }
    ensures { MovesTo result (took_refill refill.old found) (Act.Refill refill.old) (Act.Refill refill.new) }
{
    let mut next = *refill;
    match next.take(layout, found) {
        StageEnd::Going => {
            *refill = next;
            true
        }
        _ => false,
    }
}

// A touch of what is not cached goes on from the root entry to the page's.
#[inline]
fn touch_moves(touching: &mut Touching, layout: &Layout, found: u64) -> bool
    requires { TouchFits layout.now touching.old }
    ensures { MovesTo result (took_touch touching.old found) (Act.Touch touching.old) (Act.Touch touching.new) }
{
    if touching.cached.is_some() {
        return false;
    }
    let mut look = touching.look;
    match look.take(layout, found) {
        StageEnd::Going => {
            touching.look = look;
            true
        }
        _ => false,
    }
}

// An untyping goes on from one step of its sweep to the next. Room for a second sweep is in this function alone.
#[inline(never)]
fn untyping_moves(untyping: &mut Untyping, layout: &Layout, found: u64) -> bool
    requires { UntypingFits layout.now untyping.old }
    ensures { MovesTo result (took_untyping layout.now untyping.old found) (Act.Untype untyping.old) (Act.Untype untyping.new) }
{
    match &mut untyping.at {
        UntypingAt::Sweep { word: _, sweep } => {
            let mut next = *sweep;
            match next.take(layout, found) {
                StageEnd::Going => {
                    *sweep = next;
                    true
                }
                _ => false,
            }
        }
        _ => false,
    }
}

// An entering goes on from one load of a component's words to the next.
#[inline]
fn invoking_moves(invoking: &mut Invoking, found: u64) -> bool
    requires { invoking.old.frames ≤ 512 }
    ensures { MovesTo result (took_invoking invoking.old found) (Act.Invoke invoking.old) (Act.Invoke invoking.new) }
{
    let at = invoking.at;
    match at {
        InvokingAt::LoadTable => match frame_in(invoking.frames, found) {
            Some(table) => {
                invoking.at = InvokingAt::LoadPages { table };
                true
            }
            None => false,
        },
        InvokingAt::LoadPages { table } => match frame_in(invoking.frames, found) {
            Some(pages) => {
                invoking.at = InvokingAt::LoadComp { table, pages };
                true
            }
            None => false,
        },
        _ => false,
    }
}

// A leaving goes on from one load of the words of the component below to the next.
#[inline]
fn returning_moves(returning: &mut Returning, found: u64) -> bool
    requires { returning.old.frames ≤ 512 }
    ensures { MovesTo result (took_returning returning.old found) (Act.Return returning.old) (Act.Return returning.new) }
{
    let at = returning.at;
    match at {
        ReturningAt::LoadBelow => match below_in(returning.frames, found) {
            Some(comp) => {
                returning.at = ReturningAt::LoadTable { comp };
                true
            }
            None => false,
        },
        ReturningAt::LoadTable { comp } => match frame_in(returning.frames, found) {
            Some(table) => {
                returning.at = ReturningAt::LoadPages { comp, table };
                true
            }
            None => false,
        },
        _ => false,
    }
}

// A switch goes on from one step of its claim to the next, from one load to the next, and from the store of its own thread to the draw.
#[inline]
fn switching_moves(switching: &mut Switching, layout: &Layout, found: u64) -> bool
    requires { SwitchingFits layout.now switching.now }
    ensures { MovesTo result (took_switching switching.entry.now found) (Act.Switch switching.entry.now) (Act.Switch switching.exit.now) }
{
    let at = switching.at;
    match at {
        SwitchAt::Claim { claim } => claim_moves(switching, claim, layout, found),
        SwitchAt::LoadTable { to } => match frame_in(switching.frames, found) {
            Some(table) => {
                switching.at = SwitchAt::LoadPages { to, table };
                true
            }
            None => false,
        },
        SwitchAt::Leave { to, table, pages } => {
            switching.at = SwitchAt::Draw { to, table, pages };
            true
        }
        _ => false,
    }
}

// A switch that stands at this step of its claim goes on to the next, or to the loads.
#[inline]
fn claim_moves(switching: &mut Switching, claim: Claim, layout: &Layout, found: u64) -> bool
    requires fits { ClaimFits layout.now claim }
    ensures { MovesTo result (took_claim switching.entry.now (claim_after claim found) (claim_end layout.now.frames claim found))
        (Act.Switch switching.entry.now) (Act.Switch switching.exit.now) }
{
    let mut claim = claim;
    match claim.take(layout, found) {
        StageEnd::Going => {
            switching.at = SwitchAt::Claim { claim };
            true
        }
        StageEnd::Done(to) => {
            switching.at = SwitchAt::LoadTable { to };
            true
        }
        _ => false,
    }
}
