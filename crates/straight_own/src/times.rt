//! A tick, and a flush.

ghost use Rattle.std.specs.Prelude.{◌≡◌, ◌<◌, ◌-◌, [], Some};
ghost use Rattle.straight_looks.specs.Outcomes.{ended_so, went_so};
ghost use Rattle.straight_looks.specs.Standing.{acts, going, stands};
ghost use Rattle.straight_looks.specs.step_starts.specs.act_states.specs.OwnChanges.{own_changed};
ghost use Rattle.straight_looks.specs.step_starts.specs.act_states.specs.Ticks.{ticks_of};
ghost use Rattle.straight_looks.specs.step_starts.specs.act_states.specs.declared.own.OwnChange.TheVariants.{Empties, Ticks};
ghost use Rattle.straight_looks.specs.step_starts.specs.act_states.specs.declared.work.Act.TheVariants as act_of;
ghost use Rattle.straight_looks.specs.step_starts.specs.act_states.specs.declared.work.Work.TheVariants as work;
ghost use Rattle.straight_looks.specs.step_starts.specs.call_stages.specs.Fits.{IsCore, IsOwn};
ghost use Rattle.straight_looks.specs.step_starts.specs.call_stages.specs.declared.stages.Stage.TheVariants.{Enter, Undecided};

use act_counts::act_states::call_plans::Caps;
use act_counts::act_states::stage_quiet::FlushMark;
use act_counts::act_states::stage_tcap::Charge;
use act_counts::act_states::{Act, Own, OwnChange};
use act_counts::charged_in;
use call_stages::ActiveCall;
use spk_nums::{Call, StageEnd, Value};
use straight_looks::{Went, Words, entry_op, exit, rest_acting};

/// Makes a tick straight through.
#[inline(never)]
#[tactic(auto, using(crate::proofs::Sets::ticking))]
pub fn tick<W: Words>(
    own: &mut Own,
    active: &mut Option<ActiveCall>,
    call: &Call,
    words: &mut W,
) -> Went
    requires own { IsOwn own.old }
    requires room { own.old.made < own.old.limit }
    requires begins { W.core words.old ≡ stands own.old call.now 0 Enter [] }
    ensures { went_so own.old own.new active.old active.new (W.core words.old) (W.core words.new) (W.last words.new) result }
{
    let Call::Tick { n } = *call else {
        return Went::Plainly;
    };
    words.make(entry_op(own));
    let due = own.owed.saturating_add(u64::from(n));
    let from = Charge::new(own.tcap, due);
    let mut charge = from;
    let found = words.make(charge.next(&own.layout));
    match charge.take(&own.layout, found) {
        StageEnd::Going => charge_head(own, active, call, charge, due, words),
        _ => {
            rest_charging(active, call, 1, from);
            Went::Falls { found }
        }
    }
}

// The head that was loaded is charged, with the ticks that are due.
#[inline(always)]
#[tactic(auto, using(crate::proofs::Sets::charging))]
fn charge_head<W: Words>(
    own: &mut Own,
    active: &mut Option<ActiveCall>,
    call: &Call,
    charge: Charge,
    due: u64,
    words: &mut W,
) -> Went
    requires due { ticks_of charge ≡ due }
    requires own { IsOwn own.old }
    requires room { own.old.made < own.old.limit }
    requires fits { IsCore (W.core words.old) }
    requires stands { W.core words.old ≡ acts own.old call.now 2 (act_of.Tick charge) [] }
    ensures { ended_so own.new active.old active.new (W.core words.new) (W.last words.new) result }
{
    let mut after = charge;
    let found = words.make(charge.next(&own.layout));
    match after.take(&own.layout, found) {
        StageEnd::Done(value) => {
            spend(own, charged_in(&value), due);
            Went::Returned {
                reply: exit(own, value, words),
            }
        }
        _ => {
            rest_charging(active, call, 2, charge);
            Went::Falls { found }
        }
    }
}

// Of the ticks that are due so many are charged, and the rest stays owed.
#[inline(always)]
fn spend(own: &mut Own, charged: u32, due: u64)
    ensures { own.new ≡ own_changed own.old (Ticks charged (due - charged)) }
{
    let charged = u64::from(charged);
    own.spent = own.spent.saturating_add(charged);
    own.owed = due.saturating_sub(charged);
}

// After so many steps it charges here.
#[inline(never)]
fn rest_charging(active: &mut Option<ActiveCall>, call: &Call, steps: u32, charge: Charge)
    ensures { active.new ≡ Some (going call.now steps (Undecided (work.Act (act_of.Tick charge))) [] []) }
{
    rest_acting(active, call, steps, &Act::Tick { charge }, &Caps::none());
}

/// Makes a flush straight through.
#[inline(never)]
#[tactic(auto, using(crate::proofs::Sets::flushing))]
pub fn flush<W: Words>(
    own: &mut Own,
    active: &mut Option<ActiveCall>,
    call: &Call,
    words: &mut W,
) -> Went
    requires own { IsOwn own.old }
    requires room { own.old.made < own.old.limit }
    requires begins { W.core words.old ≡ stands own.old call.now 0 Enter [] }
    ensures { went_so own.old own.new active.old active.new (W.core words.old) (W.core words.new) (W.last words.new) result }
{
    let Call::Flush = *call else {
        return Went::Plainly;
    };
    words.make(entry_op(own));
    let core = own.core;
    let mut mark = FlushMark::new(core);
    let found = words.make(mark.next(&own.layout));
    let _end = mark.take(&own.layout, found);
    match mark {
        FlushMark::AtLoad { core: _ } => {
            rest_acting(active, call, 1, &Act::Flush { core }, &Caps::none());
            Went::Falls { found }
        }
        FlushMark::AtStore { core: _, stamp: _ } => {
            drop_translations(own);
            words.make(mark.next(&own.layout));
            Went::Returned {
                reply: exit(own, Value::Nothing, words),
            }
        }
    }
}

// The core's translations are dropped; where it has none, none is written.
#[inline(always)]
#[tactic(auto, using(crate::proofs::Timing::empties))]
fn drop_translations(own: &mut Own)
    ensures { own.new ≡ own_changed own.old Empties }
{
    if own.cached.len() != 0 {
        own.change(&OwnChange::Empties);
    }
}
