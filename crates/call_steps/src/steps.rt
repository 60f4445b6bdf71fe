//! The steps of a call: its next step, what it takes from the word found, and whether it is ready.

ghost use Rattle.spk_nums.specs.WordSteps.{place_in};
ghost use Rattle.std.specs.Prelude.{◌<◌, ◌≡◌, ◌≤◌};
ghost use Rattle.step_looks.specs.call_plans.specs.PlanOf.{plan_for};
ghost use Rattle.step_looks.specs.call_stages.specs.Fits.{StageFits, WorkFits};
ghost use Rattle.step_looks.specs.call_stages.specs.Steps.{call_after, core_word, decides_at_name, is_last, is_ready, stage_move, told};
ghost use Rattle.step_looks.specs.call_stages.specs.Steps.{took, work_move, work_ready};
ghost use Rattle.step_looks.specs.stage_pins.specs.Held.{AllFit};
ghost use Rattle.step_looks.specs.word_map.specs.Moves.{op_of};
ghost use Rattle.step_looks.specs.word_map.specs.Places.{size_of};

use call_acts::{act_op, act_ready};
use spk_nums::{EntryNo, Stamp, WordOp};
use step_counts::{acquire_step, scan_step};
use step_ends::act_step;
use step_lands::act_states::call_plans::{Decides, plan_of};
use step_lands::act_states::frame_words::CoreWord;
use step_lands::act_states::stage_look::Look;
use step_lands::act_states::stage_pins::AcquiredCounts;
use step_lands::act_states::word_map::Layout;
use step_lands::act_states::{Act, Own, Work};
use step_lands::call_stages::{ActiveCall, Stage, Told};
use step_lands::goes_on;
use step_looks::{ask, enter, look_up, read};
use step_stores::{store, tail_op};

/// The next step of a call that has acquired these counts, at a stage. What it names is of the layout's machine.
#[inline(always)]
pub fn stage_op(own: &Own, counts: &AcquiredCounts, stage: &Stage, layout: &Layout) -> WordOp
    requires fits { StageFits layout.now stage.now }
    requires counts { AllFit layout.now counts.now }
    requires core { own.now.core < layout.now.cores }
    ensures step { result ≡ op_of layout.now (stage_move own.now counts.now stage.now) }
    ensures below { place_in result < size_of layout.now }
{
    match stage {
        Stage::Enter => WordOp::Store {
            at: layout.core_at(own.core),
            word: core_word(true, own.exit),
        },
        Stage::Living { alive } => alive.next(layout),
        Stage::Undecided { work } => work_op(work, layout),
        Stage::Decided { reply, drawn, tail } => tail_op(reply, *drawn, tail, counts, layout),
        Stage::Leave { reply: _, stamp } => WordOp::Store {
            at: layout.core_at(own.core),
            word: core_word(false, *stamp),
        },
    }
}

// The next step of the work of a call.
#[inline(always)]
fn work_op(work: &Work, layout: &Layout) -> WordOp
    requires { WorkFits layout.now work.now }
    ensures step { result ≡ op_of layout.now (work_move work.now) }
    ensures below { place_in result < size_of layout.now }
{
    match work {
        Work::Lookup { look } => look.next(layout),
        Work::Read { comp, look: _ } => WordOp::Load {
            at: layout.entry_at(*comp, EntryNo::new(2)),
        },
        Work::Scan { quiet, act: _ } => quiet.next(layout),
        Work::Acquire {
            pin,
            change: _,
            act: _,
        } => pin.next(layout),
        Work::Act { act } => match act {
            Act::Remove { close, cap: _ } => close.next(layout),
            Act::Tick { charge } => charge.next(layout),
            Act::Share { pair } => pair.next(layout),
            _ => act_op(act, layout),
        },
    }
}

// The word of a core.
#[inline]
fn core_word(inside: bool, stamp: Stamp) -> u64
    ensures { result ≡ core_word inside stamp }
{
    let word = CoreWord { inside, stamp };
    word.pack()
}

// Whether the next load is that of the place that is looked for.
#[inline]
fn is_last(look: &Look) -> bool
    ensures { result ≡ is_last look.now }
{
    match look {
        Look::AtRoot { root: _, number: _ } => false,
        _ => true,
    }
}

// Whether a call is decided where its last name is found.
#[inline]
fn decides_at_name(decides: Decides) -> bool
    ensures { result ≡ decides_at_name decides }
{
    match decides {
        Decides::LeafEntry => true,
        _ => false,
    }
}

/// Whether the call is ready: its next step is the one that decides its `ok`, or it is decided.
#[inline]
pub fn is_ready(active: &ActiveCall) -> bool
    ensures { result ≡ is_ready active.now }
{
    match &active.stage {
        Stage::Enter => false,
        Stage::Living { alive: _ } => false,
        Stage::Undecided { work } => work_ready(active, work),
        Stage::Decided {
            reply: _,
            drawn: _,
            tail: _,
        } => true,
        Stage::Leave { reply: _, stamp: _ } => true,
    }
}

// Whether the next step of its work is the one that decides the call's `ok`.
#[inline]
fn work_ready(active: &ActiveCall, work: &Work) -> bool
    ensures { result ≡ work_ready (plan_for active.now.call) active.now.found work.now }
{
    match work {
        Work::Lookup { look } => {
            let plan = plan_of(&active.call);
            decides_at_name(plan.decides)
                && active.found.count() + 1 == plan.names.count()
                && is_last(look)
        }
        Work::Read { comp: _, look: _ } => false,
        Work::Scan { quiet: _, act: _ } => false,
        Work::Acquire {
            pin: _,
            change: _,
            act: _,
        } => false,
        Work::Act { act } => act_ready(act),
    }
}

/// Takes the word that the call's step found; after a store this is the word stored. The call is changed in its place,
/// and only in what the step changes. One that returns stays as it was. What the step led to is told where it said before that the call
/// goes on.
#[inline(always)]
#[tactic(auto, using(crate::proofs::Staged::told_from, crate::proofs::Staged::call_from))]
pub fn absorb(active: &mut ActiveCall, own: &Own, found: u64, tells: &mut Told)
    requires core { own.now.core < own.now.layout.cores }
    requires cores { own.now.layout.cores ≤ 8 }
    requires fits { StageFits own.now.layout active.old.stage }
    requires few { active.old.steps < 1000 }
    requires going { tells.old ≡ Told.Going }
    ensures told { tells.new ≡ told (took own.now active.old found) }
    ensures after { active.new ≡ call_after active.old (took own.now active.old found) }
{
    match &mut active.stage {
        Stage::Enter => enter(active, own.limit <= own.made, own, tells),
        Stage::Living { alive: _ } => ask(active, own, found, tells),
        Stage::Undecided { work } => match work {
            Work::Lookup { look } => {
                if look.follows(&own.layout, found) {
                    goes_on(active)
                } else {
                    look_up(active, own, found, tells)
                }
            }
            Work::Read { comp: _, look: _ } => read(active, own, found, tells),
            Work::Scan { quiet: _, act: _ } => scan_step(active, own, found, tells),
            Work::Acquire { .. } => acquire_step(active, own, found, tells),
            Work::Act { act: _ } => act_step(active, own, found, tells),
        },
        Stage::Decided { .. } => store(active, own, found),
        Stage::Leave { reply, stamp } => {
            *tells = Told::Returned {
                reply: *reply,
                stamp: *stamp,
            };
        }
    }
}
