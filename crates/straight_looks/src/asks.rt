//! The entry of a call, and the question whether its core's component lives.

ghost use Rattle.std.specs.Prelude.{◌≡◌, ◌<◌, IsTrue, true, []};
ghost use Rattle.spk_nums.specs.declared.steps.StageEnd.TheVariants.{Done};
ghost use Rattle.step_starts.specs.call_plans.specs.PlanOf.{plan_for};
ghost use Rattle.step_starts.specs.call_stages.specs.Fits.{IsOwn};
ghost use Rattle.step_starts.specs.call_stages.specs.declared.stages.Stage.TheVariants.{Enter};
ghost use Rattle.step_starts.specs.frame_words.specs.Live.{live_of_word};
ghost use Rattle.step_starts.specs.stage_thread.specs.Living.{live_end};
ghost use Rattle.straight_looks.specs.Outcomes.{asked_so};
ghost use Rattle.straight_looks.specs.Standing.{stands};

use crate::ends::Asked;
use crate::exits::entry_op;
use crate::rests::rest_asking;
use core_words::Words;
use spk_nums::{Call, EntryNo, WordOp};
use step_lands::act_states::Own;
use step_lands::act_states::frame_words::{CompWord, LiveWord};
use step_lands::act_states::stage_thread::Alive;
use step_lands::call_stages::ActiveCall;

/// The entry of a call, and the question whether its core's component lives, as its plan asks.
#[inline(always)]
#[tactic(auto, using(crate::proofs::Sets::asking))]
pub fn ask<W: Words>(
    own: &Own,
    active: &mut Option<ActiveCall>,
    call: &Call,
    words: &mut W,
) -> Asked
    requires own { IsOwn own.now }
    requires room { own.now.made < own.now.limit }
    requires asks { (plan_for call.now).living ≡ true }
    requires begins { W.core words.old ≡ stands own.now call.now 0 Enter [] }
    ensures { asked_so own.now call.now active.old active.new (W.core words.new) (W.last words.new) result }
{
    words.make(entry_op(own));
    let comp = own.comp;
    let found = words.make(WordOp::Load {
        at: own.layout.entry_at(comp, EntryNo::new(2)),
    });
    match CompWord::unpack(found) {
        None => {
            rest_asking(active, call, 1, Alive::AtComp { comp });
            Asked::Falls { found }
        }
        Some(life) => {
            let found = words.make(WordOp::Load {
                at: own.layout.live_at(life.number),
            });
            if lives(&life, found) {
                Asked::Lives
            } else {
                rest_asking(active, call, 2, Alive::AtLive { life });
                Asked::Falls { found }
            }
        }
    }
}

// Whether the word of a liveness number is live in the component's epoch.
#[inline(always)]
fn lives(life: &CompWord, found: u64) -> bool
    ensures { IsTrue result → live_end life.now.epoch (live_of_word found) ≡ Done tt }
{
    match LiveWord::unpack(found) {
        Some(LiveWord::Live { epoch, frame: _ }) => epoch == life.epoch,
        _ => false,
    }
}
