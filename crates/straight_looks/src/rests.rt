//! Where a straight call stands whose next word is not the one expected.
//!
//! Each function writes one stage, and is never inlined: what makes room for a stage clears it at its entry, and a call whose words are all
//! those expected writes none.

ghost use Rattle.std.specs.Prelude.{◌≡◌, [], Some};
ghost use Rattle.step_starts.specs.act_states.specs.declared.work.Work.TheVariants as work;
ghost use Rattle.step_starts.specs.call_stages.specs.declared.stages.Stage.TheVariants.{Living, Undecided};
ghost use Rattle.straight_looks.specs.Standing.{going};

use spk_nums::Call;
use step_lands::act_states::call_plans::Caps;
use step_lands::act_states::stage_look::Look;
use step_lands::act_states::stage_pins::AcquiredCounts;
use step_lands::act_states::stage_thread::Alive;
use step_lands::act_states::{Act, Work};
use step_lands::call_stages::{ActiveCall, Stage};

/// After so many steps it is asked here whether the core's component lives.
#[inline(never)]
pub fn rest_asking(active: &mut Option<ActiveCall>, call: &Call, steps: u32, alive: Alive)
    ensures { active.new ≡ Some (going call.now steps (Living alive) [] []) }
{
    *active = Some(ActiveCall {
        steps,
        stage: Stage::Living { alive },
        found: Caps::none(),
        read: None,
        counts: AcquiredCounts::none(),
        call: *call,
    });
}

/// After so many steps a place is looked up here, and the names have led to these.
#[inline(never)]
pub fn rest_looking(
    active: &mut Option<ActiveCall>,
    call: &Call,
    steps: u32,
    look: Look,
    found: &Caps,
)
    ensures { active.new ≡ Some (going call.now steps (Undecided (work.Lookup look)) found.now []) }
{
    *active = Some(ActiveCall {
        steps,
        stage: Stage::Undecided {
            work: Work::Lookup { look },
        },
        found: *found,
        read: None,
        counts: AcquiredCounts::none(),
        call: *call,
    });
}

/// After so many steps this act is made, with no count.
#[inline(never)]
pub fn rest_acting(
    active: &mut Option<ActiveCall>,
    call: &Call,
    steps: u32,
    act: &Act,
    found: &Caps,
)
    ensures { active.new ≡ Some (going call.now steps (Undecided (work.Act act.now)) found.now []) }
{
    *active = Some(ActiveCall {
        steps,
        stage: Stage::Undecided {
            work: Work::Act { act: *act },
        },
        found: *found,
        read: None,
        counts: AcquiredCounts::none(),
        call: *call,
    });
}
