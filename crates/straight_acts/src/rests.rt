//! Where a straight call stands in its act whose next word is not the one expected.
//!
//! Each function writes one stage, and is never inlined: what makes room for a stage clears it at its entry, and a call whose words are all
//! those expected writes none.

ghost use Rattle.std.specs.Prelude.{◌≡◌, [], ◌∷◌, Some};
ghost use Rattle.straight_looks.specs.Standing.{going};
ghost use Rattle.straight_looks.specs.step_starts.specs.act_states.specs.declared.work.Work.TheVariants as work;
ghost use Rattle.straight_looks.specs.step_starts.specs.call_stages.specs.declared.stages.Stage.TheVariants.{Undecided};

use act_counts::act_states::call_plans::Caps;
use act_counts::act_states::stage_pins::{Acquired, AcquiredCounts, Pin};
use act_counts::act_states::{Act, Work};
use call_stages::{ActiveCall, Stage};
use spk_nums::Call;

/// After so many steps its first count is acquired here for this act.
#[inline(never)]
pub(crate) fn rest_acquiring(
    active: &mut Option<ActiveCall>,
    call: &Call,
    steps: u32,
    pin: Pin,
    change: i32,
    act: &Act,
    found: &Caps,
)
    ensures { active.new ≡ Some (going call.now steps (Undecided (work.Acquire pin change act.now)) found.now []) }
{
    *active = Some(ActiveCall {
        steps,
        stage: Stage::Undecided {
            work: Work::Acquire {
                pin,
                change,
                act: *act,
            },
        },
        found: *found,
        read: None,
        counts: AcquiredCounts::none(),
        call: *call,
    });
}

/// After so many steps this act is made, with a count.
#[inline(never)]
pub fn rest_acting_counted(
    active: &mut Option<ActiveCall>,
    call: &Call,
    steps: u32,
    act: &Act,
    found: &Caps,
    count: &Acquired,
)
    ensures { active.new ≡ Some (going call.now steps (Undecided (work.Act act.now)) found.now (count.now ∷ [])) }
{
    let mut counts = AcquiredCounts::none();
    counts.push(*count);
    *active = Some(ActiveCall {
        steps,
        stage: Stage::Undecided {
            work: Work::Act { act: *act },
        },
        found: *found,
        read: None,
        counts,
        call: *call,
    });
}
