//! Where a straight call stands in its scan whose next word is not the one expected.

ghost use Rattle.std.specs.Prelude.{◌≡◌, [], Some};
ghost use Rattle.straight_looks.specs.Standing.{going};
ghost use Rattle.straight_looks.specs.step_starts.specs.act_states.specs.declared.work.Work.TheVariants as work;
ghost use Rattle.straight_looks.specs.step_starts.specs.call_stages.specs.declared.stages.Stage.TheVariants.{Undecided};

use act_counts::act_states::call_plans::Caps;
use act_counts::act_states::stage_pins::AcquiredCounts;
use act_counts::act_states::stage_quiet::Quiet;
use act_counts::act_states::{Act, Work};
use call_stages::{ActiveCall, Stage};
use spk_nums::Call;

/// After so many steps it scans here before this act.
#[inline(never)]
pub(crate) fn rest_scanning(
    active: &mut Option<ActiveCall>,
    call: &Call,
    steps: u32,
    quiet: &Quiet,
    act: &Act,
    found: &Caps,
)
    ensures { active.new ≡ Some (going call.now steps (Undecided (work.Scan quiet.now act.now)) found.now []) }
{
    *active = Some(ActiveCall {
        steps,
        stage: Stage::Undecided {
            work: Work::Scan {
                quiet: *quiet,
                act: *act,
            },
        },
        found: *found,
        read: None,
        counts: AcquiredCounts::none(),
        call: *call,
    });
}
