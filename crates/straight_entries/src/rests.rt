//! Where an entering or a leaving stands whose next word is not the one expected.

ghost use Rattle.std.specs.Prelude.{◌≡◌, [], ◌∷◌, Some};
ghost use Rattle.straight_looks.specs.Standing.{going};
ghost use Rattle.straight_looks.specs.step_starts.specs.act_states.specs.declared.work.Act.TheVariants as act_of;
ghost use Rattle.straight_looks.specs.step_starts.specs.act_states.specs.declared.work.Work.TheVariants as work;
ghost use Rattle.straight_looks.specs.step_starts.specs.call_stages.specs.declared.stages.Stage.TheVariants.{Undecided};

use act_counts::act_states::call_plans::Caps;
use act_counts::act_states::stage_pins::Acquired;
use act_counts::act_states::{Act, Invoking, Returning};
use call_stages::ActiveCall;
use spk_nums::Call;
use straight_acts::rest_acting_counted;
use straight_looks::rest_acting;

/// After so many steps a component is entered here, with no count.
#[inline(never)]
pub(crate) fn rest_entering(
    active: &mut Option<ActiveCall>,
    call: &Call,
    steps: u32,
    invoking: &Invoking,
    found: &Caps,
)
    ensures { active.new ≡ Some (going call.now steps (Undecided (work.Act (act_of.Invoke invoking.now))) found.now []) }
{
    let invoking = *invoking;
    rest_acting(active, call, steps, &Act::Invoke { invoking }, found);
}

/// After so many steps it is entered here, with a count.
#[inline(never)]
pub(crate) fn rest_entering_counted(
    active: &mut Option<ActiveCall>,
    call: &Call,
    steps: u32,
    invoking: &Invoking,
    found: &Caps,
    count: &Acquired,
)
    ensures { active.new ≡ Some (going call.now steps (Undecided (work.Act (act_of.Invoke invoking.now))) found.now (count.now ∷ [])) }
{
    let invoking = *invoking;
    rest_acting_counted(active, call, steps, &Act::Invoke { invoking }, found, count);
}

/// After so many steps a component is left here, with no count.
#[inline(never)]
pub(crate) fn rest_leaving(
    active: &mut Option<ActiveCall>,
    call: &Call,
    steps: u32,
    returning: &Returning,
    found: &Caps,
)
    ensures { active.new ≡ Some (going call.now steps (Undecided (work.Act (act_of.Return returning.now))) found.now []) }
{
    let returning = *returning;
    rest_acting(active, call, steps, &Act::Return { returning }, found);
}
