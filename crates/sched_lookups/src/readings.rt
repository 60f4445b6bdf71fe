//! What a core's name reaches, and what a temporal capability has.

ghost use Rattle.std.specs.Prelude.{◌≡◌, ◌<◌};
ghost use Rattle.std.specs.Option.{option_and_then};
ghost use Rattle.seq_lookups.specs.seq_state.specs.kernel_rules.specs.Access.{usable, own, reached};
ghost use Rattle.seq_lookups.specs.seq_state.specs.kernel_rules.specs.Edits.{tcap_at};
ghost use Rattle.seq_lookups.specs.seq_state.specs.Maps.{state_of};
ghost use Rattle.sched_rules.specs.Schedule.{reach};

use seq_lookups::seq_state::SeqKernel;
use seq_lookups::{Slot, Target, comp_of, reached, tcap_at, usable};
use spk_nums::{Cap, CapId, CoreNo, FrameNo, Qualities};

// What a core may use at a slot, if there is one.
fn usable_at(k: &SeqKernel, core: CoreNo, at: Option<Slot>) -> Option<Cap>
    ensures { result ≡ option_and_then (usable (state_of k.now) core) at }
{
    match at {
        Some(at) => usable(k, core, at),
        None => None,
    }
}

/// What a core of the machine may use under a number of its own, in the table of the component that it works in. None exactly where it
/// reaches no slot, or may use nothing there.
#[tactic(auto, unfolding(sched_rules::specs::Schedule::reach))]
pub fn reach(k: &SeqKernel, core: CoreNo, number: CapId) -> Option<Cap>
    requires { core < (state_of k.now).limits.cores }
    ensures { result ≡ reach (state_of k.now) core number }
{
    let target = Target::Under {
        root: comp_of(k, core).table,
        number: number.number(),
    };
    usable_at(k, core, reached(k, core, target))
}

/// The budget, in ticks, of the temporal capability in a frame; 0 where it has none.
pub fn budget(k: &SeqKernel, tcap: FrameNo) -> u32
    ensures { result ≡ (tcap_at (state_of k.now) tcap).budget }
{
    tcap_at(k, tcap).budget
}

/// The list of the temporal capability in a frame; it names no scheduler where the frame has none.
pub fn qualities(k: &SeqKernel, tcap: FrameNo) -> Qualities
    ensures { result ≡ (tcap_at (state_of k.now) tcap).qualities }
{
    tcap_at(k, tcap).qualities
}
