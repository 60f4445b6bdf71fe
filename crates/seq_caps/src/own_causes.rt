//! The own causes of refusal of the calls on capabilities.

ghost use Rattle.std.specs.Prelude.{◌≡◌, ◌<◌, [], ◌∷◌};
ghost use Rattle.seq_lookups.specs.seq_state.specs.kernel_rules.specs.CapabilityCalls.{outside, not_blank, not_taken};
ghost use Rattle.seq_lookups.specs.seq_state.specs.Maps.{state_of};
ghost use Rattle.seq_plans.specs.Walks.{left_of, causes_of};
ghost use Rattle.seq_plans.specs.OwnCauses.{cause_of, causes_in, AreFitCauses, judged_rule};
ghost use Rattle.seq_caps.specs.Own.{IsCapCall};

use crate::frames::{epoch_of, is_blank, is_live};
use seq_lookups::seq_state::{SeqKernel, Thing};
use seq_lookups::spk_nums::{Call, CoreNo, FrameArg, FrameNo, Make, Reply};
use seq_plans::{Cause, Causes, Looked, beyond, outside};

/// That a frame of the machine is not blank.
fn not_blank(k: &SeqKernel, frame: FrameArg) -> Cause
    ensures { cause_of result ≡ not_blank (state_of k.now) frame }
{
    Cause::When {
        stands: frame.number() < k.frames() && !is_blank(k.frame(FrameNo::new(frame.number()))),
        refusal: Reply::FrameKind,
    }
}

/// Why a component with this liveness number is not made in a frame.
fn not_made(k: &SeqKernel, outside: Cause, frame: FrameArg, live: u8) -> Causes
    ensures { causes_in result ≡ cause_of outside ∷ not_blank (state_of k.now) frame ∷ not_taken (state_of k.now) live }
{
    let number = k.number(live);
    Causes {
        first: Some(outside),
        second: Some(not_blank(k, frame)),
        third: Some(Cause::When {
            stands: is_live(&number),
            refusal: Reply::Occupied,
        }),
        fourth: Some(Cause::WaitedFor(Thing::NumberOf(live))),
        fifth: Some(Cause::When {
            stands: epoch_of(&number) == k.epochs(),
            refusal: Reply::EpochsSpent,
        }),
        sixth: None,
    }
}

/// The own causes of a call on capabilities of a core of the machine that has looked this up, in order.
pub fn causes(k: &SeqKernel, core: CoreNo, call: &Call, looked: &Looked) -> Causes
    requires own { IsCapCall call.now }
    ensures exact { causes_in result ≡ causes_of (left_of (judged_rule (state_of k.now) core call.now) looked.now) }
    ensures fit { AreFitCauses (causes_in result) }
{
    match *call {
        Call::Make {
            what,
            range: _,
            frame,
            table: _,
            slot: _,
        } => match what {
            Make::Comp {
                table: _,
                pages: _,
                live,
            } => not_made(k, outside(&looked.first, frame), frame, live),
            _ => Causes::two(outside(&looked.first, frame), not_blank(k, frame)),
        },
        Call::Part {
            r: _,
            f,
            n,
            t: _,
            b: _,
        } => Causes::one(beyond(&looked.first, f, n)),
        Call::Look { .. }
        | Call::Copy { .. }
        | Call::Remove { .. }
        | Call::Grow { .. }
        | Call::Shrink { .. } => Causes::none(),
        _ => unreachable!(),
    }
}
