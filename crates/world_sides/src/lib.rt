//! On whose side a step is, where two worlds divide a machine: the frames below a given one and the even liveness numbers are core 0's,
//! all other frames and the odd numbers core 1's. `split_runs` stands on it, so one that lets too much pass would hide what the program is
//! there to show.
#![tactic(auto)]

ghost use Rattle.std.specs.Prelude.{◌↔◌, IsTrue};
ghost use Rattle.world_sides.specs.Sides.{IsOfFrame, IsOfNumber, IsOfCore, IsOwn};

use spk_nums::{CoreNo, FrameNo, WordOp};
use step_views::{StepView, WordName};

/// Whether a frame is this core's, where core 0 has those below a given one.
pub fn has_frame(first: u16, core: CoreNo, frame: FrameNo) -> bool
    ensures { IsTrue result ↔ IsOfFrame first core frame }
{
    (frame.number() < first) == (core.number() == 0)
}

// Whether a liveness number is this core's.
fn has_number(core: CoreNo, number: u8) -> bool
    ensures { IsTrue result ↔ IsOfNumber core number }
{
    (number % 2 == 0) == (core.number() == 0)
}

// Whether a core may do this to a word that another core has for its own: every core loads it, and the other alone leaves anything there.
fn may_at(core: CoreNo, of: CoreNo, op: &WordOp) -> bool
    ensures { IsTrue result ↔ IsOfCore core of op.now }
{
    match op {
        WordOp::Load { .. } => true,
        _ => core == of,
    }
}

/// Whether a step is on its core's own side: on a word of a frame of its own, a liveness number of its own, its own core word or flush word;
/// or it is on the clock, or loads the core word or flush word of another core.
pub fn is_own(first: u16, step: &StepView) -> bool
    ensures { IsTrue result ↔ IsOwn first step.now }
{
    match step.word {
        WordName::Entry { frame, .. } => has_frame(first, step.core, frame),
        WordName::Frame { frame } => has_frame(first, step.core, frame),
        WordName::Count { frame, .. } => has_frame(first, step.core, frame),
        WordName::Core { core } => may_at(step.core, core, &step.op),
        WordName::Flush { core } => may_at(step.core, core, &step.op),
        WordName::Live { number } => has_number(step.core, number),
        WordName::Clock => true,
    }
}
