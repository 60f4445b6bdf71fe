//! What a step of a core does.

ghost use Rattle.std.specs.Prelude.{◌≡◌};
ghost use Rattle.kernel_history.specs.spk_nums.specs.WordSteps.{place_in, left_by};

use crate::names::WordName;
use kernel_history::spk_nums::{Call, CoreNo, Reply, WordOp};

/// A step of a core: the call that begins with it, where one does, its operation, the word by its name, the value found there and
/// the value left.
#[derive(Clone, Copy, PartialEq, Eq, Debug)]
pub struct StepView {
    /// The core that makes the step.
    pub core: CoreNo,
    /// The call that begins with it; None where its call goes on.
    pub enters: Option<Call>,
    /// What it does, by the place of its word.
    pub op: WordOp,
    /// The name of that word.
    pub word: WordName,
    /// What it finds in the word.
    pub found: u64,
    /// What it leaves there.
    pub left: u64,
}

/// A step that was made, and what became of its core's call at it.
#[derive(Clone, Copy, PartialEq, Eq, Debug)]
pub struct StepMade {
    /// The step.
    pub view: StepView,
    /// The reply with which the call is decided at it; None where it is not decided at this step.
    pub decides: Option<Reply>,
    /// The reply with which the call returns with it; None where it does not return with this step.
    pub returns: Option<Reply>,
}

/// The place of the word on which a step is made.
#[inline]
pub fn place_in(op: &WordOp) -> u32
    ensures { result ≡ place_in op.now }
{
    match *op {
        WordOp::Load { at } => at,
        WordOp::Compare { at, .. } => at,
        WordOp::Store { at, .. } => at,
        WordOp::Add { at, .. } => at,
    }
}

/// What a step leaves in its word, where it finds this.
#[inline]
pub fn left_by(op: &WordOp, found: u64) -> u64
    ensures { result ≡ left_by op.now found }
{
    match *op {
        WordOp::Load { .. } => found,
        WordOp::Compare { expected, word, .. } => { if found == expected { word } else { found } }
        WordOp::Store { word, .. } => word,
        WordOp::Add { by, .. } => found.wrapping_add(by),
    }
}
