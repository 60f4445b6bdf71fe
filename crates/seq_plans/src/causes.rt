//! A call's own causes of refusal, as data.

ghost use Rattle.std.specs.Prelude.{◌≡◌, ◌<◌, [], ◌∷◌, ◌⊎◌};
ghost use Rattle.seq_state.specs.kernel_rules.specs.Rules.{CauseMay, OneMay};
ghost use Rattle.seq_state.specs.kernel_rules.specs.GracePeriods.{MayWait, MayBeUnflushed};
ghost use Rattle.seq_state.specs.Parts.{thing_of};
ghost use Rattle.seq_state.specs.Maps.{state_of};
ghost use Rattle.seq_state.specs.Representation.{HasIndex};
ghost use Rattle.seq_plans.specs.OwnCauses.{cause_of, with_cause, causes_in, AreFitCauses};
ghost use Rattle.seq_plans.specs.Refusals.{Decides};

use crate::telling::is_refusal;
use seq_lookups::{flushes_of, waits_of};
use seq_state::{SeqKernel, Thing};
use spk_nums::{Cap, CoreNo, FrameArg, Reply};

/// A cause of refusal of a call's own.
#[derive(Clone, Copy)]
pub enum Cause {
    /// A condition, which stands or not, with its reply.
    When { stands: bool, refusal: Reply },
    /// That another core may still be in the grace period of this thing.
    WaitedFor(Thing),
    /// That a core may not have flushed in the grace period of this thing.
    Unflushed(Thing),
}

/// The own causes of a call, in their order, at most six.
#[derive(Clone, Copy)]
pub struct Causes {
    pub first: Option<Cause>,
    pub second: Option<Cause>,
    pub third: Option<Cause>,
    pub fourth: Option<Cause>,
    pub fifth: Option<Cause>,
    pub sixth: Option<Cause>,
}

impl Causes {
    /// No cause.
    pub fn none() -> Causes
        ensures { causes_in result ≡ [] }
    {
        Causes {
            first: None,
            second: None,
            third: None,
            fourth: None,
            fifth: None,
            sixth: None,
        }
    }

    /// One cause.
    pub fn one(a: Cause) -> Causes
        ensures { causes_in result ≡ cause_of a ∷ [] }
    {
        Causes {
            first: Some(a),
            ..Causes::none()
        }
    }

    /// Two causes.
    pub fn two(a: Cause, b: Cause) -> Causes
        ensures { causes_in result ≡ cause_of a ∷ cause_of b ∷ [] }
    {
        Causes {
            first: Some(a),
            second: Some(b),
            ..Causes::none()
        }
    }

    /// Three causes.
    pub fn three(a: Cause, b: Cause, c: Cause) -> Causes
        ensures { causes_in result ≡ cause_of a ∷ cause_of b ∷ cause_of c ∷ [] }
    {
        Causes {
            first: Some(a),
            second: Some(b),
            third: Some(c),
            ..Causes::none()
        }
    }
}

/// Whether a range has a frame.
fn has_frame(range: &Cap, frame: FrameArg) -> bool
    ensures { result ≡ has_frame (found range.now) frame }
{
    let number = frame.number();
    let first = range.frame().number();
    first <= number && u32::from(number) < u32::from(first) + range.arg()
}

/// That a frame is not in a range, where that was found.
pub fn outside(range: &Option<Cap>, frame: FrameArg) -> Cause
    ensures { cause_of result ≡ outside (named_of range.now) frame }
{
    let stands = match range {
        None => false,
        Some(range) => !has_frame(range, frame),
    };
    Cause::When {
        stands,
        refusal: Reply::OutOfRange,
    }
}

/// Whether a range has these frames, and they are some.
fn has_frames(range: &Cap, frame: FrameArg, count: u16) -> bool
    ensures { result ≡ has_frames (found range.now) frame count }
{
    let number = frame.number();
    let first = range.frame().number();
    let end = u32::from(number) + u32::from(count);
    1 <= count && first <= number && end <= u32::from(first) + range.arg()
}

/// That a part is empty, or not within a range, where that was found.
pub fn beyond(range: &Option<Cap>, frame: FrameArg, count: u16) -> Cause
    ensures { cause_of result ≡ beyond (named_of range.now) frame count }
{
    let stands = match range {
        None => false,
        Some(range) => !has_frames(range, frame, count),
    };
    Cause::When {
        stands,
        refusal: Reply::OutOfRange,
    }
}

/// The refusal of a cause that stands.
fn refusal_of(k: &SeqKernel, core: CoreNo, cause: &Cause) -> Option<Reply>
    requires { IsFitCause (cause_of cause.now) }
    ensures { result ≡ refusal_of (state_of k.now) core (cause_of cause.now) }
{
    match cause {
        Cause::When { stands, refusal } => { if *stands { Some(*refusal) } else { None } }
        Cause::WaitedFor(thing) => waits_of(k, core, *thing),
        Cause::Unflushed(thing) => flushes_of(k, *thing),
    }
}

/// The refusal of a cause, if there is one and it stands.
fn refusal_if(k: &SeqKernel, core: CoreNo, cause: &Option<Cause>) -> Option<Reply>
    requires { AreFitCauses (with_cause cause.now []) }
    ensures { result ≡ first_cause (state_of k.now) core (with_cause cause.now []) }
{
    match cause {
        None => None,
        Some(cause) => refusal_of(k, core, cause),
    }
}

/// That of the fifth cause, or else of the sixth.
fn last_cause(k: &SeqKernel, core: CoreNo, causes: &Causes) -> Option<Reply>
    requires { AreFitCauses (with_cause causes.now.fifth (with_cause causes.now.sixth [])) }
    ensures { result ≡ first_cause (state_of k.now) core (with_cause causes.now.fifth (with_cause causes.now.sixth [])) }
{
    if let Some(refusal) = refusal_if(k, core, &causes.fifth) {
        return Some(refusal);
    }
    refusal_if(k, core, &causes.sixth)
}

/// That of the third cause, or else of the first of those after it that stands.
fn later_cause(k: &SeqKernel, core: CoreNo, causes: &Causes) -> Option<Reply>
    requires { AreFitCauses
        (with_cause causes.now.third (with_cause causes.now.fourth (with_cause causes.now.fifth (with_cause causes.now.sixth [])))) }
    ensures { result ≡ first_cause (state_of k.now) core
        (with_cause causes.now.third (with_cause causes.now.fourth (with_cause causes.now.fifth (with_cause causes.now.sixth [])))) }
{
    if let Some(refusal) = refusal_if(k, core, &causes.third) {
        return Some(refusal);
    }
    if let Some(refusal) = refusal_if(k, core, &causes.fourth) {
        return Some(refusal);
    }
    last_cause(k, core, causes)
}

/// The refusal of the first cause that stands, in their order: of a condition its own, of a thing for which another core waits
/// `quiescing`, and of one that a core has not flushed `unflushed`, each with the lowest such core.
pub fn first_cause(k: &SeqKernel, core: CoreNo, causes: &Causes) -> Option<Reply>
    requires { AreFitCauses (causes_in causes.now) }
    ensures { result ≡ first_cause (state_of k.now) core (causes_in causes.now) }
{
    if let Some(refusal) = refusal_if(k, core, &causes.first) {
        return Some(refusal);
    }
    if let Some(refusal) = refusal_if(k, core, &causes.second) {
        return Some(refusal);
    }
    later_cause(k, core, causes)
}

/// Whether core `other`, not this one, is in a call and may still be in the grace period of a thing.
pub(crate) fn may_wait(k: &SeqKernel, core: CoreNo, thing: Thing, other: CoreNo) -> bool
    requires { HasIndex (thing_of thing) }
    ensures { Decides result (MayWait (state_of k.now) core (thing_of thing) other) }
{
    if other.number() < k.cores() && other != core {
        k.core(other).inside & k.pending(thing, other).not_passed
    } else {
        false
    }
}

/// Whether a core may not have flushed in the grace period of a thing.
pub(crate) fn may_be_unflushed(k: &SeqKernel, thing: Thing, other: CoreNo) -> bool
    requires { HasIndex (thing_of thing) }
    ensures { Decides result (MayBeUnflushed (state_of k.now) (thing_of thing) other) }
{
    if other.number() < k.cores() {
        k.pending(thing, other).flush_unknown
    } else {
        false
    }
}

/// Whether a thing may be waited for with this reply.
fn waited_may(k: &SeqKernel, core: CoreNo, thing: Thing, refusal: &Reply) -> bool
    requires { HasIndex (thing_of thing) }
    ensures { Decides result (WaitedMay (state_of k.now) core (thing_of thing) refusal.now) }
{
    match *refusal {
        Reply::Quiescing(other) => may_wait(k, core, thing, other),
        _ => false,
    }
}

/// Whether a thing may be unflushed with this reply.
fn unflushed_may(k: &SeqKernel, thing: Thing, refusal: &Reply) -> bool
    requires { HasIndex (thing_of thing) }
    ensures { Decides result (UnflushedMay (state_of k.now) (thing_of thing) refusal.now) }
{
    match *refusal {
        Reply::Unflushed(other) => may_be_unflushed(k, thing, other),
        _ => false,
    }
}

/// Whether a condition stands with this reply.
#[tactic(auto, using(crate::proofs::Deciding::when_decides))]
fn when_may(stands: bool, cause: &Reply, refusal: &Reply) -> bool
    requires { IsRefusal cause.now }
    ensures { Decides result (IsTrue stands × (refusal.now ≡ cause.now)) }
{
    stands & is_refusal(cause, refusal)
}

/// Whether a cause may stand with this reply.
fn cause_may(k: &SeqKernel, core: CoreNo, cause: &Cause, refusal: &Reply) -> bool
    requires { IsFitCause (cause_of cause.now) }
    ensures { Decides result (CauseMay (state_of k.now) core (cause_of cause.now) refusal.now) }
{
    match cause {
        Cause::When {
            stands,
            refusal: cause,
        } => when_may(*stands, cause, refusal),
        Cause::WaitedFor(thing) => waited_may(k, core, *thing, refusal),
        Cause::Unflushed(thing) => unflushed_may(k, *thing, refusal),
    }
}

/// Whether a cause, if there is one, or one of those after it may stand with this reply.
fn first_may(k: &SeqKernel, core: CoreNo, cause: &Option<Cause>, refusal: &Reply) -> bool
    requires { AreFitCauses (with_cause cause.now []) }
    ensures { Decides result (OneMay (state_of k.now) core (with_cause cause.now []) refusal.now) }
{
    match cause {
        None => false,
        Some(cause) => cause_may(k, core, cause, refusal),
    }
}

/// Whether one of the causes may stand with this reply, whatever the others do.
pub fn one_may(k: &SeqKernel, core: CoreNo, causes: &Causes, refusal: &Reply) -> bool
    requires { AreFitCauses (causes_in causes.now) }
    ensures { Decides result (OneMay (state_of k.now) core (causes_in causes.now) refusal.now) }
{
    let first = first_may(k, core, &causes.first, refusal);
    let second = first_may(k, core, &causes.second, refusal);
    let third = first_may(k, core, &causes.third, refusal);
    let fourth = first_may(k, core, &causes.fourth, refusal);
    let fifth = first_may(k, core, &causes.fifth, refusal);
    let sixth = first_may(k, core, &causes.sixth, refusal);
    first | (second | (third | (fourth | (fifth | sixth))))
}

ghost use Rattle.std.specs.Prelude.{IsTrue};
ghost use Rattle.seq_state.specs.kernel_rules.specs.Access.{found};
ghost use Rattle.seq_state.specs.kernel_rules.specs.CapabilityCalls.{has_frame, has_frames, beyond, outside};
ghost use Rattle.seq_plans.specs.Reaches.{named_of};
ghost use Rattle.seq_state.specs.kernel_rules.specs.Laws.{IsRefusal};
ghost use Rattle.seq_state.specs.kernel_rules.specs.Rules.{WaitedMay, UnflushedMay, refusal_of, first_cause};
ghost use Rattle.seq_plans.specs.OwnCauses.{IsFitCause};
