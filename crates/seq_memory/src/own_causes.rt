//! The own causes of refusal of the calls on memory.

ghost use Rattle.std.specs.Prelude.{◌≡◌, ◌<◌, ℕ, nat_lt, if◌then◌else◌, [], ◌∷◌};
ghost use Rattle.seq_lookups.specs.spk_nums.specs.declared.calls.Call.TheVariants.{Retype, Touch};
ghost use Rattle.seq_lookups.specs.spk_nums.specs.declared.kinds.FrameKind.TheVariants as frame_kind;
ghost use Rattle.seq_lookups.specs.seq_state.specs.kernel_rules.specs.MemoryCalls.{is_untyped_now, not_untyped, not_retyped, not_user};
ghost use Rattle.seq_lookups.specs.seq_state.specs.kernel_rules.specs.CapabilityCalls.{outside};
ghost use Rattle.seq_lookups.specs.seq_state.specs.kernel_rules.specs.CallRelation.{rule_of};
ghost use Rattle.seq_plans.specs.declared.walking.Looked.{Looked};
ghost use Rattle.seq_lookups.specs.seq_state.specs.Maps.{state_of};
ghost use Rattle.seq_plans.specs.Reaches.{named_of};
ghost use Rattle.seq_plans.specs.Walks.{left_of, causes_of};
ghost use Rattle.seq_plans.specs.OwnCauses.{cause_of, causes_in, IsFitCause, AreFitCauses, judged_rule};
ghost use Rattle.seq_memory.specs.Own.{IsMemoryCall};

use crate::frames::{is_empty, is_untyped, is_user};
use seq_lookups::comp_of;
use seq_lookups::seq_state::{SeqKernel, Thing};
use seq_lookups::spk_nums::{Call, Cap, CoreNo, FrameArg, FrameKind, FrameNo, PageNo, Reply};
use seq_plans::{Cause, Causes, Looked, outside, translation_of};

/// Why a frame of the machine may not be retyped to untyped.
fn not_freed(k: &SeqKernel, outside: Cause, frame: FrameNo) -> Causes
    requires frame { frame < (state_of k.now).limits.frames }
    ensures { causes_in result ≡ cause_of outside ∷ not_retyped (state_of k.now) frame frame_kind.Untyped }
{
    let value = k.frame(frame);
    let refs = k.refs(frame);
    Causes {
        first: Some(outside),
        second: Some(Cause::When {
            stands: is_untyped(&value),
            refusal: Reply::FrameKind,
        }),
        third: Some(Cause::When {
            stands: refs > 0,
            refusal: Reply::Referenced(refs),
        }),
        fourth: Some(Cause::WaitedFor(Thing::FrameOf(frame))),
        fifth: Some(Cause::Unflushed(Thing::FrameOf(frame))),
        sixth: Some(Cause::When {
            stands: !is_empty(k, frame, &value),
            refusal: Reply::NotEmpty,
        }),
    }
}

/// Why a frame may not become a user or a kernel frame.
fn not_taken(k: &SeqKernel, frame: FrameArg) -> Cause
    ensures { cause_of result ≡ not_untyped (state_of k.now) frame }
{
    Cause::When {
        stands: frame.number() < k.frames() && !is_untyped(&k.frame(FrameNo::new(frame.number()))),
        refusal: Reply::FrameKind,
    }
}

/// Why a frame may not be mapped.
fn not_user(k: &SeqKernel, frame: FrameArg) -> Cause
    ensures { cause_of result ≡ not_user (state_of k.now) frame }
{
    Cause::When {
        stands: frame.number() < k.frames() && !is_user(&k.frame(FrameNo::new(frame.number()))),
        refusal: Reply::FrameKind,
    }
}

/// Why a frame may not be retyped to untyped. Of one that the machine does not have, its range alone is asked.
fn not_untyped_again(k: &SeqKernel, outside: Cause, frame: FrameArg) -> Causes
    requires { IsFitCause (cause_of outside) }
    ensures exact { causes_in result ≡ cause_of outside
        ∷ (if nat_lt frame (state_of k.now).limits.frames then not_retyped (state_of k.now) frame frame_kind.Untyped else []) }
    ensures fit { AreFitCauses (causes_in result) }
{
    if frame.number() < k.frames() {
        not_freed(k, outside, FrameNo::new(frame.number()))
    } else {
        Causes::one(outside)
    }
}

/// Why a frame may not be retyped.
fn not_retyped(k: &SeqKernel, range: &Option<Cap>, frame: FrameArg, kind: FrameKind) -> Causes
    ensures exact { (r : ℕ) (core : ℕ) (l : Looked) → l.first ≡ range.now
        → causes_in result ≡ causes_of (left_of (judged_rule (state_of k.now) core (Retype r frame kind)) l) }
    ensures fit { AreFitCauses (causes_in result) }
{
    let outside = outside(range, frame);
    match kind {
        FrameKind::Untyped => not_untyped_again(k, outside, frame),
        FrameKind::User => Causes::two(outside, not_taken(k, frame)),
        FrameKind::Kernel => Causes::two(outside, not_taken(k, frame)),
    }
}

/// Why a touch is refused that finds its page cached.
fn not_touched(k: &SeqKernel, core: CoreNo, page: PageNo, looked: &Looked) -> Causes
    requires { core < (state_of k.now).limits.cores }
    ensures exact { causes_in result ≡ causes_of (left_of (rule_of (state_of k.now) core (Touch page)) looked.now) }
    ensures fit { AreFitCauses (causes_in result) }
{
    let pages = comp_of(k, core).pages;
    match translation_of(&k.core(core).cached, pages, page) {
        None => Causes::none(),
        Some(_) => Causes::one(Cause::When {
            stands: page.number() > 4095,
            refusal: Reply::NoSlot,
        }),
    }
}

/// The own causes of a call on memory of a core of the machine that has looked this up, in order. Of a retype to untyped of a
/// frame that the machine does not have, its range alone is asked.
pub fn causes(k: &SeqKernel, core: CoreNo, call: &Call, looked: &Looked) -> Causes
    requires own { IsMemoryCall call.now }
    requires core { core < (state_of k.now).limits.cores }
    ensures exact { causes_in result ≡ causes_of (left_of (judged_rule (state_of k.now) core call.now) looked.now) }
    ensures fit { AreFitCauses (causes_in result) }
{
    match *call {
        Call::Retype { r: _, f, k: kind } => not_retyped(k, &looked.first, f, kind),
        Call::Map {
            p: _,
            v: _,
            r: _,
            f,
            w: _,
        } => Causes::two(outside(&looked.second, f), not_user(k, f)),
        Call::Unmap { p: _, v: _ } => Causes::none(),
        Call::Touch { v } => not_touched(k, core, v, looked),
        Call::Flush => Causes::none(),
        _ => unreachable!(),
    }
}
