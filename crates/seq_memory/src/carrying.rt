//! The changes of the calls on memory, given what was looked up.

ghost use Rattle.std.specs.Prelude.{◌≡◌, ◌<◌, ◌≤◌, ℕ, length};
ghost use Rattle.seq_lookups.specs.spk_nums.specs.CallLimits.{InLimits};
ghost use Rattle.seq_lookups.specs.spk_nums.specs.declared.kinds.FrameKind.TheVariants as frame_kind;
ghost use Rattle.seq_lookups.specs.spk_nums.specs.declared.calls.Call.TheVariants.{Retype, Map, Touch};
ghost use Rattle.seq_lookups.specs.spk_nums.specs.declared.replies.Value.TheVariants.{Nothing};
ghost use Rattle.seq_lookups.specs.spk_nums.specs.declared.replies.Reply.TheVariants.{Ok as ok};
ghost use Rattle.seq_lookups.specs.seq_state.specs.kernel_rules.specs.State.{thread_in};
ghost use Rattle.seq_lookups.specs.seq_state.specs.kernel_rules.specs.CallRelation.{rule_of};
ghost use Rattle.seq_lookups.specs.seq_state.specs.Maps.{state_of};
ghost use Rattle.seq_lookups.specs.seq_state.specs.Representation.{Represents};
ghost use Rattle.seq_lookups.specs.Carried.{IsCarriedOut, removed};
ghost use Rattle.seq_plans.specs.declared.walking.Looked.{Looked};
ghost use Rattle.seq_plans.specs.Walks.{left_of};
ghost use Rattle.seq_plans.specs.Carrying.{change_in, MayCarry};
ghost use Rattle.seq_memory.specs.Own.{IsMemoryCall};
ghost use Rattle.seq_memory.specs.Retyped.{retyped};

use crate::retyping::free;
use crate::touching::{cache, flags_of};
use seq_lookups::seq_state::{Frame, Object, SeqKernel};
use seq_lookups::spk_nums::{
    Call, Cap, CoreNo, FrameArg, FrameKind, FrameNo, Kind, PageFlags, PageNo, Translation, Value,
};
use seq_lookups::{comp_of, fill, remove, thread_at};
use seq_plans::{Looked, translation_of};

/// Retypes a frame to untyped, unless its thread is in more than one component.
fn free_few(k: &mut SeqKernel, frame: FrameNo)
    ensures { length (thread_in ((state_of k.old).frame frame)).stack ≤ 1
        → Represents k.new (retyped (state_of k.old) frame frame_kind.Untyped) }
{
    if thread_at(k, frame).stack.len() <= 1 {
        free(k, frame);
    }
}

/// A frame becomes one of this kind.
fn turn_into(k: &mut SeqKernel, frame: FrameNo, kind: FrameKind)
    ensures { (core r : ℕ) (l : Looked) → MayCarry (state_of k.old) core (Retype r frame kind) l
        → Represents k.new (retyped (state_of k.old) frame kind) }
{
    match kind {
        FrameKind::Untyped => free_few(k, frame),
        FrameKind::User => k.set_frame(frame, Frame::User),
        FrameKind::Kernel => k.set_frame(frame, Frame::Kernel(Object::Blank)),
    }
}

/// `retype`: a frame of the machine becomes one of this kind.
fn retype(k: &mut SeqKernel, frame: FrameArg, kind: FrameKind) -> Value
    ensures { (core r : ℕ) (l : Looked) → MayCarry (state_of k.old) core (Retype r frame kind) l
        → IsCarriedOut (state_of k.old)
        (change_in (state_of k.old) core (left_of (rule_of (state_of k.old) core (Retype r frame kind)) l)) (ok result) k.new }
{
    if frame.number() < k.frames() {
        turn_into(k, FrameNo::new(frame.number()), kind);
        return Value::Nothing;
    }
    Value::Nothing
}

/// `map`: the place maps the frame.
fn map(k: &mut SeqKernel, looked: &Looked, frame: FrameArg, flags: PageFlags) -> Value
    requires { flags.0 < 4 }
    ensures { (core p v r : ℕ) → MayCarry (state_of k.old) core (Map p v r frame flags) looked.now → IsCarriedOut (state_of k.old)
        (change_in (state_of k.old) core (left_of (rule_of (state_of k.old) core (Map p v r frame flags)) looked.now)) (ok result) k.new }
{
    if let Some(at) = looked.at {
        if frame.number() < k.frames() {
            let page = Cap::new(
                Kind::Page,
                FrameNo::new(frame.number()),
                u32::from(flags.number()),
            );
            fill(k, at, page);
            return Value::Nothing;
        }
    }
    Value::Nothing
}

/// `unmap`: what the place holds is removed.
fn take_away(k: &mut SeqKernel, looked: &Looked) -> Value
    ensures { (at : slot) (cap : Capability) → looked.now.at ≡ Some at → looked.now.held ≡ Some cap
        → (result ≡ Nothing) × Represents k.new (removed (state_of k.old) at cap) }
{
    if let Some(at) = looked.at {
        if let Some(cap) = looked.held {
            remove(k, at, cap);
            return Value::Nothing;
        }
    }
    Value::Nothing
}

/// `touch`: the translation that is cached, or else the mapping, which is cached then.
fn touch(k: &mut SeqKernel, core: CoreNo, page: PageNo, looked: &Looked) -> Value
    requires { core < (state_of k.old).limits.cores }
    ensures { MayCarry (state_of k.old) core (Touch page) looked.now → IsCarriedOut (state_of k.old)
        (change_in (state_of k.old) core (left_of (rule_of (state_of k.old) core (Touch page)) looked.now)) (ok result) k.new }
{
    let pages = comp_of(k, core).pages;
    if let Some(item) = translation_of(&k.core(core).cached, pages, page) {
        return Value::Page {
            frame: item.frame,
            flags: item.flags,
        };
    }
    let Some(mapping) = looked.held else {
        return Value::Nothing;
    };
    let frame = mapping.frame();
    let flags = flags_of(&mapping);
    cache(
        k,
        core,
        Translation {
            pages,
            page,
            frame,
            flags,
        },
    );
    Value::Page { frame, flags }
}

/// Carries out a call on memory of a core of the machine that has looked this up, and answers its value: the change of the call's
/// rule. None of its causes may stand, and what it refers to must have been found (`MayCarry`); of any other call nothing is said.
pub fn carry_out(k: &mut SeqKernel, core: CoreNo, call: &Call, looked: &Looked) -> Value
    requires own { IsMemoryCall call.now }
    requires limits { InLimits call.now }
    requires core { core < (state_of k.old).limits.cores }
    ensures { MayCarry (state_of k.old) core call.now looked.now → IsCarriedOut (state_of k.old)
        (change_in (state_of k.old) core (left_of (rule_of (state_of k.old) core call.now) looked.now)) (ok result) k.new }
{
    match *call {
        Call::Retype { r: _, f, k: kind } => retype(k, f, kind),
        Call::Map {
            p: _,
            v: _,
            r: _,
            f,
            w,
        } => map(k, looked, f, w),
        Call::Unmap { p: _, v: _ } => take_away(k, looked),
        Call::Touch { v } => touch(k, core, v, looked),
        Call::Flush => {
            k.flush(core);
            Value::Nothing
        }
        _ => unreachable!(),
    }
}

ghost use Rattle.std.specs.Prelude.{Some};
ghost use Rattle.seq_lookups.specs.spk_nums.specs.Capability.{Capability};
ghost use Rattle.seq_lookups.specs.seq_state.specs.kernel_rules.specs.Access.{Slot as slot};
