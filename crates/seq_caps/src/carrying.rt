//! The changes of the calls on capabilities, given what was looked up.

ghost use Rattle.std.specs.Prelude.{◌≡◌, ◌<◌, ◌≤◌, ◌+◌, ◌^◌, IsSome, [], ◌∷◌, None};
ghost use Rattle.seq_lookups.specs.spk_nums.specs.Limits.{least_arg, end_of_arg};
ghost use Rattle.seq_lookups.specs.spk_nums.specs.CallLimits.{InLimits, MakeInLimits};
ghost use Rattle.seq_lookups.specs.spk_nums.specs.declared.kinds.Kind.TheVariants as kinds;
ghost use Rattle.seq_lookups.specs.spk_nums.specs.declared.calls.Call.TheVariants.{Make as make_call};
ghost use Rattle.seq_lookups.specs.spk_nums.specs.declared.replies.Reply.TheVariants.{Ok as ok};
ghost use Rattle.seq_lookups.specs.seq_state.specs.kernel_rules.specs.State.{Comp, Live, with_number};
ghost use Rattle.seq_lookups.specs.seq_state.specs.kernel_rules.specs.CapabilityCalls.{epoch_of};
ghost use Rattle.seq_lookups.specs.seq_state.specs.kernel_rules.specs.Edits.{cleared};
ghost use Rattle.seq_lookups.specs.seq_state.specs.kernel_rules.specs.CallRelation.{rule_of};
ghost use Rattle.seq_lookups.specs.seq_state.specs.Parts.{object_of};
ghost use Rattle.seq_lookups.specs.seq_state.specs.Maps.{state_of};
ghost use Rattle.seq_lookups.specs.seq_state.specs.Representation.{Represents};
ghost use Rattle.seq_lookups.specs.Carried.{IsCarriedOut, removed};
ghost use Rattle.seq_plans.specs.declared.walking.Looked.{Looked};
ghost use Rattle.seq_plans.specs.Walks.{left_of};
ghost use Rattle.seq_plans.specs.Carrying.{change_in, MayCarry};
ghost use Rattle.seq_caps.specs.Own.{IsCapCall};
ghost use Rattle.seq_caps.specs.Holding.{holding};

use crate::frames::{clear, epoch_of, plain_cap, put};
use seq_lookups::seq_state::{
    CompFields, Liveness, Object, SeqKernel, Stack, TcapFields, ThreadFields,
};
use seq_lookups::spk_nums::{
    Call, Cap, CoreNo, FrameArg, FrameNo, Kind, Make, Qualities, Rights, Value,
};
use seq_lookups::{Slot, fill, remove};
use seq_plans::Looked;

/// The frame holds the object, and the place its capability.
fn hold(k: &mut SeqKernel, frame: FrameNo, object: Object, kind: Kind, at: Slot)
    requires least { least_arg kind ≡ 0 }
    requires end { 0 < end_of_arg kind }
    ensures { Represents k.new (holding (state_of k.old) frame (object_of object) kind at) }
{
    put(k, frame, object, plain_cap(kind, frame), at);
}

/// The frame is a node whose places are free, and the place holds its capability.
fn hold_node(k: &mut SeqKernel, frame: FrameNo, object: Object, kind: Kind, at: Slot)
    requires least { least_arg kind ≡ 0 }
    requires end { 0 < end_of_arg kind }
    ensures { Represents k.new (holding (cleared (state_of k.old) frame) frame (object_of object) kind at) }
{
    clear(k, frame);
    put(k, frame, object, plain_cap(kind, frame), at);
}

/// The next epoch of a liveness number, where it has one left.
fn epoch_after(k: &SeqKernel, live: u8) -> u16
    ensures { epoch_of ((state_of k.now).number live) + 1 ≤ (state_of k.now).limits.epochs
        → result ≡ epoch_of ((state_of k.now).number live) + 1 }
{
    let epoch = epoch_of(&k.number(live));
    if epoch < k.epochs() { epoch + 1 } else { epoch }
}

/// The frame is a component, which is live in this epoch of its liveness number.
fn hold_comp(
    k: &mut SeqKernel,
    frame: FrameNo,
    table: FrameNo,
    pages: FrameNo,
    live: u8,
    epoch: u16,
    at: Slot,
)
    requires { live < 64 }
    ensures { Represents k.new (holding (with_number (state_of k.old) live (Live epoch frame)) frame
        (Comp (record { table = table; pages = pages; number = live; epoch = epoch })) kinds.Comp at) }
{
    let comp = CompFields {
        table,
        pages,
        number: live,
        epoch,
    };
    k.set_number(live, Liveness::Live { epoch, frame });
    put(
        k,
        frame,
        Object::Comp(comp),
        plain_cap(Kind::Comp, frame),
        at,
    );
}

/// Makes an object in a frame, where what it refers to was found.
fn make_in(k: &mut SeqKernel, what: &Make, frame: FrameNo, looked: &Looked, at: Slot)
    requires { MakeInLimits what.now }
    ensures { (core r t b : ℕ) → MayCarry (state_of k.old) core (make_call what.now r frame t b) looked.now → looked.now.at ≡ Some at
        → IsCarriedOut (state_of k.old)
        (change_in (state_of k.old) core (left_of (rule_of (state_of k.old) core (make_call what.now r frame t b)) looked.now))
        (ok Nothing) k.new }
{
    match *what {
        Make::Table => hold_node(k, frame, Object::Table, Kind::Table, at),
        Make::Leaf => hold_node(k, frame, Object::Leaf, Kind::Leaf, at),
        Make::Pages => hold_node(k, frame, Object::Pages, Kind::Pages, at),
        Make::Pleaf => hold_node(k, frame, Object::Pleaf, Kind::Pleaf, at),
        Make::Thread { comp: _ } => {
            if let Some(comp) = looked.third {
                let thread = ThreadFields {
                    stack: Stack::one(comp.frame()),
                    runs_on: None,
                };
                hold(k, frame, Object::Thread(thread), Kind::Thread, at);
            }
        }
        Make::Tcap { sched, quality } => {
            let tcap = TcapFields {
                budget: 0,
                qualities: Qualities::one(sched, quality),
            };
            hold(k, frame, Object::Tcap(tcap), Kind::Tcap, at);
        }
        Make::Comp {
            table: _,
            pages: _,
            live,
        } => {
            if let Some(table) = looked.third {
                if let Some(pages) = looked.fourth {
                    let epoch = epoch_after(k, live);
                    hold_comp(k, frame, table.frame(), pages.frame(), live, epoch, at);
                }
            }
        }
    }
}

/// `make`: the frame holds the object, and the place its capability.
fn make(k: &mut SeqKernel, what: &Make, frame: FrameArg, looked: &Looked) -> Value
    requires { MakeInLimits what.now }
    ensures { (core r t b : ℕ) → MayCarry (state_of k.old) core (make_call what.now r frame t b) looked.now
        → IsCarriedOut (state_of k.old)
        (change_in (state_of k.old) core (left_of (rule_of (state_of k.old) core (make_call what.now r frame t b)) looked.now))
        (ok result) k.new }
{
    if let Some(at) = looked.at {
        if frame.number() < k.frames() {
            make_in(k, what, FrameNo::new(frame.number()), looked, at);
            return Value::Nothing;
        }
    }
    Value::Nothing
}

/// `look`: the capability.
fn look(looked: &Looked) -> Value
    ensures { (k : Capability) → looked.now.first ≡ Some k → result ≡ cap_value k }
{
    match looked.first {
        Some(cap) => Value::Cap(cap),
        None => Value::Nothing,
    }
}

/// `copy`: the place holds the capability, with those of its rights that are among these.
fn copy(k: &mut SeqKernel, looked: &Looked, rights: Rights) -> Value
    ensures { (core a t b : ℕ) → MayCarry (state_of k.old) core (Copy a t b rights) looked.now
        → IsCarriedOut (state_of k.old)
        (change_in (state_of k.old) core (left_of (rule_of (state_of k.old) core (Copy a t b rights)) looked.now))
        (ok result) k.new }
{
    if let Some(cap) = looked.first {
        if let Some(at) = looked.at {
            fill(k, at, cap.keep(rights));
            return Value::Nothing;
        }
    }
    Value::Nothing
}

/// `part`: the place holds the range of these frames, with the rights of the range that has them.
fn part(k: &mut SeqKernel, frame: FrameArg, count: u16, looked: &Looked) -> Value
    ensures { (core r t b : ℕ) → MayCarry (state_of k.old) core (Part r frame count t b) looked.now
        → IsCarriedOut (state_of k.old)
        (change_in (state_of k.old) core (left_of (rule_of (state_of k.old) core (Part r frame count t b)) looked.now))
        (ok result) k.new }
{
    if let Some(range) = looked.first {
        if let Some(at) = looked.at {
            if frame.number() < k.frames() {
                fill(k, at, range.part(FrameNo::new(frame.number()), count));
                return Value::Nothing;
            }
        }
    }
    Value::Nothing
}

/// `grow`: the root entry links the leaf.
fn grow(k: &mut SeqKernel, looked: &Looked) -> Value
    ensures { (core t i l : ℕ) → MayCarry (state_of k.old) core (Grow t i l) looked.now
        → IsCarriedOut (state_of k.old)
        (change_in (state_of k.old) core (left_of (rule_of (state_of k.old) core (Grow t i l)) looked.now)) (ok result) k.new }
{
    if let Some(leaf) = looked.second {
        if let Some(at) = looked.at {
            fill(k, at, Cap::new(Kind::Link, leaf.frame(), 0));
            return Value::Nothing;
        }
    }
    Value::Nothing
}

/// `remove` and `shrink`: what the place holds is removed.
fn take_away(k: &mut SeqKernel, looked: &Looked) -> Value
    ensures { (at : slot) (k' : Capability) → looked.now.at ≡ Some at → looked.now.held ≡ Some k'
        → (result ≡ Nothing) × Represents k.new (removed (state_of k.old) at k') }
{
    if let Some(at) = looked.at {
        if let Some(cap) = looked.held {
            remove(k, at, cap);
            return Value::Nothing;
        }
    }
    Value::Nothing
}

/// Carries out a call on capabilities of a core that has looked this up, and answers its value: the change of the call's rule. None of
/// its causes may stand, and what it refers to must have been found (`MayCarry`); of any other call nothing is said.
pub fn carry_out(k: &mut SeqKernel, core: CoreNo, call: &Call, looked: &Looked) -> Value
    requires own { IsCapCall call.now }
    requires limits { InLimits call.now }
    ensures { MayCarry (state_of k.old) core call.now looked.now → IsCarriedOut (state_of k.old)
        (change_in (state_of k.old) core (left_of (rule_of (state_of k.old) core call.now) looked.now)) (ok result) k.new }
{
    match *call {
        Call::Look { a: _ } => look(looked),
        Call::Copy {
            a: _,
            t: _,
            b: _,
            rights,
        } => copy(k, looked, rights),
        Call::Remove { t: _, b: _ } => take_away(k, looked),
        Call::Grow { t: _, i: _, l: _ } => grow(k, looked),
        Call::Shrink { t: _, i: _ } => take_away(k, looked),
        Call::Make {
            what,
            range: _,
            frame,
            table: _,
            slot: _,
        } => make(k, &what, frame, looked),
        Call::Part {
            r: _,
            f,
            n,
            t: _,
            b: _,
        } => part(k, f, n, looked),
        _ => unreachable!(),
    }
}

ghost use Rattle.std.specs.Prelude.{ℕ, Some};
ghost use Rattle.seq_lookups.specs.spk_nums.specs.Capability.{Capability};
ghost use Rattle.seq_lookups.specs.spk_nums.specs.declared.calls.Call.TheVariants.{Copy, Grow, Part};
ghost use Rattle.seq_lookups.specs.spk_nums.specs.declared.replies.Value.TheVariants.{Nothing, Cap as cap_value};
ghost use Rattle.seq_lookups.specs.seq_state.specs.kernel_rules.specs.Access.{Slot as slot};
