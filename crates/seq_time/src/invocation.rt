//! Gates, killing, calling and returning.

ghost use Rattle.std.specs.Prelude.{◌≡◌, ◌<◌, ◌≤◌, ◌∷◌, []};
ghost use Rattle.seq_lookups.specs.spk_nums.specs.Capability.{cap_of};
ghost use Rattle.seq_lookups.specs.seq_state.specs.kernel_rules.specs.State.{comp_in, FrameOf, NumberOf, Dead, with_number};
ghost use Rattle.seq_lookups.specs.seq_state.specs.kernel_rules.specs.GracePeriods.{begun};
ghost use Rattle.seq_lookups.specs.seq_state.specs.kernel_rules.specs.Edits.{with_thread, with_stack};
ghost use Rattle.seq_lookups.specs.seq_state.specs.Parts.{frame_of, number_of, thread_fields_of, thing_of};
ghost use Rattle.seq_lookups.specs.seq_state.specs.Maps.{state_of};
ghost use Rattle.seq_lookups.specs.seq_state.specs.Representation.{HasIndex, Represents};

use seq_lookups::seq_state::{Frame, Liveness, Object, SeqKernel, Stack, Thing, ThreadFields};
use seq_lookups::spk_nums::{Cap, CoreNo, FrameNo, Kind};
use seq_lookups::{begin, comp_at, thread_at};

/// A frame with another thread in place of its own; a frame without one stays.
pub(crate) fn with_thread(frame: Frame, thread: ThreadFields) -> Frame
    ensures { frame_of result ≡ with_thread (frame_of frame) (thread_fields_of thread) }
{
    match frame {
        Frame::Kernel(Object::Thread(_)) => Frame::Kernel(Object::Thread(thread)),
        _ => frame,
    }
}

/// A gate to the component of a frame, in the component's epoch; in epoch 1 where the frame has none.
pub(crate) fn gate_to(k: &SeqKernel, frame: FrameNo) -> Cap
    ensures { 1 ≤ (comp_in ((state_of k.now).frame frame)).epoch
        → result ≡ cap_of kinds.Gate frame (comp_in ((state_of k.now).frame frame)).epoch }
{
    let epoch = comp_at(k, frame).epoch.max(1);
    Cap::new(Kind::Gate, frame, u32::from(epoch))
}

/// The liveness number of a component is dead. Its grace period begins, and that of the component's frame.
pub(crate) fn end_life(k: &mut SeqKernel, number: u8, epoch: u16, frame: FrameNo)
    ensures { Represents k.new
        (begun (state_of k.old) (NumberOf number ∷ FrameOf frame ∷ []) (with_number (state_of k.old) number (Dead epoch))) }
{
    begin(k, Thing::NumberOf(number));
    begin(k, Thing::FrameOf(frame));
    k.set_number(number, Liveness::Dead { epoch });
}

/// Gives the current thread of a core another stack.
pub(crate) fn set_stack(k: &mut SeqKernel, core: CoreNo, stack: Stack)
    requires { core < (state_of k.old).limits.cores }
    ensures { Represents k.new (with_stack (state_of k.old) core stack) }
{
    let frame = k.core(core).thread;
    let thread = ThreadFields {
        stack,
        ..thread_at(k, frame)
    };
    let value = with_thread(k.frame(frame), thread);
    k.set_frame(frame, value);
}

/// The current thread of a core leaves the component on top of its stack, whose grace period begins.
pub(crate) fn pop(k: &mut SeqKernel, core: CoreNo, top: FrameNo, rest: Stack)
    requires { core < (state_of k.old).limits.cores }
    ensures { Represents k.new (begun (state_of k.old) (FrameOf top ∷ []) (with_stack (state_of k.old) core rest)) }
{
    let frame = k.core(core).thread;
    let thread = ThreadFields {
        stack: rest,
        ..thread_at(k, frame)
    };
    let value = with_thread(k.frame(frame), thread);
    begin(k, Thing::FrameOf(top));
    k.set_frame(frame, value);
}

ghost use Rattle.seq_lookups.specs.spk_nums.specs.declared.kinds.Kind.TheVariants as kinds;
