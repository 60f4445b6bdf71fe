//! What the frames hold that calls read: threads, components and temporal capabilities.

ghost use Rattle.std.specs.Prelude.{◌≡◌, ◌<◌};
ghost use Rattle.seq_state.specs.kernel_rules.specs.State.{thread_in, comp_in, tcap_in, thread_of, comp_of, first_of_stack};
ghost use Rattle.seq_state.specs.Parts.{comp_fields_of, thread_fields_of, tcap_fields_of, frame_of};
ghost use Rattle.seq_state.specs.Maps.{state_of};

use seq_state::spk_nums::{CoreNo, FrameNo, Qualities};
use seq_state::{CompFields, Frame, Object, SeqKernel, Stack, TcapFields, ThreadFields};

/// The thread of a frame; that of no component where it has none.
fn thread_in(frame: Frame) -> ThreadFields
    ensures { thread_fields_of result ≡ thread_in (frame_of frame) }
{
    match frame {
        Frame::Kernel(Object::Thread(thread)) => thread,
        _ => ThreadFields {
            stack: Stack::empty(),
            runs_on: None,
        },
    }
}

/// The component of a frame; one of zeros where it has none.
fn comp_in(frame: Frame) -> CompFields
    ensures { comp_fields_of result ≡ comp_in (frame_of frame) }
{
    match frame {
        Frame::Kernel(Object::Comp(comp)) => comp,
        _ => CompFields {
            table: FrameNo::new(0),
            pages: FrameNo::new(0),
            number: 0,
            epoch: 0,
        },
    }
}

/// The temporal capability of a frame; one without budget where it has none.
fn tcap_in(frame: Frame) -> TcapFields
    ensures { tcap_fields_of result ≡ tcap_in (frame_of frame) }
{
    match frame {
        Frame::Kernel(Object::Tcap(tcap)) => tcap,
        _ => TcapFields {
            budget: 0,
            qualities: Qualities::empty(),
        },
    }
}

/// The thread in a frame; that of no component where it has none.
pub fn thread_at(k: &SeqKernel, frame: FrameNo) -> ThreadFields
    ensures { thread_fields_of result ≡ thread_in ((state_of k.now).frame frame) }
{
    thread_in(k.frame(frame))
}

/// The component in a frame; one of zeros where it has none.
pub fn comp_at(k: &SeqKernel, frame: FrameNo) -> CompFields
    ensures { comp_fields_of result ≡ comp_in ((state_of k.now).frame frame) }
{
    comp_in(k.frame(frame))
}

/// The temporal capability in a frame; one without budget where it has none.
pub fn tcap_at(k: &SeqKernel, frame: FrameNo) -> TcapFields
    ensures { tcap_fields_of result ≡ tcap_in ((state_of k.now).frame frame) }
{
    tcap_in(k.frame(frame))
}

/// The current thread of a core of the machine.
pub fn thread_of(k: &SeqKernel, core: CoreNo) -> ThreadFields
    requires { core < (state_of k.now).limits.cores }
    ensures { thread_fields_of result ≡ thread_of (state_of k.now) core }
{
    thread_at(k, k.core(core).thread)
}

/// The newest frame of a stack, or 0.
fn top_of(stack: &Stack) -> FrameNo
    ensures { result ≡ first_of_stack stack.now }
{
    match stack.top() {
        Some(frame) => frame,
        None => FrameNo::new(0),
    }
}

/// The component that a core of the machine works in: the one on top of its current thread's stack.
pub fn comp_of(k: &SeqKernel, core: CoreNo) -> CompFields
    requires { core < (state_of k.now).limits.cores }
    ensures { comp_fields_of result ≡ comp_of (state_of k.now) core }
{
    let thread = thread_of(k, core);
    comp_at(k, top_of(&thread.stack))
}
