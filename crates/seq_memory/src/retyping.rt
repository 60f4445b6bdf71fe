//! Retyping a frame to untyped.

ghost use Rattle.std.specs.Prelude.{◌≤◌, length, [], ◌∷◌};
ghost use Rattle.seq_lookups.specs.spk_nums.specs.declared.kinds.FrameKind.TheVariants as frame_kind;
ghost use Rattle.seq_lookups.specs.seq_state.specs.kernel_rules.specs.State.{thread_in};
ghost use Rattle.seq_lookups.specs.seq_state.specs.kernel_rules.specs.References.{frame_names};
ghost use Rattle.seq_lookups.specs.seq_state.specs.kernel_rules.specs.GracePeriods.{begun};
ghost use Rattle.seq_lookups.specs.seq_state.specs.kernel_rules.specs.Edits.{frames_of};
ghost use Rattle.seq_lookups.specs.seq_state.specs.Parts.{frame_of};
ghost use Rattle.seq_lookups.specs.seq_state.specs.Maps.{state_of};
ghost use Rattle.seq_lookups.specs.seq_state.specs.Representation.{Represents};
ghost use Rattle.seq_memory.specs.Retyped.{retyped};

use seq_lookups::begin;
use seq_lookups::seq_state::{Frame, Object, SeqKernel, Stack, Thing};
use seq_lookups::spk_nums::FrameNo;

/// Releases the reference of a stack of at most one component.
fn release_stack(k: &mut SeqKernel, stack: &Stack)
    requires { length stack.now ≤ 1 }
    ensures { Represents k.new (begun (state_of k.old) (frames_of stack.now) (state_of k.old)) }
{
    if let Some(frame) = stack.top() {
        begin(k, Thing::FrameOf(frame));
    }
}

/// Releases the references of a component: those to its table and to its pages.
fn release_both(k: &mut SeqKernel, table: FrameNo, pages: FrameNo)
    ensures { Represents k.new (begun (state_of k.old) (frames_of (table ∷ pages ∷ [])) (state_of k.old)) }
{
    begin(k, Thing::FrameOf(table));
    begin(k, Thing::FrameOf(pages));
}

/// Releases the references of what a frame has; a thread is in at most one component.
fn release(k: &mut SeqKernel, value: &Frame)
    requires { length (thread_in (frame_of value.now)).stack ≤ 1 }
    ensures { Represents k.new (begun (state_of k.old) (frames_of (frame_names (frame_of value.now))) (state_of k.old)) }
{
    match value {
        Frame::Kernel(Object::Comp(comp)) => release_both(k, comp.table, comp.pages),
        Frame::Kernel(Object::Thread(thread)) => release_stack(k, &thread.stack),
        _ => {}
    }
}

/// Retypes a frame to untyped: its own grace period ends, and the references of its object are released. A thread in it is in
/// at most one component.
pub(crate) fn free(k: &mut SeqKernel, frame: FrameNo)
    requires { length (thread_in ((state_of k.old).frame frame)).stack ≤ 1 }
    ensures { Represents k.new (retyped (state_of k.old) frame frame_kind.Untyped) }
{
    let value = k.frame(frame);
    k.clear(Thing::FrameOf(frame));
    release(k, &value);
    k.set_frame(frame, Frame::Untyped);
}
