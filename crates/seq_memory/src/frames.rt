//! What a frame has: whether it is untyped or a user frame, and whether its object is empty.

ghost use Rattle.std.specs.Prelude.{◌≡◌, is_some};
ghost use Rattle.seq_lookups.specs.seq_state.specs.kernel_rules.specs.Access.{held_in};
ghost use Rattle.seq_lookups.specs.seq_state.specs.kernel_rules.specs.MemoryCalls.{is_untyped, is_user, holds_nothing, is_empty_object};
ghost use Rattle.seq_lookups.specs.seq_state.specs.kernel_rules.specs.MemoryCalls.{is_empty};
ghost use Rattle.seq_lookups.specs.seq_state.specs.Parts.{object_of, frame_of, place_held};
ghost use Rattle.seq_lookups.specs.seq_state.specs.Maps.{state_of};

use seq_lookups::seq_state::{Frame, Object, Place, SeqKernel};
use seq_lookups::spk_nums::{EntryNo, FrameNo};

/// Whether a frame is untyped.
pub(crate) fn is_untyped(frame: &Frame) -> bool
    ensures { result ≡ is_untyped (frame_of frame.now) }
{
    match frame {
        Frame::Untyped => true,
        _ => false,
    }
}

/// Whether a frame is a user frame.
pub(crate) fn is_user(frame: &Frame) -> bool
    ensures { result ≡ is_user (frame_of frame.now) }
{
    match frame {
        Frame::User => true,
        _ => false,
    }
}

/// Whether a place holds something.
fn is_held(place: &Place) -> bool
    ensures { result ≡ is_some (held_in (place_held place.now)) }
{
    match place {
        Place::Holds(_) => true,
        _ => false,
    }
}

/// Whether no place of a node holds anything.
fn holds_nothing(k: &SeqKernel, node: FrameNo) -> bool
    ensures { result ≡ holds_nothing (state_of k.now) node }
{
    'each: for number in 0..64 {
        let place = k.place(node, EntryNo::new(number));
        if is_held(&place) {
            return false;
        }
    }
    true
}

/// Whether an object is empty: a node holds nothing, a thread is in one component, a temporal capability has no budget.
fn is_empty_object(k: &SeqKernel, frame: FrameNo, object: &Object) -> bool
    ensures { result ≡ is_empty_object (state_of k.now) frame (object_of object.now) }
{
    match object {
        Object::Blank => true,
        Object::Comp(_) => true,
        Object::Thread(thread) => thread.stack.len() <= 1,
        Object::Tcap(tcap) => tcap.budget == 0,
        Object::Table => holds_nothing(k, frame),
        Object::Leaf => holds_nothing(k, frame),
        Object::Pages => holds_nothing(k, frame),
        Object::Pleaf => holds_nothing(k, frame),
    }
}

/// Whether a frame has no object that is not empty.
pub(crate) fn is_empty(k: &SeqKernel, frame: FrameNo, value: &Frame) -> bool
    ensures { result ≡ is_empty (state_of k.now) frame (frame_of value.now) }
{
    match value {
        Frame::Kernel(object) => is_empty_object(k, frame, object),
        _ => true,
    }
}
