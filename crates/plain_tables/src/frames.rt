//! The lines of frames, and the sum of their budgets.

ghost use Rattle.std.specs.Prelude.{◌≡◌, ◌≤◌, ◌^◌, ◌++◌, length, OnOk, string_bytes, slice_index};
ghost use Rattle.seq_lookups.specs.seq_state.specs.kernel_rules.specs.State.{tcap_in};
ghost use Rattle.seq_lookups.specs.seq_state.specs.kernel_rules.specs.References.{sum_below};
ghost use Rattle.table_lines.specs.kernel_history.specs.Tables.{lines_below, frame_line, frame_lines, object_lines, object_word};
ghost use Rattle.seq_lookups.specs.seq_state.specs.Parts.{object_of, frame_of};
ghost use Rattle.seq_lookups.specs.seq_state.specs.Maps.{state_of};

use crate::objects::{push_comp, push_node, push_tcap, push_thread};
use seq_lookups::seq_state::{Frame, Object, SeqKernel};
use seq_lookups::tcap_at;
use spk_nums::FrameNo;
use std::alloc::AllocError;

fn object_name(object: &Object) -> &'static str
    ensures { result.now ≡ object_word (object_of object.now) }
{
    match object {
        Object::Blank => "kernel",
        Object::Table => "table",
        Object::Leaf => "leaf",
        Object::Pages => "pages",
        Object::Pleaf => "pleaf",
        Object::Comp(_) => "comp",
        Object::Thread(_) => "thread",
        Object::Tcap(_) => "tcap",
    }
}

fn push_object(
    text: &mut String,
    k: &SeqKernel,
    frame: FrameNo,
    object: &Object,
) -> Result<(), AllocError>
    ensures { OnOk result (string_bytes text.new ≡ string_bytes text.old
        ++ object_lines (object_of object.now) ((state_of k.now).place frame)) }
{
    match object {
        Object::Blank => Ok(()),
        Object::Table => push_node(text, k, frame),
        Object::Leaf => push_node(text, k, frame),
        Object::Pages => push_node(text, k, frame),
        Object::Pleaf => push_node(text, k, frame),
        Object::Comp(comp) => push_comp(text, comp),
        Object::Thread(thread) => push_thread(text, thread),
        Object::Tcap(tcap) => push_tcap(text, tcap),
    }
}

fn push_kernel(
    text: &mut String,
    k: &SeqKernel,
    frame: FrameNo,
    object: &Object,
    refs: u64,
) -> Result<(), AllocError>
    ensures { OnOk result (string_bytes text.new ≡ string_bytes text.old
        ++ (frame_line frame (object_word (object_of object.now)) refs
        ++ object_lines (object_of object.now) ((state_of k.now).place frame))) }
{
    table_lines::push_frame(text, frame, object_name(object), refs)?;
    push_object(text, k, frame, object)
}

// Appends the lines of a frame that has this, and to which there are so many references.
fn push_frame(
    text: &mut String,
    k: &SeqKernel,
    frame: FrameNo,
    value: &Frame,
    refs: u64,
) -> Result<(), AllocError>
    ensures { OnOk result (string_bytes text.new ≡ string_bytes text.old
        ++ frame_lines frame (frame_of value.now) ((state_of k.now).place frame) refs) }
{
    match value {
        Frame::Untyped => Ok(()),
        Frame::User => table_lines::push_frame(text, frame, "user", refs),
        Frame::Kernel(object) => push_kernel(text, k, frame, object, refs),
    }
}

// Appends the lines of a frame, to which there are so many references.
fn push_number(
    text: &mut String,
    k: &SeqKernel,
    number: FrameNo,
    refs: u64,
) -> Result<(), AllocError>
    ensures { OnOk result (string_bytes text.new ≡ string_bytes text.old
        ++ frame_lines number ((state_of k.now).frame number) ((state_of k.now).place number) refs) }
{
    let value = k.frame(number);
    push_frame(text, k, number, &value, refs)
}

/// Appends the lines of all frames, to each of which there are as many references as `counts` says.
pub fn push_frames(text: &mut String, k: &SeqKernel, counts: &[u64]) -> Result<(), AllocError>
    requires { length counts.now ≡ (state_of k.now).limits.frames }
    ensures { OnOk result (string_bytes text.new ≡ string_bytes text.old
        ++ lines_below (λ f. frame_lines f ((state_of k.now).frame f) ((state_of k.now).place f) (slice_index counts.now f))
        (state_of k.now).limits.frames) }
{
    'frames: for number in 0..k.frames() {
        push_number(text, k, FrameNo::new(number), counts[usize::from(number)])?;
    }
    Ok(())
}

/// The sum of the budgets of all temporal capabilities.
pub fn budgets(k: &SeqKernel) -> u64
    ensures sum { result ≡ sum_below (λ f. (tcap_in ((state_of k.now).frame f)).budget) (state_of k.now).limits.frames }
    ensures most { result ≤ 2 ^ 41 }
{
    let mut sum: u64 = 0;
    'frames: for frame in 0..k.frames() {
        let tcap = tcap_at(k, FrameNo::new(frame));
        sum += u64::from(tcap.budget);
    }
    sum
}
