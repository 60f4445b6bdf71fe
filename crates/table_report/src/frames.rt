//! The lines of frames, and the sum of their budgets.

ghost use Rattle.std.specs.Prelude.{◌≡◌, ◌<◌, ◌≤◌, ◌^◌, ◌++◌, length, OnOk, string_bytes};
ghost use Rattle.table_lines.specs.kernel_rules.specs.State.{tcap_in, Kernel};
ghost use Rattle.table_lines.specs.kernel_rules.specs.References.{sum_below};
ghost use Rattle.table_lines.specs.kernel_history.specs.Tables.{frame_line, frame_lines, object_lines, object_word};
ghost use Rattle.table_report.specs.Shown.{object_shown, place_in, words_of, frame_at, place_at, counted_at, frames_text};
ghost use Rattle.table_lines.specs.kernel_history.specs.ObjectWords.{is_node_object};

use crate::counts::references;
use crate::objects::{budget, push_comp, push_node, push_tcap, push_thread};
use crate::words::entry_word;
use machine_image::Image;
use spk_nums::{FrameKind, FrameNo, Obj};
use std::alloc::AllocError;

fn object_name(object: Obj) -> &'static str
    ensures { result.now ≡ object_word (object_shown object (λ i. 0)) }
{
    match object {
        Obj::Blank => "kernel",
        Obj::Table => "table",
        Obj::Leaf => "leaf",
        Obj::Pages => "pages",
        Obj::Pleaf => "pleaf",
        Obj::Comp => "comp",
        Obj::Thread => "thread",
        Obj::Tcap => "tcap",
    }
}

fn push_object(
    text: &mut String,
    image: &Image<'_>,
    frame: FrameNo,
    object: Obj,
) -> Result<(), AllocError>
    requires frame_in { frame < image.now.shape.frames }
    ensures { OnOk result (string_bytes text.new ≡ string_bytes text.old ++ object_lines (object_shown object
        (words_of image.now.shape image.now.words frame)) (λ i.
        place_in (is_node_object (object_shown object (words_of image.now.shape image.now.words frame))) (words_of image.now.shape image.now.words frame i))) }
{
    match object {
        Obj::Blank => Ok(()),
        Obj::Table => push_node(text, image, frame),
        Obj::Leaf => push_node(text, image, frame),
        Obj::Pages => push_node(text, image, frame),
        Obj::Pleaf => push_node(text, image, frame),
        Obj::Comp => push_comp(text, image, frame),
        Obj::Thread => push_thread(text, image, frame),
        Obj::Tcap => push_tcap(text, image, frame),
    }
}

fn push_kernel(
    text: &mut String,
    image: &Image<'_>,
    frame: FrameNo,
    object: Obj,
    refs: u64,
) -> Result<(), AllocError>
    requires frame_in { frame < image.now.shape.frames }
    ensures { OnOk result (string_bytes text.new
        ≡ string_bytes text.old ++ (frame_line frame (object_word (object_shown object (words_of image.now.shape image.now.words frame))) refs
        ++ object_lines (object_shown object (words_of image.now.shape image.now.words frame)) (λ i. place_in
        (is_node_object (object_shown object (words_of image.now.shape image.now.words frame))) (words_of image.now.shape image.now.words frame i)))) }
{
    table_lines::push_frame(text, frame, object_name(object), refs)?;
    push_object(text, image, frame, object)
}

// Appends the lines of a frame.
fn push_frame(text: &mut String, image: &Image<'_>, frame: FrameNo) -> Result<(), AllocError>
    requires frame_in { frame < image.now.shape.frames }
    ensures { OnOk result (string_bytes text.new ≡ string_bytes text.old ++ frame_lines frame
        (frame_at image.now.shape image.now.words frame) (place_at image.now.shape image.now.words frame) (counted_at image.now.shape image.now.words frame)) }
{
    let refs = references(image, frame);
    match image.frame(frame) {
        None => Ok(()),
        Some(word) => match word.kind {
            FrameKind::Untyped => Ok(()),
            FrameKind::User => table_lines::push_frame(text, frame, "user", refs),
            FrameKind::Kernel => push_kernel(text, image, frame, word.object, refs),
        },
    }
}

/// Appends the lines of all frames.
pub fn push_frames(text: &mut String, image: &Image<'_>) -> Result<(), AllocError>
    ensures { OnOk result (string_bytes text.new ≡ string_bytes text.old ++ frames_text image.now.shape image.now.words image.now.shape.frames) }
{
    'frames: for frame in 0..image.frames() {
        push_frame(text, image, FrameNo::new(frame))?;
    }
    Ok(())
}

fn object_budget(image: &Image<'_>, frame: FrameNo, object: Obj) -> u32
    requires frame_in { frame < image.now.shape.frames }
    ensures { result ≡ (tcap_in (Kernel (object_shown object (words_of image.now.shape image.now.words frame)))).budget }
{
    match object {
        Obj::Tcap => budget(entry_word(image, frame, 0)),
        Obj::Blank => 0,
        Obj::Table => 0,
        Obj::Leaf => 0,
        Obj::Pages => 0,
        Obj::Pleaf => 0,
        Obj::Comp => 0,
        Obj::Thread => 0,
    }
}

fn frame_budget(image: &Image<'_>, frame: FrameNo) -> u32
    requires frame_in { frame < image.now.shape.frames }
    ensures { result ≡ (tcap_in (frame_at image.now.shape image.now.words frame)).budget }
{
    match image.frame(frame) {
        None => 0,
        Some(word) => match word.kind {
            FrameKind::Untyped => 0,
            FrameKind::User => 0,
            FrameKind::Kernel => object_budget(image, frame, word.object),
        },
    }
}

/// The sum of the budgets of all temporal capabilities.
pub fn budgets(image: &Image<'_>) -> u64
    ensures sum { result ≡ sum_below (λ f. (tcap_in (frame_at image.now.shape image.now.words f)).budget) image.now.shape.frames }
    ensures most { result ≤ 2 ^ 41 }
{
    let mut sum: u64 = 0;
    'frames: for frame in 0..image.frames() {
        sum += u64::from(frame_budget(image, FrameNo::new(frame)));
    }
    sum
}
