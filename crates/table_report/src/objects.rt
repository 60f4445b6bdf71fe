//! The lines of objects.

ghost use Rattle.std.specs.Prelude.{◌≡◌, ◌<◌, ◌++◌, length, OnOk, string_bytes, reverse, None};
ghost use Rattle.std.specs.List.{flat_map};
ghost use Rattle.entry_words.specs.EntryWord.{entry_of_word};
ghost use Rattle.frame_words.specs.Comp.{comp_of_word};
ghost use Rattle.tcap_words.specs.Head.{head_of_word};
ghost use Rattle.tcap_words.specs.Quality.{quality_of_word};
ghost use Rattle.tcap_words.specs.Stack.{stack_of_word};
ghost use Rattle.table_lines.specs.kernel_history.specs.Tables.{number, entry_line, node_lines, comp_line, thread_line, quality_line, tcap_lines};
ghost use Rattle.table_report.specs.Shown.{place_shown, comp_shown, stacked, listed, stack_shown, qualities_shown, budget_shown, words_of};

use crate::words::{entry_word, held};
use frame_words::CompWord;
use machine_image::Image;
use spk_nums::FrameNo;
use std::alloc::AllocError;
use table_lines::{push_budget, push_stack_end, push_stack_start};
use tcap_words::{HeadWord, QualityWord, StackWord};

// Appends the line of an entry, if it is held.
fn push_entry(text: &mut String, index: u16, word: u64) -> Result<(), AllocError>
    ensures { OnOk result (string_bytes text.new ≡ string_bytes text.old ++ entry_line index (place_shown (entry_of_word word))) }
{
    match held(word) {
        Some(cap) => table_lines::push_entry(text, index, &cap),
        None => Ok(()),
    }
}

/// Appends the lines of a node's entries.
pub fn push_node(text: &mut String, image: &Image<'_>, frame: FrameNo) -> Result<(), AllocError>
    requires frame_in { frame < image.now.shape.frames }
    ensures { OnOk result (string_bytes text.new
        ≡ string_bytes text.old ++ node_lines (λ i. place_shown (entry_of_word (words_of image.now.shape image.now.words frame i)))) }
{
    'entries: for index in 0..64 {
        push_entry(text, index, entry_word(image, frame, index))?;
    }
    Ok(())
}

/// Appends the line of a component.
pub fn push_comp(text: &mut String, image: &Image<'_>, frame: FrameNo) -> Result<(), AllocError>
    requires frame_in { frame < image.now.shape.frames }
    ensures { OnOk result (string_bytes text.new ≡ string_bytes text.old ++ comp_line (comp_shown
        (comp_of_word (words_of image.now.shape image.now.words frame 2))
        (words_of image.now.shape image.now.words frame 0) (words_of image.now.shape image.now.words frame 1))) }
{
    let table = entry_word(image, frame, 0);
    let pages = entry_word(image, frame, 1);
    match CompWord::unpack(entry_word(image, frame, 2)) {
        Some(comp) => table_lines::push_comp(text, table, pages, comp.number, comp.epoch),
        None => table_lines::push_comp(text, table, pages, 0, 0),
    }
}

fn push_stacked(text: &mut String, word: u64) -> Result<(), AllocError>
    ensures { OnOk result (string_bytes text.new ≡ string_bytes text.old ++ flat_map number (stacked (stack_of_word word))) }
{
    match StackWord::unpack(word) {
        Some(StackWord(Some(frame))) => table_lines::push_stacked(text, frame),
        Some(StackWord(None)) => Ok(()),
        None => Ok(()),
    }
}

fn push_stack(text: &mut String, image: &Image<'_>, frame: FrameNo) -> Result<(), AllocError>
    requires frame_in { frame < image.now.shape.frames }
    ensures { OnOk result (string_bytes text.new
        ≡ string_bytes text.old ++ flat_map number (reverse (stack_shown (words_of image.now.shape image.now.words frame) 16))) }
{
    'heights: for height in 0..16 {
        push_stacked(text, entry_word(image, frame, 1 + height))?;
    }
    Ok(())
}

/// Appends the line of a thread.
pub fn push_thread(text: &mut String, image: &Image<'_>, frame: FrameNo) -> Result<(), AllocError>
    requires frame_in { frame < image.now.shape.frames }
    ensures { OnOk result (string_bytes text.new
        ≡ string_bytes text.old ++ thread_line (record { stack = stack_shown (words_of image.now.shape image.now.words frame) 16; runs_on = None })) }
{
    push_stack_start(text)?;
    push_stack(text, image, frame)?;
    push_stack_end(text)
}

fn push_quality(text: &mut String, word: u64) -> Result<(), AllocError>
    ensures { OnOk result (string_bytes text.new ≡ string_bytes text.old ++ flat_map quality_line (listed (quality_of_word word))) }
{
    match QualityWord::unpack(word) {
        Some(QualityWord(Some((scheduler, quality)))) => {
            table_lines::push_quality(text, scheduler, quality)
        }
        Some(QualityWord(None)) => Ok(()),
        None => Ok(()),
    }
}

fn push_qualities(text: &mut String, image: &Image<'_>, frame: FrameNo) -> Result<(), AllocError>
    requires frame_in { frame < image.now.shape.frames }
    ensures { OnOk result (string_bytes text.new
        ≡ string_bytes text.old ++ flat_map quality_line (qualities_shown (words_of image.now.shape image.now.words frame) 8)) }
{
    'pairs: for place in 0..8 {
        push_quality(text, entry_word(image, frame, 1 + place))?;
    }
    Ok(())
}

/// The budget of a temporal capability whose head is this word.
pub fn budget(word: u64) -> u32
    ensures { result ≡ budget_shown (head_of_word word) }
{
    match HeadWord::unpack(word) {
        Some(head) => head.budget,
        None => 0,
    }
}

/// Appends the lines of a temporal capability.
pub fn push_tcap(text: &mut String, image: &Image<'_>, frame: FrameNo) -> Result<(), AllocError>
    requires frame_in { frame < image.now.shape.frames }
    ensures { OnOk result (string_bytes text.new ≡ string_bytes text.old ++ tcap_lines (record {
      budget =
          budget_shown (head_of_word (words_of image.now.shape image.now.words frame 0));
      qualities =
          qualities_shown (words_of image.now.shape image.now.words frame) 8;
    })) }
{
    let budget = budget(entry_word(image, frame, 0));
    push_budget(text, budget)?;
    push_qualities(text, image, frame)
}
