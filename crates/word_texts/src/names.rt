//! The names of words.

ghost use Rattle.std.specs.Prelude.{◌≡◌, ◌++◌, OnOk, codes, string_bytes};
ghost use Rattle.spk_nums.specs.Texts.{with_one};
ghost use Rattle.step_views.specs.Names.{named};
ghost use Rattle.word_texts.specs.Names.{slot_text, comp_slot, thread_slot, tcap_slot, entry_name, word_name};

use crate::objects::{object_of, object_text};
use line_texts::{push_number, push_one};
use spk_nums::Obj;
use std::alloc::AllocError;
use step_views::WordName;

fn push_slot(
    text: &mut String,
    object: &'static str,
    frame: u32,
    entry: u32,
) -> Result<(), AllocError>
    ensures { OnOk result (string_bytes text.new ≡ string_bytes text.old ++ slot_text object.now frame entry) }
{
    push_one(text, object, frame)?;
    text.push_str(" [")?;
    push_number(text, entry)?;
    text.push_str("]")
}

// Appends a word, a number and a word.
fn push_then(
    text: &mut String,
    word: &'static str,
    frame: u32,
    then: &'static str,
) -> Result<(), AllocError>
    ensures { OnOk result (string_bytes text.new ≡ string_bytes text.old ++ (with_one word.now frame ++ then.now)) }
{
    push_one(text, word, frame)?;
    text.push_str(then)
}

// Appends a word and a number, and the same again.
fn push_both(
    text: &mut String,
    word: &'static str,
    frame: u32,
    then: &'static str,
    number: u32,
) -> Result<(), AllocError>
    ensures { OnOk result (string_bytes text.new ≡ string_bytes text.old ++ (with_one word.now frame ++ with_one then.now number)) }
{
    push_one(text, word, frame)?;
    push_one(text, then, number)
}

fn push_comp_slot(text: &mut String, frame: u32, entry: u32) -> Result<(), AllocError>
    ensures { OnOk result (string_bytes text.new ≡ string_bytes text.old ++ comp_slot frame entry) }
{
    match entry {
        0 => push_then(text, "comp", frame, " table"),
        1 => push_then(text, "comp", frame, " pages"),
        2 => push_then(text, "comp", frame, " life"),
        _ => push_slot(text, "comp", frame, entry),
    }
}

fn push_thread_slot(text: &mut String, frame: u32, entry: u32) -> Result<(), AllocError>
    ensures { OnOk result (string_bytes text.new ≡ string_bytes text.old ++ thread_slot frame entry) }
{
    if entry == 0 {
        return push_one(text, "thread", frame);
    }
    push_both(text, "thread", frame, " stack", entry)
}

fn push_tcap_slot(text: &mut String, frame: u32, entry: u32) -> Result<(), AllocError>
    ensures { OnOk result (string_bytes text.new ≡ string_bytes text.old ++ tcap_slot frame entry) }
{
    if entry == 0 {
        return push_one(text, "tcap", frame);
    }
    push_both(text, "tcap", frame, " quality", entry)
}

fn push_entry_name(text: &mut String, object: Obj, frame: u32, entry: u32) -> Result<(), AllocError>
    ensures { OnOk result (string_bytes text.new ≡ string_bytes text.old ++ entry_name object frame entry) }
{
    match object {
        Obj::Blank => push_slot(text, "frame", frame, entry),
        Obj::Comp => push_comp_slot(text, frame, entry),
        Obj::Thread => push_thread_slot(text, frame, entry),
        Obj::Tcap => push_tcap_slot(text, frame, entry),
        other => push_slot(text, object_text(other), frame, entry),
    }
}

/// Appends the name of a word, where the word of its frame is this.
pub fn push_name(text: &mut String, frame_word: u64, word: &WordName) -> Result<(), AllocError>
    ensures { OnOk result (string_bytes text.new ≡ string_bytes text.old ++ word_name frame_word (named word.now)) }
{
    match *word {
        WordName::Entry { frame, entry } => {
            push_entry_name(
                text,
                object_of(frame_word),
                u32::from(frame.number()),
                u32::from(entry.number()),
            )
        }
        WordName::Frame { frame } => push_then(text, "frame", u32::from(frame.number()), " kind"),
        WordName::Count { frame, core } => {
            push_both(
                text,
                "frame",
                u32::from(frame.number()),
                " count of core",
                u32::from(core.number()),
            )
        }
        WordName::Core { core } => push_one(text, "core", u32::from(core.number())),
        WordName::Flush { core } => push_then(text, "core", u32::from(core.number()), " flush"),
        WordName::Live { number } => push_one(text, "life", u32::from(number)),
        WordName::Clock => text.push_str("clock"),
    }
}
