//! Steps.

ghost use Rattle.std.specs.Prelude.{◌≡◌, ◌++◌, OnOk, codes, string_bytes};
ghost use Rattle.step_views.specs.Names.{named};
ghost use Rattle.trace_lines.specs.Steps.{value_text, word_text, left_text};
ghost use Rattle.trace_lines.specs.Views.{op_text, view_text};

use line_texts::{push_number, push_one, push_pair};
use spk_nums::WordOp;
use std::alloc::AllocError;
use step_views::{StepView, WordName};

// Appends a value, in hexadecimal.
#[inline]
fn push_value(text: &mut String, value: u64) -> Result<(), AllocError>
    ensures { OnOk result (string_bytes text.new ≡ string_bytes text.old ++ value_text value) }
{
    write!(text, "{value:x}")
}

// Appends a word, by its name.
fn push_word(text: &mut String, word: &WordName) -> Result<(), AllocError>
    ensures { OnOk result (string_bytes text.new ≡ string_bytes text.old ++ word_text (named word.now)) }
{
    match *word {
        WordName::Entry { frame, entry } => {
            push_pair(
                text,
                "entry",
                u32::from(frame.number()),
                u32::from(entry.number()),
            )
        }
        WordName::Frame { frame } => push_one(text, "frame", u32::from(frame.number())),
        WordName::Count { frame, core } => {
            push_pair(
                text,
                "count",
                u32::from(frame.number()),
                u32::from(core.number()),
            )
        }
        WordName::Core { core } => push_one(text, "core", u32::from(core.number())),
        WordName::Flush { core } => push_one(text, "flush", u32::from(core.number())),
        WordName::Live { number } => push_one(text, "live", u32::from(number)),
        WordName::Clock => text.push_str("clock"),
    }
}

fn op_text(op: &WordOp) -> &'static str
    ensures { result.now ≡ op_text op.now }
{
    match op {
        WordOp::Load { .. } => " load ",
        WordOp::Compare { .. } => " compare ",
        WordOp::Store { .. } => " store ",
        WordOp::Add { .. } => " add ",
    }
}

// Appends what is left, where it is not what was found.
#[inline]
fn push_left(text: &mut String, found: u64, left: u64) -> Result<(), AllocError>
    ensures { OnOk result (string_bytes text.new ≡ string_bytes text.old ++ left_text found left) }
{
    if found == left {
        return Ok(());
    }
    text.push_str(" > ")?;
    push_value(text, left)
}

/// Appends a step: its core, its operation, the word by its name, what was found there, and what was left where that is another
/// value. Values are in hexadecimal.
pub fn push_step(text: &mut String, view: &StepView) -> Result<(), AllocError>
    ensures { OnOk result (string_bytes text.new ≡ string_bytes text.old ++ view_text view.now) }
{
    push_number(text, u32::from(view.core.number()))?;
    text.push_str(op_text(&view.op))?;
    push_word(text, &view.word)?;
    text.push_str(": ")?;
    push_value(text, view.found)?;
    push_left(text, view.found, view.left)
}
