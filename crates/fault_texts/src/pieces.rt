//! The pieces of what is told, appended to a text.

ghost use Rattle.std.specs.Prelude.{◌≡◌, ◌++◌, OnOk, string_bytes, slice_get};
ghost use Rattle.line_reader.specs.Arguments.{texts};
ghost use Rattle.fault_texts.specs.Pieces.{word_text, words_text, blank_text, blanks_text, blanks, shown_text, mark_text, read_text};
ghost use Rattle.fault_texts.specs.Pieces.{due_line};
ghost use Rattle.fault_texts.specs.Pieces.{form_text, call_text, fault_line_text};
ghost use Rattle.fault_texts.specs.Notes.{note_line};

use crate::notes::{Note, is_told, note_of};
use crate::places::{place_of, slot_of};
use line_forms::{Context, Due, Slot, call_form_of, form_of, words_before, words_from};
use line_reader::Cause;
use script_tokens::Token;
use std::alloc::{AllocError, Global};

/// Appends a word as it is told.
pub fn push_word(text: &mut String, alloc: Global, word: &[u8]) -> Result<(), AllocError>
    ensures { OnOk result (string_bytes text.new ≡ string_bytes text.old ++ word_text word.now) }
{
    let shown = String::from_utf8_lossy(alloc, word)?;
    text.push_str(shown.as_str())
}

// Appends a space and a word.
fn push_spaced(text: &mut String, alloc: Global, word: &[u8]) -> Result<(), AllocError>
    ensures { OnOk result (string_bytes text.new ≡ string_bytes text.old ++ spaced_text word.now) }
{
    text.push_str(" ")?;
    push_word(text, alloc, word)
}

// Appends words, a space before each.
fn push_words(text: &mut String, alloc: Global, words: &[Token]) -> Result<(), AllocError>
    ensures { OnOk result (string_bytes text.new ≡ string_bytes text.old ++ words_text (texts words.now)) }
{
    'words: for word in words {
        push_spaced(text, alloc, word.text)?;
    }
    Ok(())
}

// Appends so many spaces.
fn push_spaces(text: &mut String, count: usize) -> Result<(), AllocError>
    ensures { OnOk result (string_bytes text.new ≡ string_bytes text.old ++ blanks count) }
{
    for at in 0..count {
        text.push_str(" ")?;
    }
    Ok(())
}

// Appends spaces for a space and a word.
fn push_blank(text: &mut String, word: &[u8]) -> Result<(), AllocError>
    ensures { OnOk result (string_bytes text.new ≡ string_bytes text.old ++ blank_text word.now) }
{
    text.push_str(" ")?;
    push_spaces(text, word.len())
}

// Appends spaces for words, a space before each.
fn push_blanks(text: &mut String, words: &[Token]) -> Result<(), AllocError>
    ensures { OnOk result (string_bytes text.new ≡ string_bytes text.old ++ blanks_text (texts words.now)) }
{
    'words: for word in words {
        push_blank(text, word.text)?;
    }
    Ok(())
}

// Appends the words of a line about a place: up to eight before it, and four from it on.
fn push_shown(
    text: &mut String,
    alloc: Global,
    before: &[Token],
    after: &[Token],
) -> Result<(), AllocError>
    ensures { OnOk result (string_bytes text.new ≡ string_bytes text.old ++ shown_text (texts before.now) (texts after.now)) }
{
    text.push_str(" ")?;
    push_words(text, alloc, before)?;
    push_words(text, alloc, after)?;
    text.push_str("\n")
}

// Appends a mark after spaces for words.
fn push_mark(text: &mut String, before: &[Token]) -> Result<(), AllocError>
    ensures { OnOk result (string_bytes text.new ≡ string_bytes text.old ++ mark_text (texts before.now)) }
{
    text.push_str(" ")?;
    push_blanks(text, before)?;
    text.push_str(" ^\n")
}

// Appends what was read.
fn push_read(
    text: &mut String,
    alloc: Global,
    words: &[Token],
    place: usize,
) -> Result<(), AllocError>
    ensures { OnOk result (string_bytes text.new ≡ string_bytes text.old ++ read_text (slice_get (texts words.now) place)) }
{
    match words.get(place) {
        Some(word) => push_read_word(text, alloc, word.text),
        None => text.push_str("read the end of the line\n"),
    }
}

fn push_read_word(text: &mut String, alloc: Global, word: &[u8]) -> Result<(), AllocError>
    ensures { OnOk result (string_bytes text.new ≡ string_bytes text.old ++ read_word_text word.now) }
{
    text.push_str("read ")?;
    push_word(text, alloc, word)?;
    text.push_str("\n")
}

/// Appends what may stand there.
pub fn push_due(text: &mut String, context: &Context, slot: Slot) -> Result<(), AllocError>
    ensures { OnOk result (string_bytes text.new
        ≡ string_bytes text.old ++ due_line context.now.version context.now.reading context.now.stage slot) }
{
    let due = Due {
        version: context.version,
        reading: context.reading,
        stage: context.stage,
        slot,
    };
    write!(text, "here may stand: {due}\n")
}

// Appends the form of a line, if there is one.
fn push_form(text: &mut String, form: &str) -> Result<(), AllocError>
    ensures { OnOk result (string_bytes text.new ≡ string_bytes text.old ++ form_text form.now) }
{
    if form.is_empty() {
        Ok(())
    } else {
        write!(text, "the line goes: {form}\n")
    }
}

// Appends the form of a call, if there is one.
fn push_call_form(text: &mut String, form: &str) -> Result<(), AllocError>
    ensures { OnOk result (string_bytes text.new ≡ string_bytes text.old ++ call_text form.now) }
{
    if form.is_empty() {
        Ok(())
    } else {
        write!(text, "the call goes: {form}\n")
    }
}

/// Appends the line of a note, if there is one.
pub fn push_note(text: &mut String, note: Note) -> Result<(), AllocError>
    ensures { OnOk result (string_bytes text.new ≡ string_bytes text.old ++ note_line note) }
{
    if is_told(note) {
        write!(text, "{note}\n")
    } else {
        Ok(())
    }
}

// Appends the two forms, and a note.
fn push_forms(
    text: &mut String,
    context: &Context,
    words: &[Token],
    note: Note,
) -> Result<(), AllocError>
    ensures { OnOk result (string_bytes text.new ≡ string_bytes text.old ++ forms_text context.now (texts words.now) note) }
{
    push_form(text, form_of(context, words))?;
    push_call_form(text, call_form_of(context, words))?;
    push_note(text, note)
}

// Appends what is told of a fault at a place of a line.
fn push_at(
    text: &mut String,
    alloc: Global,
    words: &[Token],
    place: usize,
) -> Result<(), AllocError>
    ensures { OnOk result (string_bytes text.new ≡ string_bytes text.old ++ at_text (texts words.now) place) }
{
    let before = words_from(words_before(words, place), place.saturating_sub(8));
    let after = words_before(words_from(words, place), 4);
    push_shown(text, alloc, before, after)?;
    push_mark(text, before)?;
    push_read(text, alloc, words, place)
}

/// Appends what is told of a fault of a line.
pub fn push_fault(
    text: &mut String,
    alloc: Global,
    context: &Context,
    words: &[Token],
    cause: Cause,
) -> Result<(), AllocError>
    ensures { OnOk result (string_bytes text.new ≡ string_bytes text.old ++ fault_line_text context.now (texts words.now) cause) }
{
    let place = place_of(context, words, cause);
    push_at(text, alloc, words, place)?;
    push_due(text, context, slot_of(context, words, place, cause))?;
    push_forms(text, context, words, note_of(context, words, place, cause))
}

ghost use Rattle.fault_texts.specs.Pieces.{spaced_text, read_word_text, forms_text, at_text};
