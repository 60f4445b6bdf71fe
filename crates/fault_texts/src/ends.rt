//! What is told of a fault that has no words: a byte, a line too many, or the end of the text.

ghost use Rattle.std.specs.Prelude.{◌≡◌, ◌++◌, ◌<◌, ◌^◌, OnOk, string_bytes, length};
ghost use Rattle.fault_texts.specs.Ends.{byte_text, end_text, wordless_text};

use crate::bytes::{BadByte, bad_byte};
use crate::notes::{Note, end_note};
use crate::pieces::{push_due, push_note};
use line_forms::{Context, Slot};
use line_reader::Cause;
use std::alloc::AllocError;

// Appends what is told of a byte that may not stand in a text.
fn push_byte(text: &mut String, bad: Option<BadByte>) -> Result<(), AllocError>
    ensures { OnOk result (string_bytes text.new ≡ string_bytes text.old ++ byte_text bad) }
{
    match bad {
        Some(BadByte { byte, column }) => write!(
            text,
            "byte {column} of the line is {byte}\nhere may stand: a tab, 32 to 126, a carriage return right before a line feed\n"
        ),
        None => Ok(()),
    }
}

// Appends what is told of the end of a text that may not end there.
fn push_end(text: &mut String, context: &Context) -> Result<(), AllocError>
    ensures { OnOk result (string_bytes text.new ≡ string_bytes text.old ++ end_text context.now) }
{
    text.push_str("read the end of the text\n")?;
    push_due(text, context, Slot::First)?;
    push_note(text, end_note(context))
}

/// Appends what is told of a fault whose line has no words.
pub fn push_wordless(
    text: &mut String,
    source: &[u8],
    context: &Context,
    cause: Cause,
) -> Result<(), AllocError>
    requires { length source.now < 2 ^ 32 }
    ensures { OnOk result (string_bytes text.new ≡ string_bytes text.old ++ wordless_text source.now context.now cause) }
{
    match cause {
        Cause::S8 => push_byte(text, bad_byte(source)),
        Cause::S9 => push_note(text, Note::MostLines),
        _ => push_end(text, context),
    }
}
