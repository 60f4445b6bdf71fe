//! What is told of the first fault of a text.

ghost use Rattle.std.specs.Prelude.{◌≡◌, ◌++◌, ◌<◌, ◌^◌, IfOk, OnOk, string_bytes, length};
ghost use Rattle.fault_texts.specs.Found.{found_view};
ghost use Rattle.fault_texts.specs.Told.{head_text, found_body, fault_text};

use crate::ends::push_wordless;
use crate::finder::{Finder, no_found};
use line_forms::Reading;
use line_reader::{Cause, read_lines};
use std::alloc::{AllocError, Global};

// Appends what to do: of the line of the fault, or of a fault without words.
fn push_body(text: &mut String, source: &[u8], finder: &Finder) -> Result<(), AllocError>
    requires { length source.now < 2 ^ 32 }
    ensures { OnOk result (string_bytes text.new ≡ string_bytes text.old ++ found_body source.now (found_view finder.now)) }
{
    if finder.seen {
        text.push_str(finder.text.as_str())
    } else {
        push_wordless(text, source, &finder.context, finder.cause)
    }
}

// The text by what was found.
fn told(
    alloc: Global,
    source: &[u8],
    line: u32,
    cause: Cause,
    finder: &Finder,
) -> Result<String, AllocError>
    requires { length source.now < 2 ^ 32 }
    ensures { IfOk result (λ text. string_bytes text ≡ head_text line cause ++ found_body source.now (found_view finder.now)) }
{
    let mut text = format!(in alloc; "line {line}: {cause}\n")?;
    push_body(&mut text, source, finder)?;
    Ok(text)
}

/// What is told of a fault of a text of fewer than 2^32 bytes: its line, as it is told where the text is refused, and what to do. It
/// fails only where memory runs out.
pub fn explain_fault(
    alloc: Global,
    reading: Reading,
    source: &[u8],
    line: u32,
    cause: Cause,
) -> Result<String, AllocError>
    requires { length source.now < 2 ^ 32 }
    ensures { IfOk result (λ text. string_bytes text ≡ fault_text reading source.now line cause) }
{
    let mut finder = no_found(alloc, reading, line, cause);
    match read_lines(alloc, &mut finder, source) {
        Ok(_) => told(alloc, source, line, cause, &finder),
        Err(_) => Err(AllocError),
    }
}
