//! Finds the line of a fault, and tells of it.

ghost use Rattle.std.specs.Prelude.{◌≡◌, true, false, OnOk};
ghost use Rattle.line_reader.specs.Arguments.{texts};
ghost use Rattle.fault_texts.specs.Found.{found_view, found_after, no_found};

use crate::pieces::push_fault;
use line_forms::{Context, Reading, context_after, no_context};
use line_reader::{Cause, Lines, ReadFault};
use script_tokens::Token;
use std::alloc::{AllocError, Global};

/// What was found of a fault: what the lines before its line have come to; whether its line was found, and what is told of it.
#[derive(Drop)]
pub struct Finder {
    alloc: Global,
    pub line: u32,
    pub cause: Cause,
    pub context: Context,
    pub seen: bool,
    pub text: String,
}

/// What no lines tell of a fault.
pub fn no_found(alloc: Global, reading: Reading, line: u32, cause: Cause) -> Finder
    ensures { found_view result ≡ no_found reading line cause }
{
    Finder {
        alloc,
        line,
        cause,
        context: no_context(reading),
        seen: false,
        text: String::new(alloc),
    }
}

// Takes a line before that of the fault, or that line; others are passed over.
fn take(finder: &mut Finder, line: u32, words: &[Token]) -> Result<(), AllocError>
    ensures { OnOk result (found_view finder.new ≡ found_after (found_view finder.old) line (texts words.now)) }
{
    if line < finder.line {
        finder.context = context_after(finder.context, words);
    } else if line == finder.line {
        let context = finder.context;
        push_fault(
            &mut finder.text,
            finder.alloc,
            &context,
            words,
            finder.cause,
        )?;
        finder.seen = true;
    }
    Ok(())
}

impl Lines for Finder {
    ghost use Rattle.fault_texts.specs.Found.{Found, found_view, find_step, AnyFound};

    ghost Said = { Found };

    ghost said = { found_view };

    ghost Kept = { AnyFound };

    ghost step = { find_step };

    fn take_line(&mut self, line: u32, words: &[Token]) -> Result<(), ReadFault> {
        take(self, line, words)?;
        Ok(())
    }
}
