//! A line of a given history, as it is written.

ghost use Rattle.std.specs.Prelude.{◌≡◌, ◌++◌, OnOk, string_bytes, Some};
ghost use Rattle.history_options.specs.Texts.{said_text, said_line};

use marked_history::{Mark, Said};
use std::alloc::AllocError;
use std::fmt;

// A line, to be printed.
#[derive(Clone, Copy)]
struct SaidLine<'a> {
    said: &'a Said,
}

impl<'a> fmt::Display for SaidLine<'a> {
    ghost output = { λ l. Some (said_text l.said.now) };

    fn fmt<W: fmt::Write>(&self, f: &mut fmt::Formatter<W>) -> fmt::Result {
        match self.said {
            Said::One(Mark::Enter { core, call }) => write!(f, "enter {core} {call}"),
            Said::One(Mark::Decide { core, reply }) => write!(f, "decide {core} {reply}"),
            Said::One(Mark::Return { core }) => write!(f, "return {core}"),
            Said::Whole {
                core,
                index,
                call,
                reply,
            } => write!(f, "{core}.{index} {call} = {reply}"),
        }
    }
}

/// Appends a line of a history, after two spaces.
pub fn push_said(text: &mut String, said: &Said) -> Result<(), AllocError>
    ensures { OnOk result (string_bytes text.new ≡ string_bytes text.old ++ said_line said.now) }
{
    let line = SaidLine { said };
    write!(text, "  {line}\n")
}
