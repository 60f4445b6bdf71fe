//! Why bytes are no script.

ghost use Rattle.std.specs.Prelude.{◌≡◌, Some};
ghost use Rattle.line_reader.specs.Causes.{cause_text};
ghost use Rattle.line_reader.specs.declared.cause.ReadFault.TheVariants.{Memory};
ghost use Rattle.line_reader.specs.declared.cause.LineFault.TheVariants as line_fault;

use std::alloc::{AllocError, AllocFailed};
use std::fmt;

/// What is wrong with a line of a script.
#[derive(Clone, Copy, Debug, PartialEq, Eq)]
pub enum Cause {
    /// An argument is not digits, or above 2^64 - 1.
    S1,
    /// A first word that no rule knows, a kind or object that none knows, or a word among order items
    /// that is neither an item nor a known first word.
    S2,
    /// The line ends before its last argument.
    S3,
    /// A word stands after the last argument.
    S4,
    /// A number is outside its range.
    S5,
    /// A `core` line or an order item has a number not below the number of cores.
    S6,
    /// A known first word stands where the order of the lines does not allow it, or the script ends
    /// before its last grant.
    S7,
    /// A byte that may not stand in a script.
    S8,
    /// Line 20,001, or order item 200,001.
    S9,
}

/// The number and the text of a cause, as `S2 unknown word`.
impl fmt::Display for Cause {
    ghost output = { λ c. Some (cause_text c) };

    fn fmt<W: fmt::Write>(&self, f: &mut fmt::Formatter<W>) -> fmt::Result {
        f.write_str(match self {
            Cause::S1 => "S1 bad number",
            Cause::S2 => "S2 unknown word",
            Cause::S3 => "S3 missing word",
            Cause::S4 => "S4 extra word",
            Cause::S5 => "S5 number out of range",
            Cause::S6 => "S6 no such core",
            Cause::S7 => "S7 section out of place",
            Cause::S8 => "S8 not ASCII",
            Cause::S9 => "S9 too many",
        })
    }
}

/// Why no script was read.
#[derive(Clone, Copy, Debug, PartialEq, Eq)]
pub enum ReadFault {
    /// The bytes are no script: their first fault, and its line, which counts from 1.
    Script { line: u32, cause: Cause },
    /// Memory has run out.
    Memory,
}

/// Why a line, or a call by itself, was not taken: its first fault, or that memory has run out.
#[derive(Clone, Copy, Debug, PartialEq, Eq)]
pub enum LineFault {
    Cause(Cause),
    Memory,
}

impl From<AllocError> for ReadFault {
    ghost from_gives = { λ _ e. e ≡ Memory };

    fn from(_e: AllocError) -> ReadFault {
        ReadFault::Memory
    }
}

impl<T: Drop> From<AllocFailed<T>> for LineFault {
    ghost from_gives = { λ _ e. e ≡ line_fault.Memory };

    fn from(_e: AllocFailed<T>) -> LineFault {
        LineFault::Memory
    }
}

impl From<Cause> for LineFault {
    ghost from_gives = { λ c e. e ≡ line_fault.Cause c };

    fn from(cause: Cause) -> LineFault {
        LineFault::Cause(cause)
    }
}
