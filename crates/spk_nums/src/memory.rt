//! Want of memory.

ghost use Rattle.std.specs.Prelude.{Some, codes};

use std::alloc::AllocError;
use std::error::Error;
use std::fmt;

/// Memory has run out: the one answer that no contract ties to a cause.
#[derive(Clone, Copy, PartialEq, Eq, Debug)]
pub struct Memory;

impl From<AllocError> for Memory {
    fn from(_error: AllocError) -> Memory {
        Memory
    }
}

impl fmt::Display for Memory {
    ghost output = { λ _. Some (codes "out of memory") };

    fn fmt<W: fmt::Write>(&self, f: &mut fmt::Formatter<W>) -> fmt::Result {
        f.write_str("out of memory")
    }
}

impl Error for Memory {}
