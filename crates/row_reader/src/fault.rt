//! Why a file of rows is not read.

use std::alloc::{AllocError, AllocFailed};
use std::fmt;

/// Why a file of rows is not read.
#[derive(Debug, Drop)]
pub enum Fault {
    /// Memory ran out.
    Memory,
    /// This line, or this part of one, means nothing where it stands.
    Line(String),
}

impl From<AllocError> for Fault {
    fn from(_: AllocError) -> Fault {
        Fault::Memory
    }
}

impl<T: Drop> From<AllocFailed<T>> for Fault {
    fn from(_: AllocFailed<T>) -> Fault {
        Fault::Memory
    }
}

impl fmt::Display for Fault {
    fn fmt<W: fmt::Write>(&self, f: &mut fmt::Formatter<W>) -> fmt::Result {
        match self {
            Fault::Memory => write!(f, "out of memory"),
            Fault::Line(line) => write!(f, "not understood: {line}"),
        }
    }
}
