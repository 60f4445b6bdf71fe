//! Why a stop does not pass.

use spk_nums::{CoreNo, Memory, Reply};
use std::alloc::{AllocError, AllocFailed};
use std::fmt;

/// Why a stop does not pass.
#[derive(Debug, Drop)]
pub enum Fault {
    /// Memory ran out.
    Memory,
    /// A call of the script is out of its limits.
    Script,
    /// The script has fewer than two cores, or core 0 or 1 makes no call.
    NoPair,
    /// The order of the scene reaches into the last call of core 0 or 1.
    SceneTooLong,
    /// A call of the scene is not carried out.
    SceneRefused { core: CoreNo, reply: Reply },
    /// A core begins a call within another, or goes on without one.
    Astray(CoreNo),
    /// The definitions do not permit this reply of a core's call where it was decided.
    Forbidden { core: CoreNo, reply: Reply },
    /// A core's call answers that it lost a race at a word that nothing has changed since it stepped on it.
    NoRace(CoreNo),
    /// A core's call answers that another core holds a word that this core is not changing.
    NotHeld(CoreNo),
    /// A core's call returned with another reply than it was decided with, or was decided twice or not at all.
    OtherReply(CoreNo),
    /// The machine says that a core is elsewhere in its call than the steps show.
    Elsewhere(CoreNo),
    /// A core's call makes more steps than its bound.
    TooLong(CoreNo),
    /// A core is still in a call when all have made theirs.
    Unfinished,
    /// The machine's tables are not those of the plain kernel.
    OtherTables,
}

impl From<AllocError> for Fault {
    fn from(_: AllocError) -> Fault {
        Fault::Memory
    }
}

impl<T: Drop> From<AllocFailed<T>> for Fault {
    fn from(_: AllocFailed<T>) -> Fault {
        Fault::Memory
    }
}

impl From<Memory> for Fault {
    fn from(_: Memory) -> Fault {
        Fault::Memory
    }
}

impl fmt::Display for Fault {
    fn fmt<W: fmt::Write>(&self, f: &mut fmt::Formatter<W>) -> fmt::Result {
        match self {
            Fault::Memory => write!(f, "out of memory"),
            Fault::Script => write!(f, "a call is out of its limits"),
            Fault::NoPair => write!(f, "cores 0 and 1 make no pair of calls"),
            Fault::SceneTooLong => write!(f, "the order reaches into the pair"),
            Fault::SceneRefused { core, reply } => {
                write!(f, "core {core}'s reply before the pair is {reply}")
            }
            Fault::Astray(core) => write!(f, "core {core} is in no call, or in two"),
            Fault::Forbidden { core, reply } => {
                write!(
                    f,
                    "the definitions do not permit core {core}'s reply {reply}"
                )
            }
            Fault::NoRace(core) => {
                write!(f, "core {core} answers raced where nothing was changed")
            }
            Fault::NotHeld(core) => {
                write!(f, "core {core} answers busy where the word is not held")
            }
            Fault::OtherReply(core) => {
                write!(f, "core {core} returns with another reply than it decided")
            }
            Fault::Elsewhere(core) => {
                write!(
                    f,
                    "the machine says that core {core} is elsewhere in its call"
                )
            }
            Fault::TooLong(core) => write!(f, "core {core} makes more steps than its bound"),
            Fault::Unfinished => write!(f, "a core is still in a call"),
            Fault::OtherTables => write!(f, "the tables are not those of the plain kernel"),
        }
    }
}
