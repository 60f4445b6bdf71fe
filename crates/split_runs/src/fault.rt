//! Why a run does not pass.

use spk_nums::{CoreNo, FrameNo, Memory, Reply};
use std::alloc::{AllocError, AllocFailed};
use std::fmt;

/// Why a run does not pass.
#[derive(Debug, Drop)]
pub enum Fault {
    /// Memory ran out.
    Memory,
    /// The script has not two cores, or a call is out of its limits.
    Script,
    /// A call of the scene is not carried out.
    SceneRefused { core: CoreNo, reply: Reply },
    /// The order of the scene makes other calls than those of the lists, or leaves a core in one.
    SceneOpen,
    /// A core goes on without a call.
    Astray(CoreNo),
    /// This step is on the other side.
    Crossed(String),
    /// A core's calls make more steps than there may be.
    TooLong,
    /// A core is still in a call when all have made theirs.
    Unfinished,
    /// In the end this frame is of one world with a frame of the other side.
    Joined(FrameNo),
}

impl From<AllocError> for Fault {
    fn from(_: AllocError) -> Fault {
        Fault::Memory
    }
}

impl<T: Drop> From<AllocFailed<T>> for Fault {
    fn from(_: AllocFailed<T>) -> Fault {
        Fault::Memory
    }
}

impl From<Memory> for Fault {
    fn from(_: Memory) -> Fault {
        Fault::Memory
    }
}

impl fmt::Display for Fault {
    fn fmt<W: fmt::Write>(&self, f: &mut fmt::Formatter<W>) -> fmt::Result {
        match self {
            Fault::Memory => write!(f, "out of memory"),
            Fault::Script => write!(
                f,
                "the script has not two cores, or a call out of its limits"
            ),
            Fault::SceneRefused { core, reply } => {
                write!(f, "core {core}'s reply in the scene is {reply}")
            }
            Fault::SceneOpen => write!(f, "the order of the scene does not make each of its calls"),
            Fault::Astray(core) => write!(f, "core {core} goes on without a call"),
            Fault::Crossed(text) => write!(f, "a step on the other side, {text}"),
            Fault::TooLong => write!(f, "the calls make too many steps"),
            Fault::Unfinished => write!(f, "a core is still in a call"),
            Fault::Joined(frame) => {
                write!(
                    f,
                    "in the end frame {frame} is of one world with the other side"
                )
            }
        }
    }
}
