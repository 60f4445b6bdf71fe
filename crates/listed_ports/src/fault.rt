//! Why the program stopped.

use core_machine::{FinishFault, Unfinished};
use spk_nums::{Memory, SetupFault};
use std::alloc::AllocError;

/// Why the cores did not come to their end.
#[derive(Clone, Copy, PartialEq, Eq, Debug)]
pub enum Fault {
    /// The setup is outside the limits.
    Setup(SetupFault),
    /// There is no port for a core.
    Ports,
    /// The machine was not finished.
    Finish(FinishFault),
    /// Memory has run out.
    Memory,
}

impl From<SetupFault> for Fault {
    fn from(fault: SetupFault) -> Fault {
        Fault::Setup(fault)
    }
}

impl From<Unfinished> for Fault {
    fn from(unfinished: Unfinished) -> Fault {
        Fault::Finish(unfinished.fault)
    }
}

impl From<Memory> for Fault {
    fn from(_fault: Memory) -> Fault {
        Fault::Memory
    }
}

impl From<AllocError> for Fault {
    fn from(_fault: AllocError) -> Fault {
        Fault::Memory
    }
}
