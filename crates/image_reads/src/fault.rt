//! Why the program stopped.

use core_machine::{FinishFault, Unfinished};
use spk_nums::{Memory, SetupFault};

/// Why no machine has made its calls and stopped.
#[derive(Clone, Copy, PartialEq, Eq, Debug)]
pub enum Fault {
    /// The setup is outside the limits.
    Setup(SetupFault),
    /// There is no port for a core.
    Ports,
    /// A call is refused.
    Refused,
    /// The machine was not finished.
    Finish(FinishFault),
    /// Memory has run out.
    Memory,
}

impl From<SetupFault> for Fault {
    fn from(fault: SetupFault) -> Fault {
        Fault::Setup(fault)
    }
}

impl From<Unfinished> for Fault {
    fn from(unfinished: Unfinished) -> Fault {
        Fault::Finish(unfinished.fault)
    }
}

impl From<Memory> for Fault {
    fn from(_fault: Memory) -> Fault {
        Fault::Memory
    }
}
