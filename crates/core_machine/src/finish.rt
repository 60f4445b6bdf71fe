//! How a machine ends: once all its ports are back.

ghost use Rattle.std.specs.Prelude.{◌≡◌, ◌≢◌, IfOk, IfErr, length};
ghost use Rattle.core_kernel.specs.word_map.specs.Places.{size_of};
ghost use Rattle.core_kernel.specs.kernel_history.specs.BootWords.{shape_of};
ghost use Rattle.core_kernel.specs.Calls.{EndsAt};

use crate::seats::Seats;
use std::alloc::Global;
use std::error::Error;
use std::fmt;
use std::sync::Arc;
use word_map::Closed;

/// Why a machine was not finished.
#[derive(Clone, Copy, PartialEq, Eq, Debug)]
pub enum FinishFault {
    /// A port is not back.
    Ports,
    /// Memory has run out.
    Memory,
}

impl fmt::Display for FinishFault {
    fn fmt<W: fmt::Write>(&self, f: &mut fmt::Formatter<W>) -> fmt::Result {
        f.write_str(match self {
            FinishFault::Ports => "a port is not back",
            FinishFault::Memory => "out of memory",
        })
    }
}

impl Error for FinishFault {}

/// A machine that was not finished: it is as it was, with all ports that are back, and may be finished later.
#[derive(Drop)]
pub struct Unfinished {
    /// The machine.
    pub seats: Seats,
    /// Why it was not finished.
    pub fault: FinishFault,
}

impl fmt::Display for Unfinished {
    fn fmt<W: fmt::Write>(&self, f: &mut fmt::Formatter<W>) -> fmt::Result {
        self.fault.fmt(f)
    }
}

impl Seats {
    /// The words and where each core ended, once all ports are back. Else the machine is given back as it was.
    ///
    /// # Errors
    ///
    /// `Ports` where a port is not back, which may then still make calls; `Memory` where memory has run out.
    pub fn finish(self, alloc: Global) -> Result<Closed, Unfinished>
        ensures all { IfOk result (λ closed. length self.back ≡ self.kernel.setup.cores) }
        ensures lacking { IfErr result (λ u. length self.back ≢ self.kernel.setup.cores → u.fault ≡ FinishFault.Ports) }
        ensures kept { IfErr result (λ u. u.seats ≡ self) }
        ensures layout { IfOk result (λ closed. closed.layout ≡ shape_of self.kernel.setup) }
        ensures words { IfOk result (λ closed. length closed.words.items ≡ size_of closed.layout) }
        ensures cores { IfOk result (λ closed. length closed.ends.items ≡ closed.layout.cores) }
        ensures ends { IfOk result (λ closed. EndsAt self.kernel self.back closed.words.items closed.ends.items) }
    {
        if self.back.len() != usize::from(self.setup.cores()) {
            let fault = FinishFault::Ports;
            return Err(Unfinished { seats: self, fault });
        }
        let room = match self.kernel.room(alloc) {
            Ok(room) => room,
            Err(_) => {
                let fault = FinishFault::Memory;
                return Err(Unfinished { seats: self, fault });
            }
        };
        let Seats {
            setup,
            kernel,
            here,
            back,
        } = self;
        match Arc::try_unwrap(kernel) {
            Ok(kernel) => Ok(kernel.finish_in(room, back)),
            Err(kernel) => Err(Unfinished {
                seats: Seats {
                    setup,
                    kernel,
                    here,
                    back,
                },
                fault: FinishFault::Ports,
            }),
        }
    }
}
