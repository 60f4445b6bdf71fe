//! How a machine with endpoints ends: once all its ports are back.

ghost use Rattle.std.specs.Prelude.{◌≡◌, ◌≢◌, IfOk, IfErr, length};
ghost use Rattle.core_machine.specs.core_kernel.specs.word_map.specs.Places.{size_of};
ghost use Rattle.core_machine.specs.core_kernel.specs.kernel_history.specs.BootWords.{shape_of};
ghost use Rattle.core_machine.specs.core_kernel.specs.Calls.{EndsAt};

use crate::seats::EndSeats;
use core_machine::{FinishFault, Unfinished};
use std::alloc::Global;
use word_map::Closed;

/// A machine that was not finished: it is as it was, with all ports that are back, and may be finished later.
#[derive(Drop)]
pub struct Unended {
    /// The machine.
    pub seats: EndSeats,
    /// Why it was not finished.
    pub fault: FinishFault,
}

impl EndSeats {
    /// The words and where each core ended, once all ports are back. Else the machine is given back as it was.
    ///
    /// # Errors
    ///
    /// `Ports` where a port is not back, which may then still make calls; `Memory` where memory has run out.
    pub fn finish(self, alloc: Global) -> Result<Closed, Unended>
        ensures all { IfOk result (λ closed. length self.seats.back ≡ self.seats.kernel.setup.cores) }
        ensures lacking { IfErr result (λ u. length self.seats.back ≢ self.seats.kernel.setup.cores → u.fault ≡ FinishFault.Ports) }
        ensures kept { IfErr result (λ u. u.seats ≡ self) }
        ensures layout { IfOk result (λ closed. closed.layout ≡ shape_of self.seats.kernel.setup) }
        ensures words { IfOk result (λ closed. length closed.words.items ≡ size_of closed.layout) }
        ensures cores { IfOk result (λ closed. length closed.ends.items ≡ closed.layout.cores) }
        ensures ends { IfOk result (λ closed. EndsAt self.seats.kernel self.seats.back closed.words.items closed.ends.items) }
    {
        let EndSeats { seats, table, here } = self;
        match seats.finish(alloc) {
            Ok(closed) => Ok(closed),
            Err(unfinished) => {
                let Unfinished { seats, fault } = unfinished;
                let seats = EndSeats { seats, table, here };
                Err(Unended { seats, fault })
            }
        }
    }
}
