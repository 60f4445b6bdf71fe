//! A machine with endpoints: its ports are dealt, and come back.

ghost use Rattle.std.specs.Prelude.{◌≡◌, ◌+◌, ◌<◌, ◌++◌, ◌∷◌, ◌↔◌, [], length, IfOk, IfSome, IsSome, MatchOption};
ghost use Rattle.std.specs.Arc.{arc_value};
ghost use Rattle.async_ends.specs.Tables.{AreAllSeats};
ghost use Rattle.end_ports.specs.Ports.{IsPortDealt};

use crate::end::End;
use crate::port::EndPort;
use async_ends::{EndSeat, EndTable};
use core_machine::Seats;
use spk_nums::{Memory, Setup};
use std::alloc::{AllocError, Global};
use std::marker::Model;
use std::sync::Arc;

/// A kernel, a table of endpoints, and the seats at both. Contracts see the machine as `Seats` has it, and the table.
#[derive(Drop)]
pub struct EndSeats {
    pub(crate) seats: Seats,
    pub(crate) table: Arc<EndTable>,
    pub(crate) here: Vec<End>,
}

impl Model for EndSeats {
    ghost use Rattle.std.specs.Arc.{arc_value};
    ghost use Rattle.end_ports.specs.Ports.{EndSeatsValue, HasEnds};

    ghost Value = { EndSeatsValue };

    ghost view = { λ s. record { seats = s.seats; table = arc_value s.table } };

    ghost invariant = { λ s. HasEnds (arc_value s.table) s.seats.kernel.setup.cores s.seats.dealt s.here.items };
}

// The seats, each with a share of the table.
fn ends_of(
    alloc: Global,
    table: &Arc<EndTable>,
    seats: Vec<EndSeat>,
) -> Result<Vec<End>, AllocError>
    requires frames { (arc_value table.now).frames ≡ 512 }
    requires seats { AreAllSeats (arc_value table.now) seats.items }
    ensures { IfOk result (λ v. v.items ≡ seats.items) }
{
    let mut ends = Vec::with_capacity(alloc, seats.len())?;
    for seat in seats {
        ends.push(End::new(Arc::try_clone(table)?, seat))?;
    }
    Ok(ends)
}

impl EndSeats {
    /// A machine of this setup that has just booted, of which no port is dealt yet. It fails only where memory runs out.
    pub fn boot(alloc: Global, setup: &Setup) -> Result<EndSeats, Memory>
        ensures setup { IfOk result (λ s. s.seats.kernel.setup ≡ setup.now) }
        ensures dealt { IfOk result (λ s. s.seats.dealt ≡ 0) }
        ensures back { IfOk result (λ s. s.seats.back ≡ []) }
    {
        let seats = Seats::boot(alloc, setup)?;
        let (table, end_seats) = EndTable::new(alloc, 512, setup.cores())?;
        let table = match Arc::new(alloc, table) {
            Ok(table) => table,
            Err(_) => return Err(Memory),
        };
        let here = ends_of(alloc, &table, end_seats)?;
        Ok(EndSeats { seats, table, here })
    }

    /// The port of the next core, which has seen the empty trace and made no call at the endpoints; core 0's comes first. None comes exactly
    /// where all are dealt.
    pub fn deal(&mut self) -> Option<EndPort>
        ensures none { IsSome result ↔ (self.old.seats.dealt < self.old.seats.kernel.setup.cores) }
        ensures port { IfSome result (λ p. IsPortDealt self.old p) }
        ensures dealt { MatchOption result (self.new.seats.dealt ≡ self.old.seats.dealt) (λ _. self.new.seats.dealt ≡ self.old.seats.dealt + 1) }
        ensures kernel { self.new.seats.kernel ≡ self.old.seats.kernel }
        ensures back { self.new.seats.back ≡ self.old.seats.back }
        ensures table { self.new.table ≡ self.old.table }
    {
        match self.seats.deal() {
            Some(port) => {
                let end = self.here.remove(0);
                Some(EndPort::new(port, end))
            }
            None => None,
        }
    }

    /// How many ports are back, which is also the core whose port is taken back next.
    pub fn returned(&self) -> usize
        ensures { result ≡ length self.now.seats.back }
    {
        self.seats.returned()
    }

    /// The number of cores.
    pub fn cores(&self) -> u8
        ensures { result ≡ self.now.seats.kernel.setup.cores }
    {
        self.seats.setup().cores()
    }

    /// Takes a port of this machine back: core 0's first, then core 1's and so on. It takes no memory, so it does not fail.
    pub fn take_back(&mut self, port: EndPort)
        requires kernel { port.port.kernel ≡ self.old.seats.kernel }
        requires core { port.port.core ≡ length self.old.seats.back }
        ensures back { self.new.seats.back ≡ self.old.seats.back ++ port.port ∷ [] }
        ensures kernel { self.new.seats.kernel ≡ self.old.seats.kernel }
        ensures dealt { self.new.seats.dealt ≡ self.old.seats.dealt }
        ensures table { self.new.table ≡ self.old.table }
    {
        self.seats.take_back(port.into_port());
    }
}
