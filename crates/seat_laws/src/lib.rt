//! Laws of a history as a caller of the kernel for threads has them: each from the contract of `Kernel::call` or of a port alone, by one
//! projection of the record of all that holds of a machine's history. Should a law be out of a caller's reach, this crate would not be
//! proved.
//!
//! See docs/CLAIMS.md, 'The laws of a history'.
#![tactic(auto)]

ghost use Rattle.std.specs.Prelude.{◌≡◌, IfOk};
ghost use Rattle.spk_nums.specs.CallLimits.{InLimits};
ghost use Rattle.core_machine.specs.core_kernel.specs.Calls.{MakesCall};
ghost use Rattle.core_machine.specs.core_kernel.specs.flight_laws.specs.history_laws.specs.Pages.{CachedFramesStay};
ghost use Rattle.core_machine.specs.core_kernel.specs.flight_laws.specs.history_laws.specs.Threads.{ThreadsRunApart};
ghost use Rattle.core_machine.specs.core_kernel.specs.flight_laws.specs.history_laws.specs.Time.{TimeIsKept};
ghost use Rattle.seat_laws.specs.Ports.{EndsInWorlds, StaySince, TellsOfWorlds};

use core_machine::core_kernel::{CoreSeat, Kernel};
use core_machine::{Port, Seats, Unfinished};
use spk_nums::{Call, CoreNo, Make, Reply};
use std::alloc::Global;
use word_map::Closed;

/// Makes the call of the seat's core, and answers its reply. After all that the seat has then seen, budgets and spent ticks sum to the
/// grants, no thread is the current one of two cores, and each translation that a core has cached names a user frame. The call is in its
/// limits, and the seat is the kernel's.
pub fn call_and_tell(kernel: &Kernel, seat: &mut CoreSeat, call: Call) -> Reply
    requires kernel { seat.old.kernel ≡ kernel.now }
    requires limits { InLimits call }
    ensures makes { MakesCall seat.old call result seat.new }
    ensures time { TimeIsKept seat.new.kernel.setup seat.new.seen }
    ensures threads { ThreadsRunApart seat.new.kernel.setup seat.new.seen }
    ensures translations { CachedFramesStay seat.new.kernel.setup seat.new.seen }
{
    let _made: Option<Make> = None;
    kernel.call(seat, call)
}

/// The port's core. Its contract says what every port tells of authority and of worlds, by all that it has seen.
pub fn port_tells(port: &Port) -> CoreNo
    ensures core { result ≡ port.now.core }
    ensures worlds { TellsOfWorlds port.now.kernel.setup port.now.seen }
{
    port.core()
}

/// Makes the call of the port's core, and answers its reply. Worlds that were apart after what the port had seen are so after what it has
/// then seen, whatever all cores have done since; one that was sealed is so too, or a core inside has carried out a call. The call is in
/// its limits.
pub fn ask_and_tell(port: &mut Port, call: Call) -> Reply
    requires limits { InLimits call }
    ensures makes { MakesCall port.old call result port.new }
    ensures worlds { TellsOfWorlds port.new.kernel.setup port.new.seen }
    ensures since { StaySince port.old port.new }
{
    let _made: Option<Make> = None;
    port.call(call)
}

/// The words and where each core ended, once all ports are back, as `Seats::finish`. They are those after one trace of all cores, and
/// worlds that were apart after all that a port had seen are apart in the state that they represent.
///
/// # Errors
///
/// `Ports` where a port is not back; `Memory` where memory has run out.
pub fn finish_and_tell(seats: Seats, alloc: Global) -> Result<Closed, Unfinished>
    ensures worlds { IfOk result (λ closed. EndsInWorlds seats.kernel seats.back closed.words.items closed.ends.items) }
{
    seats.finish(alloc)
}
