//! Endpoint calls, and how a table of endpoints ends.

ghost use Rattle.std.specs.Prelude.{◌≡◌, ◌<◌, ◌≤◌, IfOk};
ghost use Rattle.async_ends.specs.declared.endpoint.EndOp.TheVariants.{Send, Recv};
ghost use Rattle.async_ends.specs.Asked.{MakesDone};
ghost use Rattle.async_ends.specs.Calls.{MakesEndCall};
ghost use Rattle.async_ends.specs.Looks.{look};
ghost use Rattle.async_ends.specs.Running.{most_calls};
ghost use Rattle.async_ends.specs.Tables.{AreAllSeats, EndsAt};

use async_ends::{Authority, EndAsk, EndDone, EndReply, EndSeat, EndTable};
use spk_nums::{CapId, Memory};
use std::alloc::Global;

/// Sends or receives as it is asked.
pub fn ask<A: Authority>(table: &EndTable, seat: &mut EndSeat, who: &mut A, ask: EndAsk) -> EndDone
    requires table { seat.old.table ≡ table.now }
    requires few { seat.old.made < most_calls }
    requires frames { A.frame_count who.old ≤ table.now.frames }
    ensures makes { MakesDone (A.looks who.old) (A.looks who.new) seat.old result seat.new }
    ensures goes { A.goes who.old (look ask.number result.looked) who.new }
{
    table.ask(seat, who, ask)
}

/// Sends one to the component of the gate of this number.
pub fn send<A: Authority>(
    table: &EndTable,
    seat: &mut EndSeat,
    who: &mut A,
    gate: CapId,
) -> EndReply
    requires table { seat.old.table ≡ table.now }
    requires few { seat.old.made < most_calls }
    requires frames { A.frame_count who.old ≤ table.now.frames }
    ensures { MakesEndCall Send gate (A.looks who.old) (A.looks who.new) (λ l. A.goes who.old l who.new) seat.old result seat.new }
{
    table.send(seat, who, gate)
}

/// Takes all that was sent to the component of the capability of this number.
pub fn recv<A: Authority>(
    table: &EndTable,
    seat: &mut EndSeat,
    who: &mut A,
    comp: CapId,
) -> EndReply
    requires table { seat.old.table ≡ table.now }
    requires few { seat.old.made < most_calls }
    requires frames { A.frame_count who.old ≤ table.now.frames }
    ensures { MakesEndCall Recv comp (A.looks who.old) (A.looks who.new) (λ l. A.goes who.old l who.new) seat.old result seat.new }
{
    table.recv(seat, who, comp)
}

/// The count left for each frame.
pub fn close(table: EndTable, alloc: Global, seats: Vec<EndSeat>) -> Result<Vec<u64>, Memory>
    requires { AreAllSeats table seats.items }
    ensures { IfOk result (λ counts. EndsAt table seats.items counts.items) }
{
    table.close(alloc, seats)
}
