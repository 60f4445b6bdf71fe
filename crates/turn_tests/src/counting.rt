//! Whole calls at the table, and what is left at its end.

ghost use Rattle.std.specs.Prelude.{◌≡◌, ◌+◌, ◌<◌, ◌%◌, ◌^◌, [], ◌∷◌, ◌↔◌, IsNone, IsSome, IsTrue, IfOk, All, slice_index, sum_by, length};
ghost use Rattle.std.specs.Thread.{IsSync};
ghost use Rattle.std.specs.List.{AllZip};
ghost use Rattle.turn_rule.specs.Trace.{Extends};
ghost use Rattle.turn_rule.specs.Seats.{AreAllSeats};
ghost use Rattle.turn_tests.specs.Counter.{counter_steps};
ghost use Rattle.turn_tests.specs.Counting.{Makes, GoesOn, MayCount};

use crate::counter::Counter;
use spk_nums::Memory;
use std::alloc::Global;
use std::thread::{Threads, join_mut};
use turn_rule::{Spread, TurnSeat, TurnTable};

/// Makes the call, from its first step to its last.
pub fn count(table: &TurnTable<Counter>, seat: &mut TurnSeat<Counter>, tries: u8)
    requires table { seat.old.table ≡ table.now }
    requires idle { IsNone (counter_steps.next seat.old.program) }
    requires fit { tries < 8 }
    ensures idle { IsNone (counter_steps.next seat.new.program) }
    ensures makes { Makes seat.old (tries ∷ []) (tries + 2) seat.new }
{
    table.first(seat, tries);
    while table.turn(seat) {}
}

/// Makes the core's next step, if it has one, and says whether it had.
pub fn step(table: &TurnTable<Counter>, seat: &mut TurnSeat<Counter>) -> bool
    requires { seat.old.table ≡ table.now }
    ensures { IsTrue result ↔ IsSome (counter_steps.next seat.old.program) }
{
    table.turn(seat)
}

/// Gives back the word and the cores' programs. The word is the number of all wins, if it was so at the start.
pub fn finish(
    alloc: Global,
    table: TurnTable<Counter>,
    seats: Vec<TurnSeat<Counter>>,
) -> Result<(u64, Vec<Counter>), Memory>
    requires word { length table.start.words ≡ 1 }
    requires counts { slice_index table.start.words 0 ≡ sum_by (λ p. p.wins) table.start.programs % 2 ^ 64 }
    requires seats { AreAllSeats table seats.items }
    ensures { IfOk result (λ r. r.0 ≡ sum_by (λ p. p.wins) r.1.items % 2 ^ 64) }
{
    let (words, programs) = table.close(alloc, seats)?;
    Ok((words[0], programs))
}

/// Makes so many calls.
pub fn count_many(table: &TurnTable<Counter>, seat: &mut TurnSeat<Counter>, calls: u32)
    requires table { seat.old.table ≡ table.now }
    requires idle { IsNone (counter_steps.next seat.old.program) }
    ensures idle { IsNone (counter_steps.next seat.new.program) }
    ensures goes_on { GoesOn seat.old seat.new }
{
    for _ in 0..calls {
        count(table, seat, 4);
    }
}

/// The seat learns of all that the other one has seen.
pub fn tell(table: &TurnTable<Counter>, seat: &mut TurnSeat<Counter>, other: &mut TurnSeat<Counter>)
    requires { (seat.old.table ≡ table.now) × (other.old.table ≡ table.now) }
    ensures other { other.new ≡ other.old }
    ensures told { Extends other.old.seen seat.new.seen }
    ensures goes_on { GoesOn seat.old seat.new }
    ensures same { seat.new.program ≡ seat.old.program }
{
    let note = table.split(other);
    table.meet(seat, note);
}

/// Each core makes so many calls, in a thread of its own where one can be made.
#[tactic(auto, using(crate::proofs::Zips::all_zip_parts))]
pub fn count_all<R: Threads + Sync>(
    rt: &R,
    table: &TurnTable<Counter>,
    calls: u32,
    seats: &mut [TurnSeat<Counter>],
)
    requires { All (λ s. MayCount table.now s) seats.old }
    ensures { AllZip GoesOn seats.old seats.new }
{
    if seats.len() == 0 {
        return;
    }
    if seats.len() == 1 {
        count_many(table, &mut seats[0], calls);
        return;
    }
    let (front, back) = seats.split_at_mut(seats.len() / 2);
    join_mut(
        rt,
        &mut ||
            requires { IsSync R.row × All (λ s. MayCount table.now s) front.now }
            ensures { AllZip GoesOn front.entry.now front.exit.now }
        { count_all(rt, table, calls, front) },
        &mut ||
            requires { IsSync R.row × All (λ s. MayCount table.now s) back.now }
            ensures { AllZip GoesOn back.entry.now back.exit.now }
        { count_all(rt, table, calls, back) },
    );
}

/// Two cores count at once. It answers the word and the cores' programs.
pub fn count_in_two<R: Threads + Sync>(
    rt: &R,
    alloc: Global,
    calls: u32,
) -> Result<(u64, Vec<Counter>), Memory>
    ensures { IfOk result (λ r. r.0 ≡ sum_by (λ p. p.wins) r.1.items % 2 ^ 64) }
{
    let words = vec![in alloc; 0; 1]?;
    let Ok(programs) = Vec::from_array(alloc, [Counter::new(), Counter::new()]) else {
        return Err(Memory);
    };
    let (table, mut seats) = TurnTable::new(alloc, words, programs, Spread::flat())?;
    count_all(rt, &table, calls, seats.as_mut_slice());
    finish(alloc, table, seats)
}
