//! Whole calls that take tickets, and what the words show at the end.

ghost use Rattle.std.specs.Prelude.{◌≡◌, ◌*◌, IsNone, IfOk, length, slice_index};
ghost use Rattle.turn_rule.specs.Seats.{AreAllSeats, EndsAt, FollowsTrace};
ghost use Rattle.turn_tests.specs.Taker.{taker_steps};
ghost use Rattle.turn_tests.specs.Taking.{AreShown, HasTaken, IsOpen, MayTake, TakesFrom};

use crate::taker::{Side, Taker};
use spk_nums::Memory;
use std::alloc::Global;
use std::thread::{Threads, join_mut};
use turn_rule::{Spread, TurnSeat, TurnTable};

/// Takes so many tickets, and answers the first one, as it was read back.
pub fn take(table: &TurnTable<Taker>, seat: &mut TurnSeat<Taker>, count: u8) -> u64
    requires table { seat.old.table ≡ table.now }
    requires idle { IsNone (taker_steps.next seat.old.program) }
    requires start { IsOpen table.now.start }
    ensures idle { IsNone (taker_steps.next seat.new.program) }
    ensures takes { TakesFrom seat.old count result seat.new }
    ensures follows { FollowsTrace taker_steps seat.new }
{
    table.first(seat, count);
    let _stored = table.turn(seat);
    let _loaded = table.turn(seat);
    seat.program().last
}

/// Makes so many calls, of so many tickets each.
pub fn take_often(table: &TurnTable<Taker>, seat: &mut TurnSeat<Taker>, calls: u32, count: u8)
    requires may { MayTake table.now seat.old }
    requires start { IsOpen table.now.start }
    ensures { HasTaken seat.old (calls * count) seat.new }
{
    for _ in 0..calls {
        take(table, seat, count);
    }
}

/// Gives back the words and the cores' programs. The words show the tickets, as at the start.
pub fn close_shown(
    alloc: Global,
    table: TurnTable<Taker>,
    seats: Vec<TurnSeat<Taker>>,
) -> Result<(Vec<u64>, Vec<Taker>), Memory>
    requires start { IsOpen table.start }
    requires seats { AreAllSeats table seats.items }
    ensures ends { IfOk result (λ r. EndsAt taker_steps table seats.items r.0.items r.1.items) }
    ensures shown { IfOk result (λ r. AreShown r.0.items r.1.items) }
{
    table.close(alloc, seats)
}

// The one core takes three tickets a call and the other five, both at once where a thread can be made.
fn take_both<R: Threads + Sync>(
    rt: &R,
    table: &TurnTable<Taker>,
    calls: u32,
    left: &mut TurnSeat<Taker>,
    right: &mut TurnSeat<Taker>,
)
    requires start { IsOpen table.now.start }
    requires left { MayTake table.now left.old }
    requires right { MayTake table.now right.old }
    ensures left { HasTaken left.old (calls * 3) left.new }
    ensures right { HasTaken right.old (calls * 5) right.new }
{
    join_mut(
        rt,
        &mut ||
            requires { MayTake table.now left.now × IsOpen table.now.start }
            ensures { HasTaken left.entry.now (calls * 3) left.exit.now }
        { take_often(table, left, calls, 3) },
        &mut ||
            requires { MayTake table.now right.now × IsOpen table.now.start }
            ensures { HasTaken right.entry.now (calls * 5) right.exit.now }
        { take_often(table, right, calls, 5) },
    );
}

/// Two cores take three and five tickets a call at once, so many calls each. It answers the words, the first of which is
/// the number of all tickets, and the cores' programs.
pub fn take_in_two<R: Threads + Sync>(
    rt: &R,
    alloc: Global,
    calls: u32,
) -> Result<(Vec<u64>, Vec<Taker>), Memory>
    ensures all { IfOk result (λ r. slice_index r.0.items 0 ≡ calls * 8) }
    ensures shown { IfOk result (λ r. AreShown r.0.items r.1.items) }
    ensures sizes { IfOk result (λ r. (length r.0.items ≡ 3) × (length r.1.items ≡ 2)) }
{
    let words = vec![in alloc; 0; 3]?;
    let Ok(programs) = Vec::from_array(alloc, [Taker::new(Side::Left), Taker::new(Side::Right)])
    else {
        return Err(Memory);
    };
    let (table, mut seats) = TurnTable::new(alloc, words, programs, Spread::rows(1, 1))?;
    let (left, right) = seats.as_mut_slice().split_at_mut(1);
    take_both(rt, &table, calls, &mut left[0], &mut right[0]);
    close_shown(alloc, table, seats)
}
