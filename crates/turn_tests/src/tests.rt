//! Tests of what no clause says: that the calls succeed, and that cores that race still count and take tickets.

ghost use Rattle.turn_tests.specs.Taking.{IsOpen, MayTake};

use crate::counter::Counter;
use crate::counting::{count, count_in_two, tell};
use crate::taker::{Side, Taker};
use crate::taking::{take, take_in_two};
use spk_nums::Memory;
use std::alloc::Global;
use turn_rule::{Spread, TurnSeat, TurnTable, cross_threads};

#[test]
fn two_cores_win_as_often_as_the_word_says(rt: HostRuntime) -> Result<(), Memory> {
    cross_threads::<Counter>();
    let (word, programs) = count_in_two(&rt, rt.alloc(), 20_000)?;
    let mut wins: u64 = 0;
    for program in &programs {
        wins = wins.wrapping_add(program.wins);
    }
    assert_eq!(rt; word, wins);
    // A try is lost only to a win of the other core, and a call that wins nothing loses five.
    assert!(rt; word >= 32_000);
    Ok(())
}

#[test]
fn a_core_learns_from_a_note(rt: HostRuntime) -> Result<(), Memory> {
    let words = vec![in rt.alloc(); 5; 1]?;
    let Ok(programs) = Vec::from_array(rt.alloc(), [Counter::new(), Counter::new()]) else {
        return Err(Memory);
    };
    let (table, mut seats) = TurnTable::new(rt.alloc(), words, programs, Spread::flat())?;
    let (first, second) = seats.as_mut_slice().split_at_mut(1);
    count(&table, &mut first[0], 0);
    count(&table, &mut first[0], 0);
    tell(&table, &mut second[0], &mut first[0]);
    count(&table, &mut second[0], 0);
    assert_eq!(rt; second[0].core(), 1);
    assert_eq!(rt; first[0].program().wins, 2);
    assert_eq!(rt; second[0].program().wins, 1);
    assert!(rt; !table.turn(&mut first[0]));
    Ok(())
}

// Takes 3 tickets for the one core, 255 and none for the other, and 1 for the first again. It answers the tickets.
fn take_in_turn(
    table: &TurnTable<Taker>,
    left: &mut TurnSeat<Taker>,
    right: &mut TurnSeat<Taker>,
) -> [u64; 4]
    requires start { IsOpen table.now.start }
    requires left { MayTake table.now left.old }
    requires right { MayTake table.now right.old }
{
    let first = take(table, left, 3);
    let second = take(table, right, 255);
    let third = take(table, right, 0);
    let fourth = take(table, left, 1);
    [first, second, third, fourth]
}

// The tickets of two cores at a new table, whose words lie apart, and then how many the first core has taken, and which the second has
// taken last.
fn taken_in_turn(alloc: Global) -> Result<[u64; 6], Memory> {
    let words = vec![in alloc; 0; 3]?;
    let Ok(programs) = Vec::from_array(alloc, [Taker::new(Side::Left), Taker::new(Side::Right)])
    else {
        return Err(Memory);
    };
    let (table, mut seats) = TurnTable::new(alloc, words, programs, Spread::rows(1, 1))?;
    let (left, right) = seats.as_mut_slice().split_at_mut(1);
    let [first, second, third, fourth] = take_in_turn(&table, &mut left[0], &mut right[0]);
    let (taken, last) = (left[0].program().taken, right[0].program().last);
    Ok([first, second, third, fourth, taken, last])
}

#[test]
fn tickets_come_in_order_and_are_read_back(rt: HostRuntime) -> Result<(), Memory> {
    let taken = taken_in_turn(rt.alloc())?;
    assert_eq!(rt; taken.as_slice(), [0, 3, 258, 258, 4, 258].as_slice());
    Ok(())
}

#[test]
fn two_cores_at_once_lose_no_ticket(rt: HostRuntime) -> Result<(), Memory> {
    cross_threads::<Taker>();
    let (words, programs) = take_in_two(&rt, rt.alloc(), 20_000)?;
    let [left, right] = programs.as_slice() else {
        return Err(Memory);
    };
    assert_eq!(rt;
        words.as_slice(),
        [160_000, left.last, right.last].as_slice()
    );
    assert_eq!(rt; left.taken, 60_000);
    assert_eq!(rt; right.taken, 100_000);
    // The last call of all took the last tickets.
    assert!(rt; left.last == 159_997 || right.last == 159_995);
    Ok(())
}
