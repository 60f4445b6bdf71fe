//! How a table of endpoints begins, with a seat for each core, and how it ends.

ghost use Rattle.std.specs.Prelude.{◌≡◌, ◌<◌, ◌≤◌, IfOk, All, map, replicate};
ghost use Rattle.async_ends.specs.Running.{unused};
ghost use Rattle.async_ends.specs.Tables.{AreAllSeats, AreFresh, AreWrapped, EndsAt, IsSeat, seat_value};

use crate::run::EndRun;
use crate::seat::EndSeat;
use crate::table::EndTable;
use spk_nums::Memory;
use std::alloc::{AllocError, Global};
use turn_rule::{Spread, TurnSeat, TurnTable};

// A core that has begun no call, for each core.
fn programs_of(alloc: Global, frames: u16, cores: u8) -> Result<Vec<EndRun>, AllocError>
    ensures { IfOk result (λ v. v.items ≡ replicate cores (unused frames)) }
{
    let mut programs = Vec::with_capacity(alloc, usize::from(cores))?;
    for _ in 0..cores {
        programs.push(EndRun::new(frames))?;
    }
    Ok(programs)
}

// The seats of the shared words as those of the endpoints, with which no call was made.
fn seats_of(
    alloc: Global,
    frames: u16,
    cores: u8,
    turn_seats: Vec<TurnSeat<EndRun>>,
) -> Result<Vec<EndSeat>, AllocError>
    requires { All (λ s. IsSeat frames cores 0 s) turn_seats.items }
    ensures { IfOk result (λ v. v.items ≡ map (seat_value frames cores 0) turn_seats.items) }
{
    let mut seats = Vec::with_capacity(alloc, turn_seats.len())?;
    for seat in turn_seats {
        seats.push(EndSeat {
            seat,
            frames,
            cores,
            made: 0,
        })?;
    }
    Ok(seats)
}

// The seats of the endpoints as those of the shared words.
fn turn_seats_of(alloc: Global, seats: Vec<EndSeat>) -> Result<Vec<TurnSeat<EndRun>>, AllocError>
    ensures { IfOk result (λ v. AreWrapped v.items seats.items) }
{
    let mut turn_seats = Vec::with_capacity(alloc, seats.len())?;
    for one in seats {
        let EndSeat { seat, .. } = one;
        turn_seats.push(seat)?;
    }
    Ok(turn_seats)
}

impl EndTable {
    /// A table of a count of 0 for each of 1 to 512 frames, and a seat for each of 1 to 8 cores, core 0 first. Each seat
    /// has seen the empty history. It fails only where memory runs out.
    pub fn new(alloc: Global, frames: u16, cores: u8) -> Result<(EndTable, Vec<EndSeat>), Memory>
        requires some_frames { 0 < frames }
        requires frames { frames ≤ 512 }
        requires some_cores { 0 < cores }
        requires cores { cores ≤ 8 }
        ensures frames { IfOk result (λ r. r.0.frames ≡ frames) }
        ensures cores { IfOk result (λ r. r.0.cores ≡ cores) }
        ensures seats { IfOk result (λ r. AreAllSeats r.0 r.1.items) }
        ensures fresh { IfOk result (λ r. AreFresh r.1.items) }
    {
        let words = vec![in alloc; 0; usize::from(frames)]?;
        let programs = programs_of(alloc, frames, cores)?;
        let (table, turn_seats) = TurnTable::new(alloc, words, programs, Spread::flat())?;
        let seats = seats_of(alloc, frames, cores, turn_seats)?;
        Ok((
            EndTable {
                table,
                frames,
                cores,
            },
            seats,
        ))
    }

    /// The count left for each frame: all that was sent there, less what was taken. The seats are all seats of the table,
    /// in the order of their cores. It fails only where memory runs out.
    pub fn close(self, alloc: Global, seats: Vec<EndSeat>) -> Result<Vec<u64>, Memory>
        requires { AreAllSeats self seats.items }
        ensures { IfOk result (λ counts. EndsAt self seats.items counts.items) }
    {
        let EndTable { table, .. } = self;
        let turn_seats = turn_seats_of(alloc, seats)?;
        let (counts, _programs) = table.close(alloc, turn_seats)?;
        Ok(counts)
    }
}
