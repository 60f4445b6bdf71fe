//! How a kernel begins, with a seat for each core, and how it ends.

ghost use Rattle.std.specs.Prelude.{◌≡◌, ◌<◌, ◌≤◌, [], length, vec_capacity, IfOk, All, map, None};
ghost use Rattle.spk_nums.specs.Setting.{IsSetting};
ghost use Rattle.boot_words.specs.kernel_history.specs.BootWords.{shape_of};
ghost use Rattle.call_steps.specs.call_stages.specs.Cores.{end_of};
ghost use Rattle.core_kernel.specs.Kernel.{AreAllSeats, AreFresh, IsSeat, seat_value};
ghost use Rattle.core_kernel.specs.Calls.{EndsAt};
ghost use Rattle.core_kernel.specs.Turns.{ArePrograms, AreWrapped};

use crate::core_run::CoreRun;
use crate::kernel::Kernel;
use crate::seat::CoreSeat;
use boot_words::boot_words;
use boot_words::word_map::{Closed, Layout};
use spk_nums::{CoreEnd, CoreNo, Memory, Reply, Setup, Value};
use std::alloc::{AllocError, Global};
use std::marker::Model;
use turn_rule::{Spread, TurnSeat, TurnTable};

// Each core at the start, core 0 first.
fn programs_of(alloc: Global, setup: &Setup) -> Result<Vec<CoreRun>, AllocError>
    ensures setting { IsSetting setup.now }
    ensures programs { IfOk result (λ v. ArePrograms setup.now setup.now.cores v.items) }
{
    let cores = setup.cores();
    let mut programs = Vec::with_capacity(alloc, usize::from(cores))?;
    let _last: (Option<Reply>, Option<Value>) = (None, None);
    for core in 0..cores {
        programs.push(CoreRun::start(CoreNo::new(core), setup))?;
    }
    Ok(programs)
}

// Where the words lie: each core's, and the liveness words after the last core's, begin a row. So what a core writes at
// each entry and exit is on no line of memory that the others load.
fn spread_of(setup: &Setup) -> Spread
    ensures { 0 < result.row }
{
    let frames = u32::from(setup.frames());
    Spread::rows(65 * frames, frames + 2)
}

// The seats of a table as those of its kernel.
fn seats_of(
    alloc: Global,
    setup: &Setup,
    turn_seats: Vec<TurnSeat<CoreRun>>,
) -> Result<Vec<CoreSeat>, AllocError>
    requires { All (λ s. IsSeat setup.now s) turn_seats.items }
    ensures { IfOk result (λ v. v.items ≡ map (seat_value setup.now) turn_seats.items) }
{
    let mut seats = Vec::with_capacity(alloc, turn_seats.len())?;
    for seat in turn_seats {
        seats.push(CoreSeat {
            seat,
            setup: *setup,
        })?;
    }
    Ok(seats)
}

// The seats of a kernel as those of its table, in the list given for them.
fn turn_seats_of(
    mut turn_seats: Vec<TurnSeat<CoreRun>>,
    setup: &Setup,
    seats: Vec<CoreSeat>,
) -> Vec<TurnSeat<CoreRun>>
    requires setups { All (λ s. s.kernel.setup ≡ setup.now) seats.items }
    requires none { turn_seats.items ≡ [] }
    requires room { length seats.items ≤ vec_capacity turn_seats }
    ensures { AreWrapped setup.now result.items seats.items }
{
    for one in seats {
        let CoreSeat { seat, setup: _ } = one;
        turn_seats.push_reserved(seat);
    }
    turn_seats
}

// Where each core ended, in the list given for that.
fn ends_of(mut ends: Vec<CoreEnd>, programs: &[CoreRun]) -> Vec<CoreEnd>
    requires between { All (λ p. p.state.active ≡ None) programs.now }
    requires none { ends.items ≡ [] }
    requires room { length programs.now ≤ vec_capacity ends }
    ensures { result.items ≡ map (λ p. end_of p.state) programs.now }
{
    for program in programs {
        ends.push_reserved(program.state.end());
    }
    ends
}

/// Room in memory for what a kernel leaves behind. Contracts see the setup of the kernels that it serves.
#[derive(Drop)]
pub struct Room {
    setup: Setup,
    words: Vec<u64>,
    turn_seats: Vec<TurnSeat<CoreRun>>,
    programs: Vec<CoreRun>,
    ends: Vec<CoreEnd>,
}

impl Model for Room {
    ghost use Rattle.std.specs.Prelude.{◌≡◌, ◌≤◌, [], vec_len, vec_capacity};
    ghost use Rattle.spk_nums.specs.Setting.{Setting};
    ghost use Rattle.boot_words.specs.word_map.specs.Places.{size_of};
    ghost use Rattle.boot_words.specs.kernel_history.specs.BootWords.{shape_of};

    ghost Value = { Setting };

    ghost view = { λ r. r.setup };

    ghost invariant = { λ r. (vec_len r.words ≡ size_of (shape_of r.setup))
        × ((r.turn_seats.items ≡ []) × (r.setup.cores ≤ vec_capacity r.turn_seats))
        × ((r.programs.items ≡ []) × (r.setup.cores ≤ vec_capacity r.programs))
        × ((r.ends.items ≡ []) × (r.setup.cores ≤ vec_capacity r.ends)) };
}

// Room for what kernels of this setup leave behind.
fn room_of(alloc: Global, setup: &Setup) -> Result<Room, Memory>
    ensures { IfOk result (λ room. room ≡ setup.now) }
{
    let Some(layout) = Layout::new(setup.cores(), setup.frames()) else {
        unreachable!()
    };
    let cores = usize::from(setup.cores());
    let words = vec![in alloc; 0; layout.size() as usize]?;
    let turn_seats = Vec::with_capacity(alloc, cores)?;
    let programs = Vec::with_capacity(alloc, cores)?;
    let ends = Vec::with_capacity(alloc, cores)?;
    Ok(Room {
        setup: *setup,
        words,
        turn_seats,
        programs,
        ends,
    })
}

impl Kernel {
    /// The kernel of a machine that has just booted, and a seat for each core, core 0 first. Each seat has seen the empty
    /// trace. It fails only where memory runs out.
    pub fn boot(alloc: Global, setup: &Setup) -> Result<(Kernel, Vec<CoreSeat>), Memory>
        ensures setup { IfOk result (λ r. r.0.setup ≡ setup.now) }
        ensures seats { IfOk result (λ r. AreAllSeats r.0 r.1.items) }
        ensures fresh { IfOk result (λ r. AreFresh r.1.items) }
    {
        let words = boot_words(alloc, setup)?;
        let programs = programs_of(alloc, setup)?;
        let (table, turn_seats) = TurnTable::new(alloc, words, programs, spread_of(setup))?;
        let kernel = Kernel {
            setup: *setup,
            table,
        };
        let seats = seats_of(alloc, setup, turn_seats)?;
        Ok((kernel, seats))
    }

    /// Room for what this kernel leaves behind. It fails only where memory runs out.
    pub fn room(&self, alloc: Global) -> Result<Room, Memory>
        ensures { IfOk result (λ room. room ≡ self.now.setup) }
    {
        room_of(alloc, &self.setup)
    }

    /// The words and where each core ended, given all seats in the order of their cores. It fails only where memory runs out.
    pub fn finish(self, alloc: Global, seats: Vec<CoreSeat>) -> Result<Closed, Memory>
        requires { AreAllSeats self seats.items }
        ensures layout { IfOk result (λ closed. closed.layout ≡ shape_of self.setup) }
        ensures ends { IfOk result (λ closed. EndsAt self seats.items closed.words.items closed.ends.items) }
    {
        let room = self.room(alloc)?;
        Ok(self.finish_in(room, seats))
    }

    /// The same in room that was had of a kernel of the same setup. It takes no memory, so it does not fail.
    pub fn finish_in(self, room: Room, seats: Vec<CoreSeat>) -> Closed
        requires room { room ≡ self.setup }
        requires seats { AreAllSeats self seats.items }
        ensures layout { result.layout ≡ shape_of self.setup }
        ensures ends { EndsAt self seats.items result.words.items result.ends.items }
    {
        let Kernel { setup, table } = self;
        let Room {
            setup: _,
            words,
            turn_seats,
            programs,
            ends,
        } = room;
        let Some(layout) = Layout::new(setup.cores(), setup.frames()) else {
            unreachable!()
        };
        let given = turn_seats_of(turn_seats, &setup, seats);
        let closed = table.close_in(words, programs, given);
        let (words, programs) = closed;
        let ends = ends_of(ends, &programs);
        Closed {
            layout,
            words,
            ends,
        }
    }
}
