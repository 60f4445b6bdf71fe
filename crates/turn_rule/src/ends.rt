//! How a table begins, with a seat for each program, and how it ends.

ghost use Rattle.std.specs.Prelude.{◌≡◌, ℕ, ◌+◌, ◌<◌, ◌≤◌, ◌^◌, [], length, slice_get, slice_index, vec_len, vec_capacity, All, IfOk, Some};
ghost use Rattle.std.specs.Slots.{slots_items, slots_len, IsFull};
ghost use Rattle.turn_rule.specs.Trace.{program_after};
ghost use Rattle.turn_rule.specs.Positions.{position, IsLaid};
ghost use Rattle.turn_rule.specs.Rule.{start_of, part, Stays, Begins};
ghost use Rattle.turn_rule.specs.Seats.{AreAllSeats, AreFresh, EndsAt};

use crate::plays::{Deals, Gathers, Starts, Takes};
use crate::program::CoreProgram;
use crate::seat::TurnSeat;
use crate::spread::Spread;
use crate::table::TurnTable;
use crate::view::{Boot, View};
use atomic_table::{Closed, Seat, Table};
use spk_nums::Memory;
use std::alloc::{AllocError, Global};
use std::snapshot::Snapshot;

impl<P: CoreProgram> TurnTable<P> {
    /// A table of these words, fewer than 2^32, and a seat for each program, in their order. Each seat has seen the empty
    /// trace. The words lie in memory as `spread` says, which changes nothing that a seat sees.
    pub fn new(
        alloc: Global,
        words: Vec<u64>,
        programs: Vec<P>,
        spread: Spread,
    ) -> Result<(TurnTable<P>, Vec<TurnSeat<P>>), Memory>
        requires words { 0 < vec_len words }
        requires few { vec_len words < 2 ^ 32 }
        requires row { 0 < spread.row }
        requires sizes { All (λ p. P.steps.size p ≡ vec_len words) programs.items }
        ensures words { IfOk result (λ r. r.0.start.words ≡ words.items) }
        ensures programs { IfOk result (λ r. r.0.start.programs ≡ programs.items) }
        ensures seats { IfOk result (λ r. AreAllSeats r.0 r.1.items) }
        ensures fresh { IfOk result (λ r. AreFresh r.0 r.1.items) }
    {
        let boot = Boot {
            words: Snapshot::of(&words),
            programs: Snapshot::of(&programs),
            spread,
        };
        let memory = laid(alloc, words.as_slice(), spread)?;
        let (table, rest) = Table::of_words(alloc, memory.as_slice(), &boot)?;
        let table = TurnTable {
            table,
            spread,
            words: words.len() as u32,
        };
        let seats = table.deal(alloc, rest, programs)?;
        Ok((table, seats))
    }

    // Cuts the view of all cores into a seat for each program.
    fn deal(
        &self,
        alloc: Global,
        mut rest: Seat<(), View<P, P::Call>>,
        programs: Vec<P>,
    ) -> Result<Vec<TurnSeat<P>>, AllocError>
        requires table { (rest.table_id ≡ self.now.id) × (self.now.start.programs ≡ programs.items) }
        requires all { rest.me.0.own ≡ part self.now.start 0 (length programs.items) [] }
        requires sizes { All (λ p. P.steps.size p ≡ length self.now.start.words) programs.items }
        ensures seats { IfOk result (λ v. AreAllSeats self.now v.items) }
        ensures fresh { IfOk result (λ v. AreFresh self.now v.items) }
    {
        let mut seats = Vec::with_capacity(alloc, programs.len())?;
        for program in programs {
            let seat = self.table.shared.split_seat::<Deals>(&mut rest);
            let core = seats.len();
            seats.push(TurnSeat {
                hand: Some(seat),
                core,
                program,
            })?;
        }
        Ok(seats)
    }

    /// How many words the table has.
    pub fn word_count(&self) -> usize
        ensures { result ≡ length self.now.start.words }
    {
        self.words as usize
    }

    /// Gives back the words and the programs. The seats are all seats of the table, in the order of their cores.
    pub fn close(self, alloc: Global, seats: Vec<TurnSeat<P>>) -> Result<(Vec<u64>, Vec<P>), Memory>
        requires { AreAllSeats self seats.items }
        ensures { IfOk result (λ r. EndsAt P.steps self seats.items r.0.items r.1.items) }
    {
        let words = vec![in alloc; 0; self.word_count()]?;
        let programs = Vec::with_capacity(alloc, seats.len())?;
        Ok(self.close_in(words, programs, seats))
    }

    /// Gives back the words and the programs as `close` does, in lists that are given for them: of as many words as the table has,
    /// whatever they are, and with room for each program. It takes no memory, so it does not fail.
    pub fn close_in(
        self,
        words: Vec<u64>,
        programs: Vec<P>,
        seats: Vec<TurnSeat<P>>,
    ) -> (Vec<u64>, Vec<P>)
        requires seats { AreAllSeats self seats.items }
        requires words { vec_len words ≡ length self.start.words }
        requires none { programs.items ≡ [] }
        requires room { length seats.items ≤ vec_capacity programs }
        ensures { EndsAt P.steps self seats.items result.0.items result.1.items }
    {
        let mut all = self.table.shared.load_new_seat::<Starts<P>>(0).1;
        let programs = self.gather(&mut all, programs, seats);
        let TurnTable { table, spread, .. } = self;
        let closed = table.close_with(all);
        (words_of(closed, words, spread), programs)
    }

    // Joins all seats into one, and gives their programs in the list given for them.
    fn gather(
        &self,
        all: &mut Seat<(), View<P, P::Call>>,
        mut programs: Vec<P>,
        seats: Vec<TurnSeat<P>>,
    ) -> Vec<P>
        requires table { (all.old.table_id ≡ self.now.id) × (all.old.me.0.own.from ≡ 0) }
        requires none { Stays P.steps all.old.me.0.own 0 all.old.me.0.own }
        requires seats { AreAllSeats self.now seats.items }
        requires empty { programs.items ≡ [] }
        requires room { length seats.items ≤ vec_capacity programs }
        ensures table { (all.new.table_id ≡ all.old.table_id) × (all.new.id ≡ all.old.id) }
        ensures count { length result.items ≡ length seats.items }
        ensures all { Stays P.steps all.old.me.0.own (length seats.items) all.new.me.0.own }
        ensures programs { (k : ℕ) (p : _) → slice_get result.items k ≡ Some p
            → program_after P.steps all.new.me.0.own.start all.new.me.0.own.seen k ≡ Some p }
        ensures seen { (k : ℕ) (s : _) → slice_get seats.items k ≡ Some s
            → Begins all.new.me.0.own.seen (part self.now.start k (k + 1) s.seen) }
    {
        let shared = &self.table.shared;
        for one in seats {
            let (seat, program) = one.into_parts();
            shared.join_seat::<Takes>(all, seat);
            shared.load::<Gathers<P>>(all, 0);
            programs.push_reserved(program);
        }
        programs
    }
}

// The memory of a table of these words.
fn laid(alloc: Global, words: &[u64], spread: Spread) -> Result<Vec<u64>, AllocError>
    requires few { length words.now < 2 ^ 32 }
    requires row { 0 < spread.row }
    ensures { IfOk result (λ v. IsLaid spread words.now v.items) }
{
    let mut memory = vec![in alloc; 0; spread.position(words.len() as u32)]?;
    for at in 0..words.len() {
        memory[spread.position(at as u32)] = words[at];
    }
    Ok(memory)
}

// The words of a table that was closed: as many as were given.
fn words_of(closed: Closed<(), Global>, mut words: Vec<u64>, spread: Spread) -> Vec<u64>
    requires full { IsFull closed.words }
    requires empty { slots_len closed.slots ≡ 0 }
    requires few { length words.items < 2 ^ 32 }
    requires row { 0 < spread.row }
    requires room { slots_len closed.words ≡ position spread (length words.items) }
    ensures count { length result.items ≡ length words.items }
    ensures words { (i : ℕ) → i < length words.items
        → slice_index result.items i ≡ slice_index (slots_items closed.words) (position spread i) }
{
    for at in 0..words.len() {
        words[at] = closed.word(spread.position(at as u32));
    }
    closed.free();
    words
}
