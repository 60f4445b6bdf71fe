//! The table, and the steps that a seat makes on it.

ghost use Rattle.std.specs.Prelude.{◌≡◌, ◌<◌, ◌↔◌, length, Some, None, IsTrue, IsNone, IsSome, IsSomeAnd, MatchOption};
ghost use Rattle.turn_rule.specs.Rule.{Goes, IsDue};
ghost use Rattle.turn_rule.specs.Hands.{IsHandDue, HandGoes};
ghost use Rattle.turn_rule.specs.Seats.{FollowsTrace, MakesCall, MakesStep, Meets};

use crate::plays::{CatchesUp, Makes, Notes, Said, Takes};
use crate::program::CoreProgram;
use crate::seat::{TurnNote, TurnSeat};
use crate::spread::Spread;
use crate::view::{Boot, OneTrace, View};
use atomic_table::{Seat, Table};
use spk_nums::WordOp;
use std::alloc::Global;
use std::marker::{Brand, Model};
use std::snapshot::Snapshot;

/// Shared words at which each core has a seat. Every seat and note that a call takes is of this table.
#[derive(Drop)]
pub struct TurnTable<P: CoreProgram> {
    pub(crate) table: Table<(), View<P, P::Call>, Boot<P>, OneTrace<P>, Global>,
    pub(crate) spread: Spread,
    pub(crate) words: u32,
}

impl<P: CoreProgram> Model for TurnTable<P> {
    ghost use Rattle.turn_rule.specs.Seats.{TableValue};

    ghost Value = { TableValue P };

    ghost use Rattle.std.specs.Prelude.{◌≡◌, ◌<◌, length};
    ghost use Rattle.turn_rule.specs.Rule.{start_of};
    ghost use Rattle.turn_rule.specs.Positions.{position};

    ghost view = { λ t. let shared = t.table.shared in record {
      id = shared.table_id;
      start = start_of shared.key.words.value.items shared.key.programs.value.items;
    } };

    ghost invariant = { λ t. let shared = t.table.shared in
        (0 < shared.table_id.words)
        × (shared.table_id.slots ≡ 0)
        × (shared.table_id.words ≡ position t.spread t.words)
        × (t.words ≡ length shared.key.words.value.items)
        × (t.spread ≡ shared.key.spread)
        × (0 < t.spread.row) };
}

impl<P: CoreProgram> TurnTable<P> {
    // Makes the step `op`, which W names, and which is due once the call that W names, if any, is begun. It returns the
    // word that the program is told: the word found, or for a store the word stored.
    #[inline(always)]
    pub(crate) fn make<W: Said<P::Call>>(
        &self,
        seat: &mut Seat<(), View<P, P::Call>>,
        op: WordOp,
    ) -> u64
        requires said { W.op ≡ op }
        requires table { seat.old.table_id ≡ self.now.id }
        requires due { IsDue P.steps (length self.now.start.words) seat.old.me W.call op }
        ensures table { seat.new.table_id ≡ seat.old.table_id }
        ensures goes { Goes P.steps seat.old.me.0.own W.call op result seat.new.me.0.own
            × (seat.new.me.1 ≡ seat.old.me.1) }
    {
        let shared = &self.table.shared;
        match op {
            WordOp::Load { at } => shared.load::<Makes<P, W>>(seat, self.spread.position(at)),
            WordOp::Compare { at, expected, word } => {
                let at = self.spread.position(at);
                shared.compare_exchange::<Makes<P, W>>(seat, at, expected, word)
            }
            WordOp::Store { at, word } => {
                shared.store::<Makes<P, W>>(seat, self.spread.position(at), word);
                word
            }
            WordOp::Add { at, by } => {
                shared.fetch_add::<Makes<P, W>>(seat, self.spread.position(at), by)
            }
        }
    }

    // Makes the step as `make` does, with the hand of a seat.
    #[inline(always)]
    fn make_held<W: Said<P::Call>>(
        &self,
        hand: &mut Option<Seat<(), View<P, P::Call>>>,
        op: WordOp,
    ) -> u64
        requires said { W.op ≡ op }
        requires due { IsHandDue P.steps self.now hand.old W.call op }
        ensures goes { HandGoes P.steps hand.old W.call op result hand.new }
    {
        match hand {
            Some(seat) => self.make::<W>(seat, op),
            None => unreachable!(),
        }
    }

    // Makes the first step of the call that was `said`, which is begun. It gives the proof a place to name the call.
    #[inline(always)]
    fn make_first<W: Said<P::Call>>(
        &self,
        hand: &mut Option<Seat<(), View<P, P::Call>>>,
        op: WordOp,
        said: &Snapshot<P::Call>,
    ) -> u64
        requires said { (W.call ≡ Some said.now.value) × (W.op ≡ op) }
        requires due { IsHandDue P.steps self.now hand.old (Some said.now.value) op }
        ensures goes { HandGoes P.steps hand.old (Some said.now.value) op result hand.new }
    {
        self.make_held::<W>(hand, op)
    }

    /// Makes the core's next step, and says whether there was one. Without one the seat stays as it is.
    #[inline(always)]
    pub fn turn(&self, seat: &mut TurnSeat<P>) -> bool
        requires { seat.old.table ≡ self.now }
        ensures some { IsTrue result ↔ IsSome (P.steps.next seat.old.program) }
        ensures step { MatchOption (P.steps.next seat.old.program)
            (seat.new ≡ seat.old)
            (λ op. MakesStep P.steps seat.old None op seat.new) }
        ensures fewer { IsTrue result → P.steps.left seat.new.program < P.steps.left seat.old.program }
        ensures follows { FollowsTrace P.steps seat.new }
    {
        match seat.program.next_op() {
            None => false,
            Some(op) => {
                let found = self.make_held::<Brand>(&mut seat.hand, op);
                seat.program.absorb(found);
                true
            }
        }
    }

    /// Begins the call and makes its first step. The two are one change of the seat: the step's entry has the call.
    pub fn first(&self, seat: &mut TurnSeat<P>, call: P::Call)
        requires table { seat.old.table ≡ self.now }
        requires idle { IsNone (P.steps.next seat.old.program) }
        requires fit { P.steps.fit seat.old.program call }
        ensures step { IsSomeAnd (P.steps.next (P.steps.begun seat.old.program call))
            (λ op. MakesStep P.steps seat.old (Some call) op seat.new) }
        ensures follows { FollowsTrace P.steps seat.new }
    {
        let said = Snapshot::of(&call);
        seat.program.begin(call);
        let op = seat.program.next_op().unwrap();
        let found = self.make_first::<Brand>(&mut seat.hand, op, &said);
        seat.program.absorb(found);
    }

    /// Makes a whole call: begins it, and makes its steps, after the last of which the program has no next step. It
    /// takes no memory, and tries no step a second time.
    pub fn call(&self, seat: &mut TurnSeat<P>, call: P::Call)
        requires table { seat.old.table ≡ self.now }
        requires idle { IsNone (P.steps.next seat.old.program) }
        requires fit { P.steps.fit seat.old.program call }
        ensures makes { MakesCall P.steps seat.old call seat.new }
        ensures follows { FollowsTrace P.steps seat.new }
    {
        self.first(seat, call);
        while self.turn(seat) {}
    }

    /// Gives a note of what the seat has seen, and leaves the seat as it is.
    pub fn split(&self, seat: &mut TurnSeat<P>) -> TurnNote<P>
        requires { seat.old.table ≡ self.now }
        ensures same { seat.new ≡ seat.old }
        ensures note { (result.table ≡ seat.old.table) × (result.seen ≡ seat.old.seen) }
    {
        match &mut seat.hand {
            Some(hand) => TurnNote {
                seat: self.table.shared.split_seat::<Notes>(hand),
            },
            None => unreachable!(),
        }
    }

    /// Joins in what the note tells, and all that was made before the load. The core makes no step.
    pub fn meet(&self, seat: &mut TurnSeat<P>, note: TurnNote<P>)
        requires { (seat.old.table ≡ self.now) × (note.table ≡ self.now) }
        ensures met { Meets seat.old note seat.new }
        ensures follows { FollowsTrace P.steps seat.new }
    {
        let TurnNote { seat: told } = note;
        let shared = &self.table.shared;
        match &mut seat.hand {
            Some(hand) => {
                shared.join_seat::<Takes>(hand, told);
                shared.load::<CatchesUp<P>>(hand, 0);
            }
            None => unreachable!(),
        }
    }
}
