//! The handle with which a core steps, and the note of what it has seen.

ghost use Rattle.std.specs.Prelude.{◌≡◌, Some};
ghost use Rattle.turn_rule.specs.Rule.{IsSeated};
ghost use Rattle.turn_rule.specs.Hands.{seat_of};
ghost use Rattle.turn_rule.specs.Seats.{FollowsTrace};

use crate::program::CoreProgram;
use crate::view::View;
use atomic_table::Seat;
use std::marker::Model;

/// The seat of a core at a table. It has the core's program and has seen a trace, which has all steps of the core.
#[derive(Drop)]
pub struct TurnSeat<P: CoreProgram> {
    // The hand with which the core steps. It is away only while the program makes a whole call with it.
    pub(crate) hand: Option<Seat<(), View<P, P::Call>>>,
    pub(crate) core: usize,
    pub(crate) program: P,
}

impl<P: CoreProgram> Model for TurnSeat<P> {
    ghost use Rattle.turn_rule.specs.Seats.{SeatValue};

    ghost Value = { SeatValue P P.Call };

    ghost use Rattle.turn_rule.specs.Hands.{seat_of, IsHeld};

    ghost view = { λ s. seat_of s.hand s.core s.program };

    ghost invariant = { λ s. IsHeld P.steps s.hand s.core s.program };
}

/// A note of the trace that a seat had seen. It may be dropped, which changes nothing.
#[derive(Drop)]
pub struct TurnNote<P: CoreProgram> {
    pub(crate) seat: Seat<(), View<P, P::Call>>,
}

impl<P: CoreProgram> Model for TurnNote<P> {
    ghost use Rattle.turn_rule.specs.Seats.{NoteValue};

    ghost Value = { NoteValue P P.Call };

    ghost use Rattle.std.specs.Prelude.{◌≡◌, []};

    ghost view = { λ n. let own = n.seat.me.0.own in record {
      table = record { id = n.seat.table_id; start = own.start };
      seen = own.seen;
    } };

    ghost invariant = { λ n. n.seat.me.1 ≡ [] };
}

impl<P: CoreProgram> TurnSeat<P> {
    // The hand and the program.
    pub(crate) fn into_parts(self) -> (Seat<(), View<P, P::Call>>, P)
        ensures value { self ≡ seat_of (Some result.0) self.core result.1 }
        ensures seated { IsSeated P.steps self.core result.0.me result.1 }
    {
        let TurnSeat {
            hand,
            core: _,
            program,
        } = self;
        match hand {
            Some(hand) => (hand, program),
            None => unreachable!(),
        }
    }

    /// The core's program. Its contract also says what holds of every seat: its trace is sound and gives the program.
    #[inline]
    pub fn program(&self) -> &P
        ensures program { result.now ≡ self.now.program }
        ensures follows { FollowsTrace P.steps self.now }
    {
        &self.program
    }

    /// The core's number, from 0 on in the order of the programs with which the table was made.
    #[inline]
    pub fn core(&self) -> usize
        ensures { result ≡ self.now.core }
    {
        self.core
    }
}
