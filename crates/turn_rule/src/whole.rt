//! Whole calls, each made by its program itself, with the hand of its seat.

ghost use Rattle.std.specs.Prelude.{◌≡◌, Some, IsNone, IsSome};
ghost use Rattle.turn_rule.specs.Seats.{FollowsTrace, MakesCall};

use crate::program::CoreProgram;
use crate::seat::TurnSeat;
use crate::table::TurnTable;
use crate::view::View;
use atomic_table::Seat;
use spk_nums::WordOp;
use std::marker::{Brand, Model, PhantomData};
use std::snapshot::Snapshot;

/// The words of a table on which a program makes the steps of a whole call. Contracts see the program beside them: a step is made only
/// where it is the program's next one, and the program has then taken in what it told.
pub trait TurnWords<P: CoreProgram> {
    ghost use Rattle.std.specs.Prelude.{◌≡◌, ◌<◌, ℕ, Option, Some};
    ghost use Rattle.spk_nums.specs.WordSteps.{place_in};

    // The program that the steps made so far have left of the one that began the call.
    ghost program: { Self → P };
    // The program that made the step made last, and what the step told; none before the first step.
    ghost last: { Self → Option (P × ℕ) };

    /// Makes the program's next step, and answers the word found, or for a store the word stored.
    fn make(&mut self, op: WordOp) -> u64
        requires next { P.steps.next (program self.old) ≡ Some op }
        requires inside { place_in op < P.steps.size (program self.old) }
        requires size { (n : ℕ) → P.steps.size (P.steps.after (program self.old) n) ≡ P.steps.size (program self.old) }
        ensures goes { program self.new ≡ P.steps.after (program self.old) result }
        ensures told { last self.new ≡ Some (program self.old, result) };
}

/// A program that makes its whole calls itself.
pub trait WholeProgram: CoreProgram {
    ghost use Rattle.std.specs.Prelude.{◌≡◌, None, IsNone};

    // What the program has before a whole call.
    ghost ready: { Self → Self.Call → Type 0 };

    /// Makes the call on the words, from its first step to its last, and gives them back.
    fn whole<W: TurnWords<Self>>(&mut self, call: Self::Call, words: W) -> W
        requires ready { ready self.old call }
        requires begins { W.program words ≡ Self.steps.begun self.old call }
        requires fresh { W.last words ≡ None }
        ensures same { self.new ≡ W.program result }
        ensures idle { IsNone (Self.steps.next self.new) };
}

// The seat that began a call, and the call. A type has them, for the proof alone.
pub(crate) trait Began<P, C> {
    ghost use Rattle.std.specs.Prelude.{Option};
    ghost use Rattle.turn_rule.specs.Seats.{SeatValue};

    ghost began: { Option (SeatValue P C × C) };
}

impl<P, C> Began<P, C> for Brand {
    ghost use Rattle.std.specs.Prelude.{None};

    ghost began = { None };
}

// A seat's hand, lent to its program for a whole call.
pub(crate) struct OpenSeat<'t, P: CoreProgram, B: Began<P, P::Call>> {
    table: &'t TurnTable<P>,
    hand: Seat<(), View<P, P::Call>>,
    // The program and the call with which it was lent, for the proof alone.
    before: Snapshot<P>,
    said: Snapshot<P::Call>,
    began: PhantomData<B>,
}

impl<'t, P: CoreProgram, B: Began<P, P::Call>> Model for OpenSeat<'t, P, B> {
    ghost use Rattle.turn_rule.specs.OpenSeats.{OpenValue, began_at, IsOpen};

    ghost Value = { OpenValue P P.Call };

    ghost view = { λ o. record {
      seat = began_at B.began o.table.now o.before.value;
      call = o.said.value;
      seen = o.hand.me.0.own.seen;
    } };

    ghost invariant = { λ o. IsOpen P.steps B.began o.hand (began_at B.began o.table.now o.before.value) o.said.value };
}

impl<'t, P: CoreProgram, B: Began<P, P::Call>> TurnWords<P> for OpenSeat<'t, P, B> {
    ghost use Rattle.turn_rule.specs.OpenSeats.{going, last_step};

    ghost program = { λ o. going P.steps o.seat o.call o.seen };

    ghost last = { λ o. last_step P.steps o.seat o.seen };

    #[inline(always)]
    fn make(&mut self, op: WordOp) -> u64 {
        self.table.make::<Brand>(&mut self.hand, op)
    }
}

impl<P: WholeProgram> TurnTable<P> {
    /// Makes a whole call, as its program makes it, after which the program has no next step. It takes no memory, and tries no
    /// step a second time.
    #[inline(always)]
    pub fn whole(&self, seat: &mut TurnSeat<P>, call: P::Call)
        requires table { seat.old.table ≡ self.now }
        requires idle { IsNone (P.steps.next seat.old.program) }
        requires fit { P.steps.fit seat.old.program call }
        requires begins { IsSome (P.steps.next (P.steps.begun seat.old.program call)) }
        requires size { P.steps.size (P.steps.begun seat.old.program call) ≡ P.steps.size seat.old.program }
        requires ready { P.ready seat.old.program call }
        ensures makes { MakesCall P.steps seat.old call seat.new }
        ensures follows { FollowsTrace P.steps seat.new }
    {
        let said = Snapshot::of(&call);
        let before = Snapshot::of(seat.program());
        self.make_whole::<Brand>(seat, call, before, said)
    }

    // The hand is lent to the program, which makes the call with it.
    #[inline(always)]
    fn make_whole<B: Began<P, P::Call>>(
        &self,
        seat: &mut TurnSeat<P>,
        call: P::Call,
        before: Snapshot<P>,
        said: Snapshot<P::Call>,
    )
        requires began { B.began ≡ Some (seat.old, call) }
        requires before { before.value ≡ seat.old.program }
        requires said { said.value ≡ call }
        requires table { seat.old.table ≡ self.now }
        requires idle { IsNone (P.steps.next seat.old.program) }
        requires fit { P.steps.fit seat.old.program call }
        requires begins { IsSome (P.steps.next (P.steps.begun seat.old.program call)) }
        requires size { P.steps.size (P.steps.begun seat.old.program call) ≡ P.steps.size seat.old.program }
        requires ready { P.ready seat.old.program call }
        ensures makes { MakesCall P.steps seat.old call seat.new }
        ensures follows { FollowsTrace P.steps seat.new }
    {
        let Some(hand) = seat.hand.take() else {
            unreachable!()
        };
        let lent = OpenSeat::<P, B> {
            table: self,
            hand,
            before,
            said,
            began: PhantomData,
        };
        let words = seat.program.whole(call, lent);
        let OpenSeat {
            table: _,
            hand,
            before: _,
            said: _,
            began: _,
        } = words;
        seat.hand = Some(hand);
    }
}
