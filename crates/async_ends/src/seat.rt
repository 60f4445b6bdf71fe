//! The handle with which a core sends and receives.

ghost use Rattle.std.specs.Prelude.{◌≡◌, ◌≤◌, None};
ghost use Rattle.async_ends.specs.Events.{AreCrossed, IsLegal, receiving};
ghost use Rattle.async_ends.specs.Running.{most_calls};
ghost use Rattle.async_ends.specs.Seen.{history_of};

use crate::run::EndRun;
use std::marker::Model;
use turn_rule::TurnSeat;

/// The seat of a core at a table of endpoints. Its core is between calls. It has seen a history, which has all sends and
/// receives of the core.
#[derive(Drop)]
pub struct EndSeat {
    pub(crate) seat: TurnSeat<EndRun>,
    pub(crate) frames: u16,
    pub(crate) cores: u8,
    pub(crate) made: u64,
}

impl Model for EndSeat {
    ghost use Rattle.async_ends.specs.Tables.{EndSeatValue, seat_value, IsSeat};

    ghost Value = { EndSeatValue };

    ghost view = { λ s. seat_value s.frames s.cores s.made s.seat };

    ghost invariant = { λ s. IsSeat s.frames s.cores s.made s.seat };
}

impl EndSeat {
    /// How many calls were made with the seat, the refused ones too: at most 2^40 - 1. Its contract also says what holds
    /// of every seat: the history that it has seen is legal, each receive in it that was raced was crossed by another core
    /// between its two steps, and the seat's core is between calls.
    pub fn made(&self) -> u64
        ensures value { result ≡ self.now.made }
        ensures most { self.now.made ≤ most_calls }
        ensures legal { IsLegal (history_of self.now.seen) }
        ensures crossed { AreCrossed (history_of self.now.seen) }
        ensures between { receiving (history_of self.now.seen) self.now.core ≡ None }
    {
        self.made
    }
}
