//! Where in memory the words lie.

ghost use Rattle.std.specs.Prelude.{◌≡◌, ◌/◌, ◌<◌};
ghost use Rattle.turn_rule.specs.Positions.{position};

use std::marker::Model;

/// How words lie in memory: those before `first` side by side; from it on in rows of so many places, before each of which
/// 128 bytes stand unused. So what cores write in one row is on no line of memory with another row.
#[derive(Clone, Copy, PartialEq, Eq, Debug)]
pub struct Spread {
    // The place at which the first row begins.
    first: u32,
    // How many places a row has: at least 1.
    row: u32,
    // By what a number is multiplied where it is to be divided by `row`.
    reciprocal: u64,
}

impl Model for Spread {
    ghost use Rattle.turn_rule.specs.Positions.{SpreadValue, reciprocal_of};

    ghost Value = { SpreadValue };

    ghost use Rattle.std.specs.Prelude.{◌≡◌, ◌<◌, ◌^◌};
    ghost use Rattle.std.proofs.Common.{sym};

    ghost view = { λ s. record { first = s.first; row = s.row } };

    ghost invariant = { λ s. (0 < s.row) × (s.row < 2 ^ 32) × (s.reciprocal ≡ reciprocal_of s.row) };

    ghost inverse = { λ s. record { first = s.first; row = s.row; reciprocal = reciprocal_of s.row } };

    ghost inverse_ok = { λ a h. λ i. record { first = a.first; row = a.row; reciprocal = sym h.2 i } };
}

impl Spread {
    /// Rows of `row` places, at least 1, from the place `first` on.
    pub const fn rows(first: u32, row: u32) -> Spread
        requires { 0 < row }
        ensures { result ≡ record { first = first; row = row } }
    {
        Spread {
            first,
            row,
            reciprocal: u64::MAX / row as u64,
        }
    }

    /// No rows: each word lies beside the one before it.
    pub const fn flat() -> Spread
        ensures { result ≡ record { first = 4294967295; row = 1 } }
    {
        Spread::rows(u32::MAX, 1)
    }

    // Which word of the memory is that of the place. A place before the rows costs no division.
    #[inline]
    pub(crate) fn position(&self, at: u32) -> usize
        requires { 0 < self.now.row }
        ensures { result ≡ position self.now at }
    {
        if at < self.first {
            return at as usize;
        }
        let row = self.whole_rows(at - self.first);
        at as usize + 16 * (row as usize + 1)
    }

    // How many whole rows so many places are. A multiplication takes a fraction of the time of a division.
    #[inline]
    fn whole_rows(&self, places: u32) -> u32
        requires { 0 < self.now.row }
        ensures { result ≡ places / self.now.row }
    {
        let product = (places as u128 + 1) * self.reciprocal as u128;
        (product >> 64) as u32
    }
}
