//! Integers modulo 2^16.

ghost use Rattle.std.specs.Prelude.{◌≡◌, ◌<◌, ◌^◌};
ghost use Rattle.frame_words.specs.Count.{NumberFits};
ghost use Rattle.frame_words.specs.Residue.{residue, signed, wrapped};

/// The number below 2^16 that differs from this one by a multiple of 2^16.
#[inline]
pub fn residue(number: i64) -> u16
    ensures { result ≡ residue number }
{
    number.rem_euclid(1 << 16) as u16
}

/// The number from -2^15 to 2^15 - 1 that has this residue.
#[inline]
pub fn signed(residue: u16) -> i32
    ensures { result ≡ signed residue }
{
    if residue < 1 << 15 {
        i32::from(residue)
    } else {
        i32::from(residue) - (1 << 16)
    }
}

/// The number from -2^15 to 2^15 - 1 that differs from this one by a multiple of 2^16.
#[inline]
#[tactic(auto, using(crate::proofs::ResidueLemmas::wraps, crate::proofs::ResidueLemmas::wrapped_fits))]
pub fn wrapped(number: i64) -> i32
    ensures value { result ≡ wrapped number }
    ensures range { NumberFits result }
{
    signed(residue(number))
}
