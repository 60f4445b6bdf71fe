//! Marks: the number by which a word names the core that has marked it.

ghost use Rattle.std.specs.Prelude.{◌≡◌};
ghost use Rattle.spk_nums.specs.Marks.{number_of_mark, mark_of_number};

use crate::numbers::CoreNo;

/// A mark's number in a word, 0 to 8: 0 for none, else the core's number plus 1.
#[inline]
pub fn mark_number(mark: Option<CoreNo>) -> u64
    ensures { result ≡ number_of_mark mark }
{
    match mark {
        None => 0,
        Some(core) => core.number() as u64 + 1,
    }
}

/// The mark of this number in a word; None exactly above 8.
#[inline]
pub fn mark_numbered(number: u64) -> Option<Option<CoreNo>>
    ensures { result ≡ mark_of_number number }
{
    match number {
        0 => Some(None),
        1..=8 => Some(Some(CoreNo::new((number - 1) as u8))),
        _ => None,
    }
}
