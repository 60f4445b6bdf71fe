//! What may stand at a place.

ghost use Rattle.std.specs.Prelude.{◌≡◌};
ghost use Rattle.line_forms.specs.Slots.{name, names, number_then, core_then, is_between, is_below, fits_end};

use line_reader::read_number;

/// What may stand at a place of a line.
#[derive(Clone, Copy, Debug, PartialEq, Eq)]
pub enum Slot {
    /// A word with which a line may begin here.
    First,
    /// A number.
    Number { least: u64, most: u64 },
    /// A number, or nothing more.
    MayNumber { least: u64, most: u64 },
    /// A core below this number.
    Core { cores: u8 },
    /// A kind of frame.
    FrameKind,
    /// What a `make` makes.
    Object,
    /// The word of a call.
    Verb,
    /// An item of an order, of a core below this number.
    Item { cores: u8 },
    /// The name of a reply.
    ReplyName,
    /// The value of an `ok`, or nothing more.
    Value,
    /// The word `rights`, or nothing more.
    Rights,
    /// The `=` before a reply.
    Equals,
    /// Nothing.
    End,
}

/// The number of a capability, a page, a root entry or a frame.
pub fn name() -> Slot
    ensures { result ≡ name }
{
    Slot::Number {
        least: 0,
        most: 65_535,
    }
}

/// Such numbers up to a place, and nothing after them.
pub fn names(place: usize, last: usize) -> Slot
    ensures { result ≡ names place last }
{
    if place <= last { name() } else { Slot::End }
}

/// A number at one place, and nothing at another.
pub fn number_then(place: usize, at: usize, least: u64, most: u64) -> Slot
    ensures { result ≡ number_then place at least most }
{
    if place == at {
        Slot::Number { least, most }
    } else {
        Slot::End
    }
}

/// A core at one place, and nothing at another.
pub fn core_then(place: usize, at: usize, cores: u8) -> Slot
    ensures { result ≡ core_then place at cores }
{
    if place == at {
        Slot::Core { cores }
    } else {
        Slot::End
    }
}

/// The word is a number in this range.
pub fn is_between(word: &[u8], least: u64, most: u64) -> bool
    ensures { result ≡ is_between word.now least most }
{
    match read_number(word) {
        Some(number) => least <= number && number <= most,
        None => false,
    }
}

/// The word is a number below this one.
pub fn is_below(word: &[u8], cores: u8) -> bool
    ensures { result ≡ is_below word.now cores }
{
    match read_number(word) {
        Some(number) => number < u64::from(cores),
        None => false,
    }
}

/// The line may end there.
pub fn fits_end(slot: Slot) -> bool
    ensures { result ≡ fits_end slot }
{
    match slot {
        Slot::MayNumber { .. } | Slot::Value | Slot::Rights | Slot::End => true,
        _ => false,
    }
}
