//! What may stand at each place of a call, counted from its word on. `words` are the line's from there on.

ghost use Rattle.std.specs.Prelude.{◌≡◌, ℕ};
ghost use Rattle.line_reader.specs.Arguments.{texts};
ghost use Rattle.call_reader.specs.spk_nums.specs.declared.verbs.Verb.{Verb};
ghost use Rattle.call_reader.specs.{form_of};
ghost use Rattle.line_forms.specs.Calls.{verb_of, is_at, slots_of, slot_in, call_slot};

use crate::slots::Slot;
use call_reader::{FirstWord, Verb, first_word};
use line_reader::is_word;
use script_tokens::Token;

// The number of a capability, a page, a root entry or a frame, or a count of frames.
const N: Slot = Slot::Number {
    least: 0,
    most: 65_535,
};
// An amount of ticks that is moved, and one that is charged.
const AMOUNT: Slot = Slot::Number {
    least: 0,
    most: 4_000_000_000,
};

const TICKS: Slot = Slot::Number {
    least: 0,
    most: 1_000_000,
};
// The number of a scheduler or of a liveness word, and a quality.
const SMALL: Slot = Slot::Number { least: 0, most: 63 };

const QUALITY: Slot = Slot::Number {
    least: 1,
    most: 16_777_215,
};
// The flags of a page, and the rights of a copy.
const FLAGS: Slot = Slot::Number { least: 0, most: 3 };

const RIGHTS: Slot = Slot::MayNumber { least: 0, most: 3 };

/// The word at a place is this one.
pub fn is_at(words: &[Token], place: usize, name: &str) -> bool
    ensures { result ≡ is_at (texts words.now) place name.now }
{
    match words.get(place) {
        Some(word) => is_word(word.text, name),
        None => false,
    }
}

/// The word of a call that a word is in a script of this version.
pub fn verb_of(version: u8, word: &[u8]) -> Option<Verb>
    ensures { result ≡ verb_of version word.now }
{
    match first_word(word, version) {
        Some(FirstWord::Call(verb)) => Some(verb),
        _ => None,
    }
}

// The one of these at an index; nothing more after them.
fn slot_in(slots: &[Slot], index: usize) -> Slot
    ensures { result ≡ slot_in slots.now index }
{
    match slots.get(index) {
        Some(slot) => *slot,
        None => Slot::End,
    }
}

// Of a `make`, by the object that its first argument is.
fn make_slots(words: &[Token]) -> &'static [Slot]
    ensures { (version : ℕ) → result.now ≡ slots_of version (texts words.now) 1 (form_of Verb.Make) }
{
    if is_at(words, 1, "thread") {
        &[Slot::Object, N, N, N, N, N]
    } else if is_at(words, 1, "tcap") {
        &[Slot::Object, N, N, N, N, SMALL, QUALITY]
    } else if is_at(words, 1, "comp") {
        &[Slot::Object, N, N, N, N, N, N, SMALL]
    } else {
        &[Slot::Object, N, N, N, N]
    }
}

// The arguments of a call, from place 1 on.
fn verb_slots(version: u8, verb: Verb, words: &[Token]) -> &'static [Slot]
    ensures { result.now ≡ slots_of version (texts words.now) 1 (form_of verb) }
{
    match verb {
        Verb::Flush | Verb::Ret => &[],
        Verb::Look | Verb::Touch | Verb::Kill | Verb::Call => &[N],
        Verb::Remove | Verb::Shrink | Verb::Unmap | Verb::Switch | Verb::Test => &[N, N],
        Verb::Grow | Verb::Gate => &[N, N, N],
        Verb::Part => &[N, N, N, N, N],
        Verb::Copy => {
            if 2 <= version {
                &[N, N, N, RIGHTS]
            } else {
                &[N, N, N]
            }
        }
        Verb::Retype => &[N, N, Slot::FrameKind],
        Verb::Make => make_slots(words),
        Verb::Map => &[N, N, N, N, FLAGS],
        Verb::Tick => &[TICKS],
        Verb::Transfer | Verb::Delegate => &[N, N, AMOUNT],
        Verb::Replenish => &[N, AMOUNT],
    }
}

/// What may stand at a place of a call, counted from its word on.
pub fn call_slot(version: u8, words: &[Token], place: usize) -> Slot
    ensures { result ≡ call_slot version (texts words.now) place }
{
    if place == 0 {
        return Slot::Verb;
    }
    let Some(word) = words.first() else {
        return Slot::End;
    };
    match verb_of(version, word.text) {
        Some(verb) => slot_in(verb_slots(version, verb, words), place - 1),
        None => Slot::End,
    }
}
