//! The words that a line may begin with.
//!
//! Most lines are calls. So which word of a call a word can be is told by two of its letters, and it is compared with that one; only
//! what is not that one is compared with each first word.

ghost use Rattle.std.specs.Prelude.{◌≡◌};
ghost use Rattle.call_reader.specs.FirstWords.{verb_in, find_verb, later_verbs, verb_of, first_word, in_version};

use line_reader::is_word;
use spk_nums::{Verb, verb_name};

/// A known first word.
#[derive(Clone, Copy, Debug, PartialEq, Eq)]
pub enum FirstWord {
    Speck,
    Cores,
    Frames,
    Grant,
    Calls,
    Epochs,
    Core,
    Order,
    Call(Verb),
}

#[tactic(auto, unfolding(crate::specs::FirstWords::find_verb))]
fn verb_of(word: &[u8], version: u8) -> Option<Verb>
    ensures { result ≡ verb_of version word.now }
{
    if is_word(word, "look") {
        Some(Verb::Look)
    } else if is_word(word, "copy") {
        Some(Verb::Copy)
    } else if is_word(word, "remove") {
        Some(Verb::Remove)
    } else if is_word(word, "grow") {
        Some(Verb::Grow)
    } else if is_word(word, "shrink") {
        Some(Verb::Shrink)
    } else if is_word(word, "retype") {
        Some(Verb::Retype)
    } else if is_word(word, "make") {
        Some(Verb::Make)
    } else if is_word(word, "map") {
        Some(Verb::Map)
    } else if is_word(word, "unmap") {
        Some(Verb::Unmap)
    } else if is_word(word, "touch") {
        Some(Verb::Touch)
    } else {
        later_verb_of(word, version)
    }
}

// The word of a call, where a script of this version has it.
fn verb_in(version: u8, verb: Verb) -> Option<Verb>
    ensures { result ≡ verb_in version verb }
{
    match verb {
        Verb::Part | Verb::Replenish => if 3 <= version { Some(verb) } else { None },
        _ => Some(verb),
    }
}

#[tactic(auto, unfolding(crate::specs::FirstWords::find_verb))]
fn later_verb_of(word: &[u8], version: u8) -> Option<Verb>
    ensures { result ≡ find_verb version word.now later_verbs }
{
    if is_word(word, "flush") {
        Some(Verb::Flush)
    } else if is_word(word, "gate") {
        Some(Verb::Gate)
    } else if is_word(word, "kill") {
        Some(Verb::Kill)
    } else if is_word(word, "call") {
        Some(Verb::Call)
    } else if is_word(word, "ret") {
        Some(Verb::Ret)
    } else if is_word(word, "switch") {
        Some(Verb::Switch)
    } else if is_word(word, "tick") {
        Some(Verb::Tick)
    } else if is_word(word, "transfer") {
        Some(Verb::Transfer)
    } else if is_word(word, "delegate") {
        Some(Verb::Delegate)
    } else if is_word(word, "test") {
        Some(Verb::Test)
    } else if is_word(word, "part") {
        verb_in(version, Verb::Part)
    } else if is_word(word, "replenish") {
        verb_in(version, Verb::Replenish)
    } else {
        None
    }
}

// The word of a call as a first word, where a script of this version has it.
fn in_version(version: u8, verb: Verb) -> Option<FirstWord>
    ensures { result ≡ in_version version verb }
{
    match verb_in(version, verb) {
        Some(v) => Some(FirstWord::Call(v)),
        None => None,
    }
}

// The only word of a call that can begin and go on with these letters, of those from `c` to `m`.
fn likely_early(first: u8, third: u8) -> Option<Verb> {
    match (first, third) {
        (b'c', b'p') => Some(Verb::Copy),
        (b'c', b'l') => Some(Verb::Call),
        (b'd', b'l') => Some(Verb::Delegate),
        (b'f', b'u') => Some(Verb::Flush),
        (b'g', b'o') => Some(Verb::Grow),
        (b'g', b't') => Some(Verb::Gate),
        (b'k', b'l') => Some(Verb::Kill),
        (b'l', b'o') => Some(Verb::Look),
        (b'm', b'p') => Some(Verb::Map),
        (b'm', b'k') => Some(Verb::Make),
        _ => None,
    }
}

// Of those from `p` to `u`. `ret` alone has three letters.
fn likely_late(first: u8, third: u8, letters: usize) -> Option<Verb> {
    match (first, third) {
        (b'p', b'r') => Some(Verb::Part),
        (b'r', b'm') => Some(Verb::Remove),
        (b'r', b'p') => Some(Verb::Replenish),
        (b'r', b't') if letters == 3 => Some(Verb::Ret),
        (b'r', b't') => Some(Verb::Retype),
        (b's', b'i') => Some(Verb::Switch),
        (b's', b'r') => Some(Verb::Shrink),
        (b't', b'a') => Some(Verb::Transfer),
        (b't', b'c') => Some(Verb::Tick),
        (b't', b's') => Some(Verb::Test),
        (b't', b'u') => Some(Verb::Touch),
        (b'u', b'm') => Some(Verb::Unmap),
        _ => None,
    }
}

// The only word of a call that a word can be, by two of its letters and its length.
fn likely(word: &[u8]) -> Option<Verb> {
    if word.len() < 3 {
        return None;
    }
    let first = word[0];
    let third = word[2];
    if first <= b'm' {
        likely_early(first, third)
    } else {
        likely_late(first, third, word.len())
    }
}

// The first word that a word is, by a comparison with each that there is.
#[tactic(auto, unfolding(crate::specs::FirstWords::first_word))]
fn any_word(word: &[u8], version: u8) -> Option<FirstWord>
    ensures { result ≡ first_word version word.now }
{
    if is_word(word, "speck") {
        Some(FirstWord::Speck)
    } else if is_word(word, "cores") {
        Some(FirstWord::Cores)
    } else if is_word(word, "frames") {
        Some(FirstWord::Frames)
    } else if is_word(word, "grant") {
        Some(FirstWord::Grant)
    } else if is_word(word, "calls") {
        Some(FirstWord::Calls)
    } else if is_word(word, "epochs") {
        Some(FirstWord::Epochs)
    } else if is_word(word, "core") {
        Some(FirstWord::Core)
    } else if is_word(word, "order") {
        Some(FirstWord::Order)
    } else {
        match verb_of(word, version) {
            Some(verb) => Some(FirstWord::Call(verb)),
            None => None,
        }
    }
}

/// The first word that a word is in a script of this version, if it is one that a rule knows.
pub fn first_word(word: &[u8], version: u8) -> Option<FirstWord>
    ensures { result ≡ first_word version word.now }
{
    if let Some(verb) = likely(word) {
        if is_word(word, verb_name(verb)) {
            return in_version(version, verb);
        }
    }
    any_word(word, version)
}
