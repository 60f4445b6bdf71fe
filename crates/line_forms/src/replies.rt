//! What may stand at each place of a reply, counted from its name on. `words` are the line's from there on.

ghost use Rattle.std.specs.Prelude.{◌≡◌};
ghost use Rattle.line_reader.specs.Arguments.{texts};
ghost use Rattle.line_forms.specs.Replies.{is_held, is_counted, is_early_name, is_late_name, is_last_name, is_spent_name};
ghost use Rattle.line_forms.specs.Replies.{is_plain_name, is_reply_name, is_numbered_kind, is_object_kind, is_kind};
ghost use Rattle.line_forms.specs.Replies.{is_value, arg_slot, rights_slot, numbers_slot, cap_slot, named_slot, value_slot, reply_slot};

use crate::calls::is_at;
use crate::slots::{Slot, core_then, number_then};
use line_reader::{is_digits, is_word};
use script_tokens::Token;

/// A reply that names a core.
#[tactic(auto, unfolding(crate::specs::Replies::is_held))]
fn is_held(word: &[u8]) -> bool
    ensures { result ≡ is_held word.now }
{
    is_word(word, "quiescing")
        || is_word(word, "unflushed")
        || is_word(word, "running")
        || is_word(word, "busy")
}

/// A reply that has a number.
#[tactic(auto, unfolding(crate::specs::Replies::is_counted))]
fn is_counted(word: &[u8]) -> bool
    ensures { result ≡ is_counted word.now }
{
    is_word(word, "referenced") || is_word(word, "short")
}

#[tactic(auto, unfolding(crate::specs::Replies::is_early_name))]
fn is_early_name(word: &[u8]) -> bool
    ensures { result ≡ is_early_name word.now }
{
    is_word(word, "no-slot")
        || is_word(word, "empty")
        || is_word(word, "wrong-cap")
        || is_word(word, "occupied")
        || is_word(word, "frame-kind")
        || is_word(word, "out-of-range")
}

#[tactic(auto, unfolding(crate::specs::Replies::is_late_name))]
fn is_late_name(word: &[u8]) -> bool
    ensures { result ≡ is_late_name word.now }
{
    is_word(word, "not-empty")
        || is_word(word, "dead")
        || is_word(word, "deep")
        || is_word(word, "bottom")
        || is_word(word, "unlike")
        || is_word(word, "too-many")
}

#[tactic(auto, unfolding(crate::specs::Replies::is_last_name))]
fn is_last_name(word: &[u8]) -> bool
    ensures { result ≡ is_last_name word.now }
{
    is_word(word, "same") || is_word(word, "raced") || is_word(word, "fault")
}

#[tactic(auto, unfolding(crate::specs::Replies::is_spent_name))]
fn is_spent_name(word: &[u8]) -> bool
    ensures { result ≡ is_spent_name word.now }
{
    is_word(word, "epochs-spent") || is_word(word, "calls-spent") || is_word(word, "no-right")
}

// A reply that is its name alone.
fn is_plain_name(word: &[u8]) -> bool
    ensures { result ≡ is_plain_name word.now }
{
    is_early_name(word) || is_late_name(word) || is_last_name(word) || is_spent_name(word)
}

/// The name of a reply.
#[tactic(auto, unfolding(crate::specs::Replies::is_reply_name))]
pub fn is_reply_name(word: &[u8]) -> bool
    ensures { result ≡ is_reply_name word.now }
{
    is_word(word, "ok") || is_held(word) || is_counted(word) || is_plain_name(word)
}

// A kind of capability that has a number.
#[tactic(auto, unfolding(crate::specs::Replies::is_numbered_kind))]
fn is_numbered_kind(word: &[u8]) -> bool
    ensures { result ≡ is_numbered_kind word.now }
{
    is_word(word, "range") || is_word(word, "gate") || is_word(word, "page")
}

// A kind of capability that has none.
#[tactic(auto, unfolding(crate::specs::Replies::is_object_kind))]
fn is_object_kind(word: &[u8]) -> bool
    ensures { result ≡ is_object_kind word.now }
{
    is_word(word, "table")
        || is_word(word, "leaf")
        || is_word(word, "pages")
        || is_word(word, "pleaf")
        || is_word(word, "comp")
        || is_word(word, "thread")
        || is_word(word, "tcap")
        || is_word(word, "link")
}

fn is_kind(word: &[u8]) -> bool
    ensures { result ≡ is_kind word.now }
{
    is_numbered_kind(word) || is_object_kind(word)
}

/// A word after `ok` that is none of digits: a kind of capability, `preempts` or `stays`.
pub fn is_value(word: &[u8]) -> bool
    ensures { result ≡ is_value word.now }
{
    is_kind(word) || is_word(word, "preempts") || is_word(word, "stays")
}

// The number of a capability of such a kind.
#[tactic(auto, unfolding(crate::specs::Replies::arg_slot))]
fn arg_slot(kind: &[u8]) -> Slot
    ensures { result ≡ arg_slot kind.now }
{
    if is_word(kind, "range") {
        Slot::Number {
            least: 0,
            most: 16_777_215,
        }
    } else if is_word(kind, "gate") {
        Slot::Number {
            least: 1,
            most: 65_535,
        }
    } else {
        Slot::Number { least: 0, most: 3 }
    }
}

// From the place on at which `rights` may stand; the number after it is not that of both.
fn rights_slot(words: &[Token], at: usize, after: usize, place: usize) -> Slot
    ensures { result ≡ rights_slot (texts words.now) at after place }
{
    if place == at {
        Slot::Rights
    } else if is_at(words, at, "rights") {
        number_then(place, after, 0, 2)
    } else {
        Slot::End
    }
}

// After `ok` and a number: an amount, or a page's frame and its flags.
fn numbers_slot(words: &[Token], place: usize) -> Slot
    ensures { result ≡ numbers_slot (texts words.now) place }
{
    if words.len() <= 2 {
        number_then(place, 1, 0, 4_294_967_295)
    } else if place == 1 {
        Slot::Number {
            least: 0,
            most: 511,
        }
    } else {
        number_then(place, 2, 0, 3)
    }
}

// After `ok` and a kind.
fn cap_slot(words: &[Token], kind: &[u8], place: usize) -> Slot
    ensures { result ≡ cap_slot (texts words.now) kind.now place }
{
    if place == 2 {
        Slot::Number {
            least: 0,
            most: 511,
        }
    } else if !is_numbered_kind(kind) {
        rights_slot(words, 3, 4, place)
    } else if place == 3 {
        arg_slot(kind)
    } else {
        rights_slot(words, 4, 5, place)
    }
}

// After `ok` and a word, by that word.
fn named_slot(words: &[Token], word: &[u8], place: usize) -> Slot
    ensures { result ≡ named_slot (texts words.now) word.now place }
{
    if is_digits(word) {
        numbers_slot(words, place)
    } else if place == 1 {
        Slot::Value
    } else if is_kind(word) {
        cap_slot(words, word, place)
    } else {
        Slot::End
    }
}

// After `ok`.
fn value_slot(words: &[Token], place: usize) -> Slot
    ensures { result ≡ value_slot (texts words.now) place }
{
    match words.get(1) {
        Some(word) => named_slot(words, word.text, place),
        None => Slot::Value,
    }
}

// After the name of a reply.
fn after_name(words: &[Token], name: &[u8], cores: u8, place: usize) -> Slot
    ensures { result ≡ after_name (texts words.now) name.now cores place }
{
    if is_word(name, "ok") {
        value_slot(words, place)
    } else if is_held(name) {
        core_then(place, 1, cores)
    } else if is_counted(name) {
        number_then(place, 1, 0, 4_294_967_295)
    } else {
        Slot::End
    }
}

/// What may stand at a place of a reply.
pub fn reply_slot(words: &[Token], cores: u8, place: usize) -> Slot
    ensures { result ≡ reply_slot (texts words.now) cores place }
{
    if place == 0 {
        return Slot::ReplyName;
    }
    match words.first() {
        Some(name) => after_name(words, name.text, cores, place),
        None => Slot::End,
    }
}

ghost use Rattle.line_forms.specs.Replies.{after_name};
