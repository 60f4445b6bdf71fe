//! The values of calls that were carried out.

ghost use Rattle.std.specs.Prelude.{◌≡◌, ◌<◌, ◌≤◌, IfOk, slice_get, codes};
ghost use Rattle.spk_nums.specs.Limits.{least_arg, end_of_arg};
ghost use Rattle.spk_nums.specs.Rights.{least_rights};
ghost use Rattle.line_reader.specs.Arguments.{texts, number_at};
ghost use Rattle.history_reader.specs.Replies.{kind_of, arg_at, rights_place, is_name, fewer_rights, both_rights, rights_at, cap_at};
ghost use Rattle.history_reader.specs.Replies.{ticks_at, page_at, said_at, numbers_at, named_at, value_at};

use line_reader::{Cause, end_at, is_digits, is_word, number_at};
use script_tokens::Token;
use spk_nums::{Cap, FrameNo, Kind, PageFlags, Rights, Value};

#[tactic(auto, unfolding(crate::specs::Replies::kind_of))]
fn kind_of(word: &[u8]) -> Option<Kind>
    ensures { result ≡ kind_of word.now }
{
    if is_word(word, "range") {
        Some(Kind::Range)
    } else if is_word(word, "table") {
        Some(Kind::Table)
    } else if is_word(word, "leaf") {
        Some(Kind::Leaf)
    } else if is_word(word, "pages") {
        Some(Kind::Pages)
    } else if is_word(word, "pleaf") {
        Some(Kind::Pleaf)
    } else if is_word(word, "comp") {
        Some(Kind::Comp)
    } else if is_word(word, "gate") {
        Some(Kind::Gate)
    } else if is_word(word, "thread") {
        Some(Kind::Thread)
    } else if is_word(word, "tcap") {
        Some(Kind::Tcap)
    } else if is_word(word, "link") {
        Some(Kind::Link)
    } else if is_word(word, "page") {
        Some(Kind::Page)
    } else {
        None
    }
}

// A frame at a place.
fn frame_at(words: &[Token], place: usize) -> Result<FrameNo, Cause>
    ensures { result ≡ number_at (texts words.now) place 0 511 }
{
    let frame = number_at(words, place, 0, 511)?;
    Ok(FrameNo::new(frame as u16))
}

// A number of at most 32 bits at a place.
fn whole_at(words: &[Token], place: usize, least: u32, most: u32) -> Result<u32, Cause>
    ensures value { result ≡ number_at (texts words.now) place least most }
    ensures range { IfOk result (λ n. (least ≤ n) × (n ≤ most)) }
{
    let number = number_at(words, place, u64::from(least), u64::from(most))?;
    Ok(number as u32)
}

// A number of at most 8 bits at a place.
fn byte_at(words: &[Token], place: usize, least: u8, most: u8) -> Result<u8, Cause>
    ensures value { result ≡ number_at (texts words.now) place least most }
    ensures range { IfOk result (λ n. (least ≤ n) × (n ≤ most)) }
{
    let number = number_at(words, place, u64::from(least), u64::from(most))?;
    Ok(number as u8)
}

// The number of a capability after its frame.
#[tactic(auto, unfolding(crate::specs::Replies::arg_at))]
fn arg_at(words: &[Token], kind: Kind) -> Result<u32, Cause>
    ensures value { result ≡ arg_at (texts words.now) kind }
    ensures range { IfOk result (λ n. (least_arg kind ≤ n) × (n < end_of_arg kind)) }
{
    match kind {
        Kind::Range => whole_at(words, 3, 0, 16_777_215),
        Kind::Gate => whole_at(words, 3, 1, 65_535),
        Kind::Page => whole_at(words, 3, 0, 3),
        _ => Ok(0),
    }
}

fn rights_place(kind: Kind) -> usize
    ensures value { result ≡ rights_place kind }
    ensures most { result ≤ 4 }
{
    match kind {
        Kind::Range | Kind::Gate | Kind::Page => 4,
        _ => 3,
    }
}

fn least_rights(kind: Kind) -> u8
    ensures value { result ≡ least_rights kind }
    ensures most { result ≤ 3 }
{
    match kind {
        Kind::Link | Kind::Page => 3,
        _ => 0,
    }
}

// Whether the word at a place is this one.
fn is_name(words: &[Token], place: usize, name: &str) -> bool
    ensures { result ≡ is_name name.now (slice_get (texts words.now) place) }
{
    match words.get(place) {
        Some(word) => is_word(word.text, name),
        None => false,
    }
}

#[tactic(auto, unfolding(crate::specs::Replies::fewer_rights))]
fn fewer_rights(words: &[Token], place: usize, kind: Kind) -> Result<u8, Cause>
    requires { place ≤ 4 }
    ensures value { result ≡ fewer_rights (texts words.now) place kind }
    ensures range { IfOk result (λ r. (least_rights kind ≤ r) × (r < 4)) }
{
    let rights = byte_at(words, place + 1, least_rights(kind), 2)?;
    end_at(words, place + 2)?;
    Ok(rights)
}

#[tactic(auto, unfolding(crate::specs::Replies::both_rights))]
fn both_rights(words: &[Token], place: usize) -> Result<u8, Cause>
    ensures value { result ≡ both_rights (texts words.now) place }
    ensures range { IfOk result (λ r. r ≡ 3) }
{
    end_at(words, place)?;
    Ok(3)
}

// The rights of a capability, whose word `rights` would stand at this place.
#[tactic(auto, unfolding(crate::specs::Replies::rights_at))]
fn rights_at(words: &[Token], place: usize, kind: Kind) -> Result<u8, Cause>
    requires { place ≤ 4 }
    ensures value { result ≡ rights_at (texts words.now) place kind }
    ensures range { IfOk result (λ r. (least_rights kind ≤ r) × (r < 4)) }
{
    if is_name(words, place, "rights") {
        return fewer_rights(words, place, kind);
    }
    // What a capability has at least is within both.
    let _least = least_rights(kind);
    both_rights(words, place)
}

#[tactic(auto, unfolding(crate::specs::Replies::cap_at))]
fn cap_at(words: &[Token], kind: Kind) -> Result<Value, Cause>
    ensures { result ≡ cap_at (texts words.now) kind }
{
    let frame = frame_at(words, 2)?;
    let arg = arg_at(words, kind)?;
    let rights = rights_at(words, rights_place(kind), kind)?;
    let cap = Cap::with_rights(kind, frame, arg, Rights::of_bits(rights));
    Ok(Value::Cap(cap))
}

#[tactic(auto, unfolding(crate::specs::Replies::ticks_at))]
fn ticks_at(words: &[Token]) -> Result<Value, Cause>
    ensures { result ≡ ticks_at (texts words.now) }
{
    let ticks = whole_at(words, 1, 0, 4_294_967_295)?;
    Ok(Value::Amount(ticks))
}

#[tactic(auto, unfolding(crate::specs::Replies::page_at))]
fn page_at(words: &[Token]) -> Result<Value, Cause>
    ensures { result ≡ page_at (texts words.now) }
{
    let frame = frame_at(words, 1)?;
    let flags = byte_at(words, 2, 0, 3)?;
    end_at(words, 3)?;
    Ok(Value::Page {
        frame,
        flags: PageFlags::of_bits(flags),
    })
}

#[tactic(auto, unfolding(crate::specs::Replies::said_at))]
fn said_at(words: &[Token], value: Value) -> Result<Value, Cause>
    ensures { result ≡ said_at (texts words.now) value }
{
    end_at(words, 2)?;
    Ok(value)
}

// A value that begins with a number.
#[tactic(auto, unfolding(crate::specs::Replies::numbers_at))]
fn numbers_at(words: &[Token]) -> Result<Value, Cause>
    ensures { result ≡ numbers_at (texts words.now) }
{
    if words.len() <= 2 {
        ticks_at(words)
    } else {
        page_at(words)
    }
}

// A value that begins with another word.
#[tactic(auto, unfolding(crate::specs::Replies::named_at))]
fn named_at(words: &[Token], word: &[u8]) -> Result<Value, Cause>
    ensures { result ≡ named_at (texts words.now) word.now }
{
    if is_word(word, "preempts") {
        said_at(words, Value::Preempts)
    } else if is_word(word, "stays") {
        said_at(words, Value::Stays)
    } else {
        match kind_of(word) {
            Some(kind) => cap_at(words, kind),
            None => Err(Cause::S1),
        }
    }
}

/// The value after the word `ok`, which is at 0: nothing; an amount; a page's frame and its flags; `preempts` or `stays`; or a
/// capability, with its rights where they are not both. A word that is none of these is S1; a frame above 511, an amount above
/// 4,294,967,295, flags above 3, and a number that a capability of that kind has not is S5, as `rights` of both rights is.
#[tactic(auto, unfolding(crate::specs::Replies::value_at))]
pub fn value_at(words: &[Token]) -> Result<Value, Cause>
    ensures { result ≡ value_at (texts words.now) }
{
    let Some(word) = words.get(1) else {
        return Ok(Value::Nothing);
    };
    if is_digits(word.text) {
        numbers_at(words)
    } else {
        named_at(words, word.text)
    }
}
