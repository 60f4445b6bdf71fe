//! What may stand at each place of a line.

ghost use Rattle.std.specs.Prelude.{◌≡◌, ◌≤◌, length};
ghost use Rattle.line_reader.specs.Arguments.{texts};
ghost use Rattle.line_forms.specs.Lines.{sched_slot, period_slot, task_slot, grant_slot, cores_most, least_frames, head_slot};
ghost use Rattle.line_forms.specs.Lines.{before_equals, close_slot, whole_slot, enter_slot, decide_slot, slot_after, ends_order};
ghost use Rattle.line_forms.specs.Lines.{is_items, slot_at};

use crate::calls::call_slot;
use crate::context::{Context, Reading, Stage};
use crate::replies::reply_slot;
use crate::slots::{Slot, core_then, fits_end, name, names, number_then};
use crate::starts::{Start, start_of};
use crate::words::words_from;
use call_reader::{FirstWord, most_calls};
use line_reader::is_word;
use script_tokens::Token;

// `sched S U`.
fn sched_slot(place: usize) -> Slot
    ensures { result ≡ sched_slot place }
{
    if place == 1 {
        Slot::Number { least: 0, most: 63 }
    } else {
        number_then(place, 2, 1, 1_000_000)
    }
}

// What may stand behind the work of a task: from version 3 on its period.
fn period_slot(version: u8, place: usize) -> Slot
    ensures { result ≡ period_slot version place }
{
    if 3 <= version && place == 5 {
        Slot::MayNumber {
            least: 1,
            most: 1_000_000,
        }
    } else {
        Slot::End
    }
}

// `task H Q A N`, and from version 3 on also `task H Q A N P`.
fn task_slot(version: u8, place: usize) -> Slot
    ensures { result ≡ task_slot version place }
{
    if place <= 2 {
        name()
    } else if place == 3 {
        Slot::Number {
            least: 0,
            most: 1_000_000,
        }
    } else if place == 4 {
        Slot::Number {
            least: 1,
            most: 10_000,
        }
    } else {
        period_slot(version, place)
    }
}

// `grant B S W`.
fn grant_slot(place: usize) -> Slot
    ensures { result ≡ grant_slot place }
{
    if place == 1 {
        Slot::Number {
            least: 0,
            most: 500_000_000,
        }
    } else if place == 2 {
        Slot::Number { least: 0, most: 63 }
    } else {
        number_then(place, 3, 1, 16_777_215)
    }
}

// The most cores of a script. That one with tasks has one core is judged last, after a word too many.
fn cores_most(reading: Reading, words: &[Token]) -> u64
    ensures { result ≡ cores_most reading (texts words.now) }
{
    match reading {
        Reading::Sched => { if words.len() <= 2 { 1 } else { 8 } }
        _ => 8,
    }
}

// The least frames of a script.
fn least_frames(cores: u8) -> u64
    ensures { result ≡ least_frames cores }
{
    4 + 2 * u64::from(cores)
}

// A line of a script.
fn head_slot(context: &Context, first: FirstWord, words: &[Token], place: usize) -> Slot
    ensures { result ≡ head_slot context.now first (texts words.now) place }
{
    match first {
        FirstWord::Speck => number_then(place, 1, 1, 3),
        FirstWord::Cores => number_then(place, 1, 1, cores_most(context.reading, words)),
        FirstWord::Frames => number_then(place, 1, least_frames(context.cores), 512),
        FirstWord::Grant => grant_slot(place),
        FirstWord::Calls => number_then(place, 1, 0, most_calls(context.version)),
        FirstWord::Epochs => number_then(place, 1, 1, 65_535),
        FirstWord::Core => core_then(place, 1, context.cores),
        FirstWord::Order => Slot::End,
        FirstWord::Call(_) => call_slot(context.version, words, place),
    }
}

/// How many words stand before the first `=`.
pub fn before_equals(words: &[Token]) -> usize
    ensures value { result ≡ before_equals (texts words.now) }
    ensures within { result ≤ length words.now }
{
    let mut place = 0;
    let mut index = words.len();
    'words: while 0 < index {
        index -= 1;
        place = if is_word(words[index].text, "=") {
            0
        } else {
            place + 1
        };
    }
    place
}

// Where the call of a line ends: `=`, unless the call wants a word more.
fn close_slot(slot: Slot) -> Slot
    ensures { result ≡ close_slot slot }
{
    if fits_end(slot) { Slot::Equals } else { slot }
}

// `C.I CALL = REPLY`, where `equals` words stand before the `=`; from place 1 on.
fn whole_slot(context: &Context, words: &[Token], equals: usize, place: usize) -> Slot
    ensures { result ≡ whole_slot context.now (texts words.now) equals place }
{
    let call = call_slot(
        context.version,
        words_from(words, 1),
        place.saturating_sub(1),
    );
    if place < equals {
        call
    } else if place == equals {
        close_slot(call)
    } else {
        let after = place.saturating_sub(equals).saturating_sub(1);
        let rest = words_from(words_from(words, equals), 1);
        reply_slot(rest, context.cores, after)
    }
}

// `enter C CALL`.
fn enter_slot(context: &Context, words: &[Token], place: usize) -> Slot
    ensures { result ≡ enter_slot context.now (texts words.now) place }
{
    if place == 1 {
        Slot::Core {
            cores: context.cores,
        }
    } else {
        call_slot(
            context.version,
            words_from(words, 2),
            place.saturating_sub(2),
        )
    }
}

// `decide C REPLY`.
fn decide_slot(context: &Context, words: &[Token], place: usize) -> Slot
    ensures { result ≡ decide_slot context.now (texts words.now) place }
{
    if place == 1 {
        Slot::Core {
            cores: context.cores,
        }
    } else {
        reply_slot(words_from(words, 2), context.cores, place.saturating_sub(2))
    }
}

// A line that begins so, from place 1 on.
fn slot_after(context: &Context, start: Start, words: &[Token], place: usize) -> Slot
    ensures { result ≡ slot_after context.now start (texts words.now) place }
{
    match start {
        Start::Head(first) => head_slot(context, first, words, place),
        Start::Ends => Slot::End,
        Start::Send | Start::Recv => names(place, 1),
        Start::Sched => sched_slot(place),
        Start::Task => task_slot(context.version, place),
        Start::Enter => enter_slot(context, words, place),
        Start::Decide => decide_slot(context, words, place),
        Start::Return => core_then(place, 1, context.cores),
        Start::Whole => whole_slot(context, words, before_equals(words), place),
    }
}

// The line of order items may begin so.
fn ends_order(start: Option<Start>) -> bool
    ensures { result ≡ ends_order start }
{
    match start {
        Some(Start::Ends) | Some(Start::Sched) => true,
        _ => false,
    }
}

// The line is one of order items.
fn is_items(stage: Stage, start: Option<Start>) -> bool
    ensures { result ≡ is_items stage start }
{
    match stage {
        Stage::Order => !ends_order(start),
        _ => false,
    }
}

/// What may stand at a place of a line.
pub fn slot_at(context: &Context, words: &[Token], place: usize) -> Slot
    ensures { result ≡ slot_at context.now (texts words.now) place }
{
    let start = start_of(context.version, context.reading, context.stage, words);
    if is_items(context.stage, start) {
        return Slot::Item {
            cores: context.cores,
        };
    }
    if place == 0 {
        return Slot::First;
    }
    match start {
        Some(start) => slot_after(context, start, words, place),
        None => Slot::End,
    }
}
