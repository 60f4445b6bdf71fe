//! The form of a line.

ghost use Rattle.std.specs.Prelude.{◌≡◌, ℕ, []};
ghost use Rattle.line_reader.specs.Arguments.{texts};
ghost use Rattle.call_reader.specs.spk_nums.specs.declared.verbs.Verb.{Verb};
ghost use Rattle.line_forms.specs.Forms.{verb_form, task_form, head_form, start_form, items_form, form_of, call_form};
ghost use Rattle.line_forms.specs.Forms.{call_form_of};

use crate::calls::{is_at, verb_of};
use crate::context::{Context, Stage};
use crate::starts::{Start, start_of};
use crate::words::words_from;
use call_reader::{FirstWord, Verb};
use script_tokens::Token;

fn copy_form(version: u8) -> &'static str
    ensures { result.now ≡ verb_form version Verb.Copy [] }
{
    if 2 <= version {
        "copy A T B, or copy A T B R"
    } else {
        "copy A T B"
    }
}

// By what is made.
fn make_form(words: &[Token]) -> &'static str
    ensures { (version : ℕ) → result.now ≡ verb_form version Verb.Make (texts words.now) }
{
    if is_at(words, 1, "thread") {
        "make thread R F T B C"
    } else if is_at(words, 1, "tcap") {
        "make tcap R F T B S W"
    } else if is_at(words, 1, "comp") {
        "make comp R F T B X P L"
    } else {
        "make O R F T B"
    }
}

// A call.
fn verb_form(version: u8, verb: Verb, words: &[Token]) -> &'static str
    ensures { result.now ≡ verb_form version verb (texts words.now) }
{
    match verb {
        Verb::Copy => copy_form(version),
        Verb::Make => make_form(words),
        Verb::Look => "look A",
        Verb::Remove => "remove T B",
        Verb::Grow => "grow T I L",
        Verb::Shrink => "shrink T I",
        Verb::Retype => "retype R F K",
        Verb::Map => "map P V R F W",
        Verb::Unmap => "unmap P V",
        Verb::Touch => "touch V",
        Verb::Flush => "flush",
        Verb::Gate => "gate C T B",
        Verb::Kill => "kill C",
        Verb::Call => "call G",
        Verb::Ret => "ret",
        Verb::Switch => "switch H Q",
        Verb::Tick => "tick N",
        Verb::Transfer => "transfer A B M",
        Verb::Delegate => "delegate A B M",
        Verb::Test => "test A B",
        Verb::Part => "part R F N T B",
        Verb::Replenish => "replenish A M",
    }
}

// `task`, from version 3 on with a period where one is given.
fn task_form(version: u8) -> &'static str
    ensures { result.now ≡ task_form version }
{
    if 3 <= version {
        "task H Q A N, or task H Q A N P"
    } else {
        "task H Q A N"
    }
}

// A line of a script.
fn head_form(version: u8, first: FirstWord, words: &[Token]) -> &'static str
    ensures { result.now ≡ head_form version first (texts words.now) }
{
    match first {
        FirstWord::Call(verb) => verb_form(version, verb, words),
        FirstWord::Speck => "speck V",
        FirstWord::Cores => "cores n",
        FirstWord::Frames => "frames F",
        FirstWord::Grant => "grant B S W",
        FirstWord::Calls => "calls N",
        FirstWord::Epochs => "epochs N",
        FirstWord::Core => "core c",
        FirstWord::Order => "order",
    }
}

// A line that begins so.
fn start_form(version: u8, start: Start, words: &[Token]) -> &'static str
    ensures { result.now ≡ start_form version start (texts words.now) }
{
    match start {
        Start::Head(first) => head_form(version, first, words),
        Start::Ends => "ends",
        Start::Send => "send A",
        Start::Recv => "recv A",
        Start::Sched => "sched S U",
        Start::Task => task_form(version),
        Start::Enter => "enter C CALL",
        Start::Decide => "decide C REPLY",
        Start::Return => "return C",
        Start::Whole => "C.I CALL = REPLY",
    }
}

// A line that begins with no known word.
fn items_form(stage: Stage) -> &'static str
    ensures { result.now ≡ items_form stage }
{
    match stage {
        Stage::Order => "items, such as 0 0< 0! 0.",
        _ => "",
    }
}

/// The form of a line, by its words; nothing where its first word is not known.
pub fn form_of(context: &Context, words: &[Token]) -> &'static str
    ensures { result.now ≡ form_of context.now (texts words.now) }
{
    match start_of(context.version, context.reading, context.stage, words) {
        Some(start) => start_form(context.version, start, words),
        None => items_form(context.stage),
    }
}

// The form of the call that words begin with; nothing where they begin with none.
fn call_form(version: u8, words: &[Token]) -> &'static str
    ensures { result.now ≡ call_form version (texts words.now) }
{
    match words.first() {
        Some(word) => match verb_of(version, word.text) {
            Some(verb) => verb_form(version, verb, words),
            None => "",
        },
        None => "",
    }
}

/// The form of the call in a line of a given history; nothing where there is none.
pub fn call_form_of(context: &Context, words: &[Token]) -> &'static str
    ensures { result.now ≡ call_form_of context.now (texts words.now) }
{
    match start_of(context.version, context.reading, context.stage, words) {
        Some(Start::Enter) => call_form(context.version, words_from(words, 2)),
        Some(Start::Whole) => call_form(context.version, words_from(words, 1)),
        _ => "",
    }
}
