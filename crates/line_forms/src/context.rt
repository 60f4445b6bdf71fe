//! What the lines before a line have come to.

ghost use Rattle.std.specs.Prelude.{◌≡◌};
ghost use Rattle.line_reader.specs.Arguments.{texts};
ghost use Rattle.line_forms.specs.Contexts.{no_context, small_in, small_at, at_stage, core_stage, granted, after_head, after_start};
ghost use Rattle.line_forms.specs.Contexts.{context_after};

use crate::starts::{Start, start_of};
use call_reader::FirstWord;
use line_reader::read_number;
use script_tokens::Token;

/// What is read.
#[derive(Clone, Copy, Debug, PartialEq, Eq)]
pub enum Reading {
    /// A script.
    Script,
    /// A script with endpoint calls.
    Ends,
    /// A script of one core with tasks.
    Sched,
    /// A given history.
    History,
}

/// What may stand next.
#[derive(Clone, Copy, Debug, PartialEq, Eq)]
pub enum Stage {
    /// The `speck` line.
    Version,
    /// The `cores` line.
    Cores,
    /// The `frames` line.
    Frames,
    /// A `grant` line.
    Grants,
    /// A `calls` line, or what stands after it.
    Calls,
    /// An `epochs` line, or what stands after it.
    Epochs,
    /// A `core` line, or what stands after the lists.
    Lists,
    /// A call of the core named last, or what stands after it.
    List,
    /// Order items.
    Order,
    /// After the line `ends`: a `core` line.
    Asks,
    /// An endpoint call of the core named last, or a `core` line.
    AskList,
    /// A task.
    Tasks,
    /// A line of a given history.
    Marks,
}

/// What the lines before a line have come to.
#[derive(Clone, Copy, Debug)]
pub struct Context {
    pub reading: Reading,
    pub stage: Stage,
    /// The version of the language.
    pub version: u8,
    /// How many cores the lines say, at most 8; 1 where none says so yet.
    pub cores: u8,
    /// How many grants are still due.
    pub due: u8,
    /// How many order items may still come.
    pub items: usize,
}

/// What no lines have come to.
pub fn no_context(reading: Reading) -> Context
    ensures { result ≡ no_context reading }
{
    Context {
        reading,
        stage: Stage::Version,
        version: 1,
        cores: 1,
        due: 1,
        items: 200_000,
    }
}

// The number that a word is, at most 8; 1 where it is none.
fn small_in(word: &[u8]) -> u8
    ensures { result ≡ small_in word.now }
{
    match read_number(word) {
        Some(number) if number <= 8 => number as u8,
        _ => 1,
    }
}

// The first argument of a line, as such a number.
fn small_at(words: &[Token]) -> u8
    ensures { result ≡ small_at (texts words.now) }
{
    match words.get(1) {
        Some(word) => small_in(word.text),
        None => 1,
    }
}

fn at_stage(context: Context, stage: Stage) -> Context
    ensures { result ≡ at_stage context stage }
{
    Context { stage, ..context }
}

// What may stand after a `core` line.
fn core_stage(stage: Stage) -> Stage
    ensures { result ≡ core_stage stage }
{
    match stage {
        Stage::Asks | Stage::AskList => Stage::AskList,
        _ => Stage::List,
    }
}

// After one grant more.
fn granted(context: Context) -> Context
    ensures { result ≡ granted context }
{
    let due = context.due.saturating_sub(1);
    let stage = if due == 0 {
        Stage::Calls
    } else {
        Stage::Grants
    };
    Context {
        stage,
        due,
        ..context
    }
}

// After a line of a script.
fn after_head(context: Context, first: FirstWord, words: &[Token]) -> Context
    ensures { result ≡ after_head context first (texts words.now) }
{
    match first {
        FirstWord::Speck => Context {
            stage: Stage::Cores,
            version: small_at(words),
            ..context
        },
        FirstWord::Cores => Context {
            stage: Stage::Frames,
            cores: small_at(words),
            due: small_at(words),
            ..context
        },
        FirstWord::Frames => at_stage(context, Stage::Grants),
        FirstWord::Grant => granted(context),
        FirstWord::Calls => at_stage(context, Stage::Epochs),
        FirstWord::Epochs => at_stage(context, Stage::Lists),
        FirstWord::Core => at_stage(context, core_stage(context.stage)),
        FirstWord::Order => at_stage(context, Stage::Order),
        FirstWord::Call(_) => context,
    }
}

// After a line that begins so.
fn after_start(context: Context, start: Start, words: &[Token]) -> Context
    ensures { result ≡ after_start context start (texts words.now) }
{
    match start {
        Start::Head(first) => after_head(context, first, words),
        Start::Ends => at_stage(context, Stage::Asks),
        Start::Sched => at_stage(context, Stage::Tasks),
        Start::Enter | Start::Decide | Start::Return | Start::Whole => {
            at_stage(context, Stage::Marks)
        }
        Start::Send | Start::Recv | Start::Task => context,
    }
}

/// What the lines come to with one line more, which its reader has taken.
pub fn context_after(context: Context, words: &[Token]) -> Context
    ensures { result ≡ context_after context (texts words.now) }
{
    match start_of(context.version, context.reading, context.stage, words) {
        Some(start) => after_start(context, start, words),
        None => Context {
            items: context.items.saturating_sub(words.len()),
            ..context
        },
    }
}
