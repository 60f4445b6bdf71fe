//! What is told of some faults beside what may stand there.

ghost use Rattle.std.specs.Prelude.{◌≡◌, Some};
ghost use Rattle.line_reader.specs.Arguments.{texts};
ghost use Rattle.fault_texts.specs.Notes.{note_text, is_told, grants_note, call_note, ask_note, list_note, misplaced_note, unknown_note, extra_note};
ghost use Rattle.fault_texts.specs.Notes.{range_note, core_note, many_note, note_of};

use call_reader::FirstWord;
use line_forms::{Context, Reading, Stage, Start, is_at, start_of};
use line_reader::Cause;
use script_tokens::Token;
use std::fmt;

/// What is told of some faults beside what may stand there.
#[derive(Clone, Copy, Debug)]
pub enum Note {
    /// Nothing.
    Nothing,
    /// This many grants are due, and so many were found.
    Grants { cores: u8, found: u8 },
    /// A call needs a `core` line before it.
    CallNeedsCore,
    /// So do endpoint calls.
    AskNeedsCore,
    /// After the line `order` stand items alone.
    ItemsAlone,
    /// The number before the dot of `C.I` is that of a core, below this one.
    CoreBeforeDot { cores: u8 },
    /// Rights are read from version 2 on.
    RightsLater,
    /// Of what is printed only the reply lines are read.
    LeaveTables,
    /// A schedule is of one core.
    OneCore,
    /// A script with tasks has no `tick`.
    NoTick,
    MostItems,
    MostTasks,
    MostLines,
    /// The line that ends the script is missing.
    LacksEnds,
    LacksSched,
}

/// What is told, without the line's end; nothing of nothing.
impl fmt::Display for Note {
    ghost output = { λ n. Some (note_text n) };

    fn fmt<W: fmt::Write>(&self, f: &mut fmt::Formatter<W>) -> fmt::Result {
        match self {
            Note::Nothing => write!(f, ""),
            Note::Grants { cores, found } => {
                write!(
                    f,
                    "one grant is due for each core: cores {cores}, grants {found}"
                )
            }
            Note::CallNeedsCore => write!(f, "a call needs a line core c before it"),
            Note::AskNeedsCore => write!(
                f,
                "an endpoint call needs a line core c before it, after the line ends"
            ),
            Note::ItemsAlone => write!(f, "after the line order stand items alone"),
            Note::CoreBeforeDot { cores } => {
                write!(f, "before the dot stands a core, a number below {cores}")
            }
            Note::RightsLater => write!(f, "rights are read from speck 2 on"),
            Note::LeaveTables => write!(f, "only reply lines are read: leave out the tables"),
            Note::OneCore => write!(f, "tasks are scheduled on one core"),
            Note::NoTick => write!(f, "the schedule charges the ticks: leave out tick"),
            Note::MostItems => write!(f, "an order has at most 200,000 items"),
            Note::MostTasks => write!(f, "there are at most 32 tasks"),
            Note::MostLines => write!(f, "there are at most 20,000 lines"),
            Note::LacksEnds => write!(f, "a line ends is due after the script"),
            Note::LacksSched => write!(f, "a line sched S U is due after the script"),
        }
    }
}

/// There is something to tell.
pub fn is_told(note: Note) -> bool
    ensures { result ≡ is_told note }
{
    match note {
        Note::Nothing => false,
        _ => true,
    }
}

// How many grants are due, and were found.
fn grants_note(context: &Context) -> Note
    ensures { result ≡ grants_note context.now }
{
    Note::Grants {
        cores: context.cores,
        found: context.cores.saturating_sub(context.due),
    }
}

// Of a line that may not stand before the first `core` line.
fn call_note(start: Option<Start>) -> Note
    ensures { result ≡ call_note start }
{
    match start {
        Some(Start::Head(FirstWord::Call(_))) => Note::CallNeedsCore,
        _ => Note::Nothing,
    }
}

// Of a line that may not stand right after the line `ends`.
fn ask_note(start: Option<Start>) -> Note
    ensures { result ≡ ask_note start }
{
    match start {
        Some(Start::Send) | Some(Start::Recv) => Note::AskNeedsCore,
        _ => Note::Nothing,
    }
}

// Of a line that may not stand in a list.
fn list_note(words: &[Token]) -> Note
    ensures { result ≡ list_note (texts words.now) }
{
    if is_at(words, 0, "tick") {
        Note::NoTick
    } else {
        Note::Nothing
    }
}

// Of a line that may not stand there.
fn misplaced_note(context: &Context, words: &[Token]) -> Note
    ensures { result ≡ misplaced_note context.now (texts words.now) }
{
    let start = start_of(context.version, context.reading, context.stage, words);
    match context.stage {
        Stage::Grants => grants_note(context),
        Stage::Calls | Stage::Epochs | Stage::Lists => call_note(start),
        Stage::List => list_note(words),
        Stage::Order => Note::ItemsAlone,
        Stage::Asks => ask_note(start),
        _ => Note::Nothing,
    }
}

// Of a word that is not known.
fn unknown_note(reading: Reading, place: usize) -> Note
    ensures { result ≡ unknown_note reading place }
{
    match reading {
        Reading::History => {
            if place == 0 {
                Note::LeaveTables
            } else {
                Note::Nothing
            }
        }
        _ => Note::Nothing,
    }
}

// Of a word after the last.
fn extra_note(context: &Context, words: &[Token], place: usize) -> Note
    ensures { result ≡ extra_note context.now (texts words.now) place }
{
    if context.version == 1 && is_at(words, place.saturating_sub(4), "copy") {
        Note::RightsLater
    } else {
        Note::Nothing
    }
}

// Of a number outside its range.
fn range_note(reading: Reading, words: &[Token]) -> Note
    ensures { result ≡ range_note reading (texts words.now) }
{
    match reading {
        Reading::Sched => {
            if is_at(words, 0, "cores") {
                Note::OneCore
            } else {
                Note::Nothing
            }
        }
        _ => Note::Nothing,
    }
}

// Of a core that the machine does not have.
fn core_note(reading: Reading, cores: u8, place: usize) -> Note
    ensures { result ≡ core_note reading cores place }
{
    match reading {
        Reading::History => {
            if place == 0 {
                Note::CoreBeforeDot { cores }
            } else {
                Note::Nothing
            }
        }
        _ => Note::Nothing,
    }
}

// Of what is too much.
fn many_note(stage: Stage) -> Note
    ensures { result ≡ many_note stage }
{
    match stage {
        Stage::Order => Note::MostItems,
        Stage::Tasks => Note::MostTasks,
        _ => Note::Nothing,
    }
}

/// What is told beside of a fault at a place of a line.
pub fn note_of(context: &Context, words: &[Token], place: usize, cause: Cause) -> Note
    ensures { result ≡ note_of context.now (texts words.now) place cause }
{
    match cause {
        Cause::S2 => unknown_note(context.reading, place),
        Cause::S4 => extra_note(context, words, place),
        Cause::S5 => range_note(context.reading, words),
        Cause::S6 => core_note(context.reading, context.cores, place),
        Cause::S7 => misplaced_note(context, words),
        Cause::S9 => many_note(context.stage),
        _ => Note::Nothing,
    }
}

// Where a script is read to its end, and the line that ends it is missing.
fn lacking_note(reading: Reading) -> Note
    ensures { result ≡ lacking_note reading }
{
    match reading {
        Reading::Ends => Note::LacksEnds,
        Reading::Sched => Note::LacksSched,
        _ => Note::Nothing,
    }
}

/// What is told beside of the end of a text that may not end there.
pub fn end_note(context: &Context) -> Note
    ensures { result ≡ end_note context.now }
{
    match context.stage {
        Stage::Grants => grants_note(context),
        Stage::Version | Stage::Cores | Stage::Frames => Note::Nothing,
        _ => lacking_note(context.reading),
    }
}

ghost use Rattle.fault_texts.specs.Notes.{lacking_note, end_note};
