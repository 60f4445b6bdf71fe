//! The words with which a line may begin.

ghost use Rattle.std.specs.Prelude.{◌≡◌};
ghost use Rattle.line_reader.specs.Arguments.{texts};
ghost use Rattle.line_forms.specs.Starts.{head_start, ask_start, ends_start, sched_start, given_head, history_start, start_in, start_of};

use crate::context::{Reading, Stage};
use crate::numbered::is_numbered;
use call_reader::{FirstWord, first_word};
use line_reader::is_word;
use script_tokens::Token;

/// A known first word of a line.
#[derive(Clone, Copy, Debug, PartialEq, Eq)]
pub enum Start {
    /// One of a script.
    Head(FirstWord),
    /// `ends`, before endpoint calls.
    Ends,
    Send,
    Recv,
    /// `sched`, before tasks.
    Sched,
    Task,
    Enter,
    Decide,
    Return,
    /// `C.I`, of a call made whole.
    Whole,
}

fn head_start(first: Option<FirstWord>) -> Option<Start>
    ensures { result ≡ head_start first }
{
    match first {
        Some(first) => Some(Start::Head(first)),
        None => None,
    }
}

// After the line `ends`.
#[tactic(auto, unfolding(crate::specs::Starts::ask_start))]
fn ask_start(word: &[u8]) -> Option<Start>
    ensures { result ≡ ask_start word.now }
{
    if is_word(word, "core") {
        Some(Start::Head(FirstWord::Core))
    } else if is_word(word, "send") {
        Some(Start::Send)
    } else if is_word(word, "recv") {
        Some(Start::Recv)
    } else {
        None
    }
}

#[tactic(auto, unfolding(crate::specs::Starts::ends_start))]
fn ends_start(version: u8, stage: Stage, word: &[u8]) -> Option<Start>
    ensures { result ≡ ends_start version stage word.now }
{
    match stage {
        Stage::Asks | Stage::AskList => ask_start(word),
        _ => {
            if is_word(word, "ends") {
                Some(Start::Ends)
            } else {
                head_start(first_word(word, version))
            }
        }
    }
}

#[tactic(auto, unfolding(crate::specs::Starts::sched_start))]
fn sched_start(version: u8, stage: Stage, word: &[u8]) -> Option<Start>
    ensures { result ≡ sched_start version stage word.now }
{
    match stage {
        Stage::Tasks => {
            if is_word(word, "task") {
                Some(Start::Task)
            } else {
                None
            }
        }
        _ => {
            if is_word(word, "sched") {
                Some(Start::Sched)
            } else {
                head_start(first_word(word, version))
            }
        }
    }
}

// The words of the head of a given history.
fn given_head(first: Option<FirstWord>) -> Option<Start>
    ensures { result ≡ given_head first }
{
    match first {
        None => None,
        Some(FirstWord::Core) | Some(FirstWord::Order) | Some(FirstWord::Call(_)) => None,
        Some(first) => Some(Start::Head(first)),
    }
}

#[tactic(auto, unfolding(crate::specs::Starts::history_start))]
fn history_start(word: &[u8]) -> Option<Start>
    ensures { result ≡ history_start word.now }
{
    if is_word(word, "enter") {
        Some(Start::Enter)
    } else if is_word(word, "decide") {
        Some(Start::Decide)
    } else if is_word(word, "return") {
        Some(Start::Return)
    } else if is_numbered(word) {
        Some(Start::Whole)
    } else {
        given_head(first_word(word, 1))
    }
}

// The known first word that a word is in a script of this version.
fn start_in(version: u8, reading: Reading, stage: Stage, word: &[u8]) -> Option<Start>
    ensures { result ≡ start_in version reading stage word.now }
{
    match reading {
        Reading::Script => head_start(first_word(word, version)),
        Reading::Ends => ends_start(version, stage, word),
        Reading::Sched => sched_start(version, stage, word),
        Reading::History => history_start(word),
    }
}

/// The known first word of a line of a script of this version, if it has one.
pub fn start_of(version: u8, reading: Reading, stage: Stage, words: &[Token]) -> Option<Start>
    ensures { result ≡ start_of version reading stage (texts words.now) }
{
    match words.first() {
        Some(word) => start_in(version, reading, stage, word.text),
        None => None,
    }
}
