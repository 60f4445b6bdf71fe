//! The commands, and the words by which they are asked.

ghost use Rattle.std.specs.Prelude.{◌≡◌, [], ◌∷◌, ◌↔◌, IsTrue, codes};
ghost use Rattle.speck_run.specs.Top.{IsCommandOf, IsReadingOf, IsExplainedAfter, IsNumberOf, IsNumberIn, IsPageOf, texts_of};

use explain_run::Reading;
use load_maker::script_reader::read_number;

/// A command of the program that takes an input.
#[derive(Clone, Copy, Debug, PartialEq, Eq)]
pub enum Command {
    /// Takes given steps of a script, and writes what they did.
    Replay,
    /// Takes given steps of a script, and writes each of them.
    Trace,
    /// Takes given steps of a script, and writes a picture of a page of them; pages count from 1.
    Draw {
        /// The page.
        page: u32,
    },
    /// Makes the lists of a script, each core in a thread of its own, and writes what they did.
    Run,
    /// Makes the calls of a script alone, core 0's first, and writes what they did.
    Plain,
    /// Writes a script in its printed form.
    Print,
    /// Makes the lists of a script and then endpoint calls, each core in a thread of its own, and writes what they did.
    Ends,
    /// Makes the calls of a script of one core and then schedules tasks on it, and writes the turns.
    Sched,
    /// Judges a given history, and writes the verdict.
    Check,
    /// Takes given steps of a script, and writes where each capability came from that is held in the end.
    Origins,
    /// Takes given steps of a script, and writes the worlds that are apart in the end, and the gates between them.
    Worlds,
    /// Reads what another command reads, and writes what to do where that would be refused.
    Explain(Reading),
}

// Whether the words are this one alone.
fn is_alone(words: &Vec<String>, name: &str) -> bool
    ensures { IsTrue result ↔ (texts_of words.now ≡ name.now ∷ []) }
{
    match words.as_slice() {
        [word] => word.as_str() == name,
        _ => false,
    }
}

// Whether two words are one.
fn is_same(word: &str, name: &str) -> bool
    ensures { IsTrue result ↔ (word.now ≡ name.now) }
{
    word == name
}

// What the command of a word reads, where it is one that is explained.
fn reading_of(word: &str) -> Option<Reading>
    ensures { IsReadingOf word.now result }
{
    if is_same(word, "print") {
        return Some(Reading::Script);
    }
    if is_same(word, "ends") {
        return Some(Reading::Ends);
    }
    if is_same(word, "sched") {
        return Some(Reading::Sched);
    }
    if is_same(word, "check") {
        return Some(Reading::History);
    }
    None
}

// What is to be explained, where the words are this one and that of such a command.
fn explained_after(words: &Vec<String>, name: &str) -> Option<Reading>
    ensures { IsExplainedAfter name.now words.now result }
{
    match words.as_slice() {
        [word, subject] if word.as_str() == name => reading_of(subject.as_str()),
        _ => None,
    }
}

// The number from 0 to 4,294,967,295 that a word stands for; none for another word.
fn number_in(word: &str) -> Option<u32>
    ensures { IsNumberIn word.now result }
{
    let number = read_number(word.as_bytes())?;
    u32::try_from(number).ok()
}

/// The number after this word, where the words are these two; none for other words.
pub fn number_after(words: &Vec<String>, name: &str) -> Option<u32>
    ensures { IsNumberOf name.now words.now result }
{
    match words.as_slice() {
        [word, number] if word.as_str() == name => number_in(number.as_str()),
        _ => None,
    }
}

// The page of a drawing for which the words ask, where they are `draw` and a number that is at least 1; none for other words.
#[tactic(auto, using(crate::proofs::Due::no_page, crate::proofs::Due::page_zero))]
fn page_of(words: &Vec<String>) -> Option<u32>
    ensures { IsPageOf words.now result }
{
    let page = number_after(words, "draw")?;
    if page == 0 {
        return None;
    }
    Some(page)
}

/// The command that the words ask for; none for other words.
#[tactic(auto, using(crate::proofs::Due::no_words))]
pub fn command_of(words: &Vec<String>) -> Option<Command>
    ensures { IsCommandOf words.now result }
{
    if is_alone(words, "replay") {
        return Some(Command::Replay);
    }
    if is_alone(words, "trace") {
        return Some(Command::Trace);
    }
    if is_alone(words, "draw") {
        return Some(Command::Draw { page: 1 });
    }
    if is_alone(words, "run") {
        return Some(Command::Run);
    }
    if is_alone(words, "plain") {
        return Some(Command::Plain);
    }
    if is_alone(words, "print") {
        return Some(Command::Print);
    }
    if is_alone(words, "ends") {
        return Some(Command::Ends);
    }
    if is_alone(words, "sched") {
        return Some(Command::Sched);
    }
    if is_alone(words, "check") {
        return Some(Command::Check);
    }
    if is_alone(words, "origins") {
        return Some(Command::Origins);
    }
    if is_alone(words, "worlds") {
        return Some(Command::Worlds);
    }
    if let Some(reading) = explained_after(words, "explain") {
        return Some(Command::Explain(reading));
    }
    match page_of(words) {
        Some(page) => Some(Command::Draw { page }),
        None => None,
    }
}
