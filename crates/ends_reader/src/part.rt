//! The lines after the line `ends`.

ghost use Rattle.std.specs.Prelude.{◌≡◌, ◌≤◌, slice_get};
ghost use Rattle.std.specs.Option.{option_and_then};
ghost use Rattle.line_reader.specs.Arguments.{texts};
ghost use Rattle.ends_reader.specs.Parts.{begins_ends, part_word, core_in, ask_in};

use async_ends::{EndAsk, EndOp};
use call_reader::{capability_at, core_at};
use line_reader::{Cause, end_at, is_word};
use script_tokens::Token;
use spk_nums::CoreNo;

/// A known first word of these lines.
#[derive(Clone, Copy, Debug, PartialEq, Eq)]
pub enum PartWord {
    /// `core`: the core whose calls follow.
    Core,
    /// `send` or `recv`.
    Ask(EndOp),
}

/// Whether the line's first word is `ends`.
pub fn begins_ends(words: &[Token]) -> bool
    ensures { result ≡ begins_ends (texts words.now) }
{
    match words.first() {
        Some(word) => is_word(word.text, "ends"),
        None => false,
    }
}

#[tactic(auto, unfolding(crate::specs::Parts::part_word))]
fn part_word(word: &[u8]) -> Option<PartWord>
    ensures { result ≡ part_word word.now }
{
    if is_word(word, "core") {
        Some(PartWord::Core)
    } else if is_word(word, "send") {
        Some(PartWord::Ask(EndOp::Send))
    } else if is_word(word, "recv") {
        Some(PartWord::Ask(EndOp::Recv))
    } else {
        None
    }
}

/// The known first word of a line, if it has one.
pub fn first_of(words: &[Token]) -> Option<PartWord>
    ensures { result ≡ option_and_then part_word (slice_get (texts words.now) 0) }
{
    match words.first() {
        Some(word) => part_word(word.text),
        None => None,
    }
}

/// The core that a `core` line names, below the number of cores.
#[tactic(auto, unfolding(crate::specs::Parts::core_in))]
pub fn core_in(words: &[Token], cores: u8) -> Result<CoreNo, Cause>
    requires { cores ≤ 8 }
    ensures { result ≡ core_in (texts words.now) cores }
{
    let core = core_at(words, 1, cores)?;
    end_at(words, 2)?;
    Ok(core)
}

/// What a line with this word asks.
#[tactic(auto, unfolding(crate::specs::Parts::ask_in))]
pub fn ask_in(words: &[Token], op: EndOp) -> Result<EndAsk, Cause>
    ensures { result ≡ ask_in (texts words.now) op }
{
    let number = capability_at(words, 1)?;
    end_at(words, 2)?;
    Ok(EndAsk { op, number })
}
