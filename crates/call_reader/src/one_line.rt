//! Reads one call by itself.

ghost use Rattle.std.specs.Prelude.{◌≡◌, ◌<◌, ◌^◌, length, IfOk};
ghost use Rattle.spk_nums.specs.CallLimits.{InLimits};
ghost use Rattle.script_tokens.specs.Words.{words_of, FewLines};
ghost use Rattle.line_reader.specs.Arguments.{texts};
ghost use Rattle.call_reader.specs.OneLine.{verb_at, call_at, call_by, call_of, IsCallOf};

use crate::call_lines::call_line;
use crate::first_words::{FirstWord, first_word};
use line_reader::{Cause, LineFault, word_at};
use script_tokens::{ByteFault, Ending, Scanned, Token, scan};
use spk_nums::{Call, Make, Verb};
use std::alloc::Global;

/// The word of a call that these words begin with in a script of this version: S3 where there is none, S2 of an unknown first word, S7 of
/// one that is no call's.
#[tactic(auto, unfolding(crate::specs::OneLine::verb_at))]
pub fn verb_at(words: &[Token], version: u8) -> Result<Verb, Cause>
    ensures { result ≡ verb_at version (texts words.now) }
{
    let word = word_at(words, 0)?;
    match first_word(word, version) {
        Some(FirstWord::Call(verb)) => Ok(verb),
        Some(_) => Err(Cause::S7),
        None => Err(Cause::S2),
    }
}

// The call of a line with these words.
#[tactic(auto, unfolding(crate::specs::OneLine::call_at))]
fn call_at(words: &[Token]) -> Result<Call, Cause>
    ensures value { result ≡ call_at (texts words.now) }
    ensures range { IfOk result InLimits }
{
    let verb = verb_at(words, 3)?;
    call_line(words, verb, 3)
}

// The call of bytes with these words, which end so.
fn call_by(words: &[Token], ending: Ending) -> Result<Call, Cause>
    ensures value { result ≡ call_by (texts words.now) ending }
    ensures range { IfOk result InLimits }
{
    match ending {
        Ending::Fault(ByteFault::NotAscii { line: _ }) => Err(Cause::S8),
        Ending::Fault(ByteFault::TooManyLines) => Err(Cause::S9),
        Ending::Whole { lines } => {
            if 1 < lines {
                Err(Cause::S9)
            } else {
                call_at(words)
            }
        }
    }
}

/// Reads one call, as a line of a script of version 3 has it: its word, then its arguments. Blanks and a comment may stand round it,
/// and a line feed at its end. Fewer than 2^32 bytes.
///
/// # Errors
///
/// `Cause` where the bytes are no such line, with the first fault: S8 of a byte that may not stand there, S9 where there
/// is more than one line, S3 where there is no word, S2 of an unknown first word, S7 of one that is no call's; then the
/// arguments are judged from left to right. `Memory` where memory has run out.
#[tactic(auto, using(crate::proofs::OneLine::called_by))]
pub fn read_call(alloc: Global, line: &[u8]) -> Result<Call, LineFault>
    requires { length line.now < 2 ^ 32 }
    ensures value { IsCallOf line.now result }
    ensures range { IfOk result InLimits }
{
    let _made: Option<Make> = None;
    let Ok(Scanned { words, ending }) = scan(alloc, line) else {
        return Err(LineFault::Memory);
    };
    match call_by(&words, ending) {
        Ok(call) => Ok(call),
        Err(cause) => Err(LineFault::Cause(cause)),
    }
}
