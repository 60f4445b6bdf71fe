//! From the bytes of the input to the text of the verdict, or to the first fault.

ghost use Rattle.std.specs.Prelude.{◌≡◌, ◌<◌, ◌^◌, ◌++◌, length, IfOk, IfErr, string_bytes};
ghost use Rattle.history_reader.specs.Inputs.{history_view};
ghost use Rattle.check_run.specs.Texts.{why_word, illegal_text, verdict_text};
ghost use Rattle.check_run.specs.Checked.{IsChecked, IsCheckFault};

use history_check::verdict;
use history_reader::read_history;
use line_reader::ReadFault;
use marked_history::{Line, Mark, Said, Verdict, Why};
use spk_nums::{Call, Make, Reply, Value};
use std::alloc::{AllocError, Global};

fn why_word(why: Why) -> &'static str
    ensures { result.now ≡ why_word why }
{
    match why {
        Why::Marks => "marks",
        Why::Race => "race",
        Why::Reply => "reply",
    }
}

// The text that names the first line with which no history goes on, and why.
fn illegal_text(alloc: Global, line: u32, word: &str) -> Result<String, AllocError>
    ensures { IfOk result (λ text. string_bytes text ≡ illegal_text line word.now) }
{
    let mut text = format!(in alloc; "illegal line {line}: ")?;
    text.push_str(word)?;
    text.push('\n')?;
    Ok(text)
}

/// The text of a verdict. It fails only where memory runs out.
pub fn verdict_text(alloc: Global, verdict: Verdict) -> Result<String, AllocError>
    ensures { IfOk result (λ text. string_bytes text ≡ verdict_text verdict) }
{
    match verdict {
        Verdict::Legal { decided } => format!(in alloc; "legal {decided}\n"),
        Verdict::Illegal { line, why } => illegal_text(alloc, line, why_word(why)),
    }
}

/// The text of the verdict on the given history that bytes are, fewer than 2^32.
///
/// # Errors
///
/// `Script` where they are no given history, with their first fault (`history_reader`), whatever the verdict on the lines before it would
/// be; `Memory` where memory has run out.
pub fn check(alloc: Global, source: &[u8]) -> Result<String, ReadFault>
    requires { length source.now < 2 ^ 32 }
    ensures checked { IfOk result (λ text. IsChecked source.now (string_bytes text)) }
    ensures fault { IfErr result (IsCheckFault source.now) }
{
    let history = read_history(alloc, source)?;
    match verdict(alloc, &history.setup, &history.lines) {
        Ok(found) => Ok(verdict_text(alloc, found)?),
        Err(_) => Err(ReadFault::Memory),
    }
}
