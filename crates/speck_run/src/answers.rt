//! A status, and the text that is due with it.

ghost use Rattle.std.specs.Prelude.{◌≡◌, IfOk, string_bytes};
ghost use Rattle.speck_run.specs.Top.{script_line};

use crate::top::Status;
use load_maker::script_reader::Cause;
use spk_nums::Memory;
use std::alloc::Global;

/// A status, and the text that is due with it.
#[derive(Drop)]
pub struct Answer {
    pub status: Status,
    pub text: String,
}

/// A status whose line this is. It fails only where memory runs out.
pub fn line(alloc: Global, status: Status, text: &str) -> Result<Answer, Memory>
    ensures status { IfOk result (λ answer. answer.status ≡ status) }
    ensures text { IfOk result (λ answer. string_bytes answer.text ≡ text.now) }
{
    let text = String::from_str(alloc, text)?;
    Ok(Answer { status, text })
}

/// The answer to bytes that are none that the command takes. It fails only where memory runs out.
pub fn refuse(alloc: Global, line: u32, cause: Cause) -> Result<Answer, Memory>
    ensures status { IfOk result (λ answer. answer.status ≡ Status.Script line cause) }
    ensures text { IfOk result (λ answer. string_bytes answer.text ≡ script_line line cause) }
{
    let text = format!(in alloc; "line {line}: {cause}\n")?;
    Ok(Answer {
        status: Status::Script { line, cause },
        text,
    })
}

/// The answer to a command that is carried out, and that makes this text.
pub fn made(text: String) -> Answer
    ensures status { result.status ≡ Status.Done }
    ensures text { string_bytes result.text ≡ string_bytes text }
{
    Answer {
        status: Status::Done,
        text,
    }
}
