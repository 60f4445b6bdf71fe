//! The lines of endpoint calls.

ghost use Rattle.std.specs.Prelude.{◌≡◌, ◌++◌, ◌<◌, ◌^◌, OnOk, length, string_bytes};
ghost use Rattle.ends_text.specs.Lines.{op_word, answer_text, call_text, done_line, done_lines};

use async_ends::{EndDone, EndOp, EndReply};
use spk_nums::{CapId, CoreNo};
use std::alloc::AllocError;

fn op_word(op: EndOp) -> &'static str
    ensures { result.now ≡ op_word op }
{
    match op {
        EndOp::Send => "send",
        EndOp::Recv => "recv",
    }
}

fn push_answer(text: &mut String, answer: &EndReply) -> Result<(), AllocError>
    ensures { OnOk result (string_bytes text.new ≡ string_bytes text.old ++ answer_text answer.now) }
{
    match answer {
        EndReply::Sent => text.push_str("ok"),
        EndReply::Taken(count) => write!(text, "ok {count}"),
        EndReply::Raced => text.push_str("raced"),
        EndReply::Refused(refusal) => write!(text, "{refusal}"),
    }
}

// Appends a call as its line begins.
fn push_call(
    text: &mut String,
    core: CoreNo,
    index: u32,
    word: &str,
    number: CapId,
) -> Result<(), AllocError>
    ensures { OnOk result (string_bytes text.new ≡ string_bytes text.old ++ call_text core index word.now number) }
{
    write!(text, "{core}.{index} {word} {number} = ")
}

// Appends the line of a call: the core, `.`, its index among the core's endpoint calls, from 1, the call, ` = `, and what it
// was answered.
fn push_done(text: &mut String, core: CoreNo, index: u32, done: &EndDone) -> Result<(), AllocError>
    ensures { OnOk result (string_bytes text.new ≡ string_bytes text.old ++ done_line core index done.now) }
{
    let word = op_word(done.ask.op);
    push_call(text, core, index, word, done.ask.number)?;
    push_answer(text, &done.answer)?;
    text.push_str("\n")?;
    Ok(())
}

/// Appends the lines of a core's endpoint calls, in order, numbered from 1. They are fewer than 2^32.
pub fn push_done_lines(text: &mut String, core: CoreNo, done: &[EndDone]) -> Result<(), AllocError>
    requires { length done.now < 2 ^ 32 }
    ensures { OnOk result (string_bytes text.new ≡ string_bytes text.old ++ done_lines core 1 done.now) }
{
    for at in 0..done.len() {
        push_done(text, core, at as u32 + 1, &done[at])?;
    }
    Ok(())
}
