//! From the bytes of the input to what is told of it.

ghost use Rattle.std.specs.Prelude.{◌≡◌, ◌<◌, ◌^◌, length, IfOk, string_bytes};
ghost use Rattle.line_forms.specs.declared.context.Reading.TheVariants as reading;
ghost use Rattle.history_options.specs.history_reader.specs.Inputs.{history_view};
ghost use Rattle.history_options.specs.marked_history.specs.Verdicts.{LinesFit};
ghost use Rattle.explain_run.specs.Explained.{accepted_text, IsToldOf, IsExplained};

use ends_reader::read_ends;
use ends_reader::script_reader::read;
use fault_texts::explain_fault;
use history_options::history_reader::{GivenHistory, read_history};
use history_options::told;
use line_forms::Reading;
use line_reader::ReadFault;
use sched_reader::read_sched;
use std::alloc::{AllocError, Global};

// The line that tells that the bytes are read.
fn accepted(alloc: Global, reading: Reading) -> Result<String, AllocError>
    ensures { IfOk result (λ text. string_bytes text ≡ accepted_text reading) }
{
    String::from_str(
        alloc,
        match reading {
            Reading::Script => "accepted: a script\n",
            Reading::Ends => "accepted: a script with endpoint calls\n",
            Reading::Sched => "accepted: a script of one core with tasks\n",
            Reading::History => "accepted: a given history\n",
        },
    )
}

fn explain_script(alloc: Global, source: &[u8]) -> Result<String, AllocError>
    requires { length source.now < 2 ^ 32 }
    ensures { IfOk result (λ text. IsExplained reading.Script source.now (string_bytes text)) }
{
    match read(alloc, source) {
        Ok(_script) => accepted(alloc, Reading::Script),
        Err(ReadFault::Memory) => Err(AllocError),
        Err(ReadFault::Script { line, cause }) => {
            explain_fault(alloc, Reading::Script, source, line, cause)
        }
    }
}

fn explain_ends(alloc: Global, source: &[u8]) -> Result<String, AllocError>
    requires { length source.now < 2 ^ 32 }
    ensures { IfOk result (λ text. IsExplained reading.Ends source.now (string_bytes text)) }
{
    match read_ends(alloc, source) {
        Ok(_input) => accepted(alloc, Reading::Ends),
        Err(ReadFault::Memory) => Err(AllocError),
        Err(ReadFault::Script { line, cause }) => {
            explain_fault(alloc, Reading::Ends, source, line, cause)
        }
    }
}

fn explain_sched(alloc: Global, source: &[u8]) -> Result<String, AllocError>
    requires { length source.now < 2 ^ 32 }
    ensures { IfOk result (λ text. IsExplained reading.Sched source.now (string_bytes text)) }
{
    match read_sched(alloc, source) {
        Ok(_input) => accepted(alloc, Reading::Sched),
        Err(ReadFault::Memory) => Err(AllocError),
        Err(ReadFault::Script { line, cause }) => {
            explain_fault(alloc, Reading::Sched, source, line, cause)
        }
    }
}

// What is told of a given history.
fn tell_history(alloc: Global, history: &GivenHistory) -> Result<String, AllocError>
    requires fit { LinesFit history.now.setup.cores history.now.lines.items }
    requires few { length history.now.lines.items < 2 ^ 32 }
    ensures { IfOk result (λ text. IsToldOf (history_view history.now) (string_bytes text)) }
{
    match told(alloc, &history.setup, &history.lines) {
        Ok(text) => Ok(text),
        Err(_) => Err(AllocError),
    }
}

fn explain_history(alloc: Global, source: &[u8]) -> Result<String, AllocError>
    requires { length source.now < 2 ^ 32 }
    ensures { IfOk result (λ text. IsExplained reading.History source.now (string_bytes text)) }
{
    match read_history(alloc, source) {
        Ok(history) => tell_history(alloc, &history),
        Err(ReadFault::Memory) => Err(AllocError),
        Err(ReadFault::Script { line, cause }) => {
            explain_fault(alloc, Reading::History, source, line, cause)
        }
    }
}

/// What is told of fewer than 2^32 bytes that a command would read: that they are read, or of their first fault what to do; of a given
/// history the verdict, and of an illegal one what may stand where it breaks. It fails only where memory runs out.
pub fn explain(alloc: Global, reading: Reading, source: &[u8]) -> Result<String, AllocError>
    requires { length source.now < 2 ^ 32 }
    ensures { IfOk result (λ text. IsExplained reading source.now (string_bytes text)) }
{
    match reading {
        Reading::Script => explain_script(alloc, source),
        Reading::Ends => explain_ends(alloc, source),
        Reading::Sched => explain_sched(alloc, source),
        Reading::History => explain_history(alloc, source),
    }
}
