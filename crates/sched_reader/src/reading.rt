//! Reads a script and the tasks after it.

ghost use Rattle.std.specs.Prelude.{◌<◌, ◌^◌, length, IfOk};
ghost use Rattle.script_tokens.specs.Words.{FewLines};
ghost use Rattle.line_reader.specs.Lines.{Gives};
ghost use Rattle.sched_reader.specs.Inputs.{draft_seen, input_at, input_of, input_view, IsInput, IsSchedInput};

use crate::draft::{SchedDraft, no_input, script_end};
use line_reader::{Cause, ReadFault, read_lines, whole_lines};
use sched_rules::{Rule, Task};
use script_reader::Script;
use script_tokens::Ending;
use std::alloc::Global;

/// A script of one core that has no `tick`, the rule of a scheduler, and at most 32 tasks.
#[derive(Debug, Drop)]
pub struct SchedInput {
    pub script: Script,
    pub rule: Rule,
    pub tasks: Vec<Task>,
}

// Ends the lines.
fn finish(draft: SchedDraft, ending: Ending) -> Result<SchedInput, ReadFault>
    requires input { IsInput (draft_seen draft) }
    requires lines { FewLines ending }
    ensures value { Gives input_view result (input_at (draft_seen draft) ending) }
    ensures input { IfOk result IsSchedInput }
{
    let lines = whole_lines(ending)?;
    let Some(rule) = draft.rule else {
        script_end(&draft, lines + 1)?;
        return Err(ReadFault::Script {
            line: lines + 1,
            cause: Cause::S7,
        });
    };
    let SchedDraft { script, tasks, .. } = draft;
    let script = script.end(Ending::Whole { lines })?;
    Ok(SchedInput {
        script,
        rule,
        tasks,
    })
}

// Reads the lines, and ends them.
#[tactic(auto, unfolding(crate::specs::Inputs::input_of))]
fn read_words(alloc: Global, source: &[u8]) -> Result<SchedInput, ReadFault>
    requires { length source.now < 2 ^ 32 }
    ensures value { Gives input_view result (input_of source.now) }
    ensures input { IfOk result IsSchedInput }
{
    let mut draft = no_input(alloc)?;
    let ending = read_lines(alloc, &mut draft, source)?;
    finish(draft, ending)
}

/// Reads a script and the tasks after it, of fewer than 2^32 bytes.
///
/// # Errors
///
/// `Script` where the bytes are no such text, with their first fault. The script is what stands before the first line whose first word
/// is `sched`; its own faults come first, as those of `script_reader`, and S7 where it may not end there is that line's. Where it is a
/// script, another number of cores than 1 is S5 at its `cores` line, and a `tick` S7 at the first such line. Where there is no line
/// `sched`, the line after the last is S7. After it, a first word other than `task` is S2, and task 33 is S9. `Memory` where memory has
/// run out.
pub fn read_sched(alloc: Global, source: &[u8]) -> Result<SchedInput, ReadFault>
    requires { length source.now < 2 ^ 32 }
    // What is read is what the bytes say, or their first fault.
    ensures value { Gives input_view result (input_of source.now) }
    ensures input { IfOk result IsSchedInput }
{
    read_words(alloc, source)
}
