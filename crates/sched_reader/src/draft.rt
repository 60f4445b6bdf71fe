//! What the lines so far say.

ghost use Rattle.std.specs.Prelude.{◌≡◌, ◌≤◌, ◌<◌, ◌^◌, [], length, All, None, Some, IfOk, OnOk, IsSome, is_some, true, false};
ghost use Rattle.line_reader.specs.Arguments.{texts};
ghost use Rattle.line_reader.specs.Lines.{Leads, Gives};
ghost use Rattle.line_reader.specs.declared.cause.ReadFault.TheVariants as read_fault;
ghost use Rattle.script_reader.specs.Heads.{is_whole};
ghost use Rattle.sched_rules.specs.Schedule.{TaskFits, RuleFits};
ghost use Rattle.sched_reader.specs.Inputs.{draft_seen, no_input, noted, first_line, script_line};
ghost use Rattle.sched_reader.specs.Inputs.{script_end, unfit, sched_line, task_line_of};
ghost use Rattle.sched_reader.specs.Inputs.{unless, IsInput};

use crate::lines::{begins, rule_at, task_line};
use line_reader::{Cause, Lines, ReadFault, fault_at};
use sched_rules::{Rule, Task};
use script_reader::Draft;
use script_tokens::Token;
use spk_nums::Make;
use std::alloc::{AllocError, Global};

/// The most tasks of a schedule.
pub const MOST_TASKS: usize = 32;

/// The script so far, the line of its `cores` line and that of its first `tick`, if they have come; from the line `sched` on its rule, and
/// the tasks so far.
#[derive(Drop)]
pub struct SchedDraft {
    pub script: Draft,
    pub cores_at: u32,
    pub tick_at: Option<u32>,
    pub rule: Option<Rule>,
    pub tasks: Vec<Task>,
}

/// What no lines say.
pub fn no_input(alloc: Global) -> Result<SchedDraft, AllocError>
    ensures value { IfOk result (λ d. draft_seen d ≡ no_input) }
    ensures input { IfOk result (λ d. IsInput (draft_seen d)) }
{
    Ok(SchedDraft {
        script: Draft::new(alloc)?,
        cores_at: 0,
        tick_at: None,
        rule: None,
        tasks: Vec::new(alloc),
    })
}

// The line of the first of two.
fn first_line(so_far: Option<u32>, line: u32) -> Option<u32>
    ensures { result ≡ first_line so_far line }
{
    match so_far {
        None => Some(line),
        Some(first) => Some(first),
    }
}

// Keeps the `cores` line and the first `tick` in mind.
fn note(draft: &mut SchedDraft, line: u32, words: &[Token])
    ensures value { draft_seen draft.new ≡ noted (draft_seen draft.old) line (texts words.now) }
{
    // As in the reader of scripts.
    let _made: Option<Make> = None;
    if begins(words, "cores") {
        draft.cores_at = line;
    } else if begins(words, "tick") {
        draft.tick_at = first_line(draft.tick_at, line);
    }
}

// Takes a line of the script.
#[tactic(auto, unfolding(crate::specs::Inputs::script_line))]
fn take_script_line(draft: &mut SchedDraft, line: u32, words: &[Token]) -> Result<(), ReadFault>
    requires input { IsInput (draft_seen draft.old) }
    requires section { draft.old.rule ≡ None }
    ensures value { Leads result (draft_seen draft.new) (script_line (draft_seen draft.old) line (texts words.now)) }
    ensures input { OnOk result (IsInput (draft_seen draft.new)) }
{
    if let Err(fault) = draft.script.take(words) {
        return Err(fault_at(line, fault));
    }
    note(draft, line, words);
    Ok(())
}

// A script that may end can be scheduled: it has one core, and no `tick`.
fn judge_fit(draft: &SchedDraft) -> Result<(), ReadFault>
    requires { IsInput (draft_seen draft.now) }
    ensures value { Gives (λ done. done) result (unless (unfit (draft_seen draft.now))) }
    ensures one_core { OnOk result ((draft_seen draft.now).script.head.cores ≡ 1) }
{
    if draft.script.cores() != 1 {
        return Err(ReadFault::Script {
            line: draft.cores_at,
            cause: Cause::S5,
        });
    }
    match draft.tick_at {
        None => Ok(()),
        Some(line) => Err(ReadFault::Script {
            line,
            cause: Cause::S7,
        }),
    }
}

/// Ends the script before this line: it may end there, has one core, and no `tick`.
pub fn script_end(draft: &SchedDraft, line: u32) -> Result<(), ReadFault>
    requires { IsInput (draft_seen draft.now) }
    ensures value { Gives (λ done. done) result (script_end (draft_seen draft.now) line) }
    ensures whole { OnOk result (is_whole (draft_seen draft.now).script.head.section ≡ true) }
    ensures one_core { OnOk result ((draft_seen draft.now).script.head.cores ≡ 1) }
{
    if draft.script.is_whole() {
        judge_fit(draft)
    } else {
        Err(ReadFault::Script {
            line,
            cause: Cause::S7,
        })
    }
}

// Takes the line `sched`.
#[tactic(auto, unfolding(crate::specs::Inputs::sched_line))]
fn take_sched_line(draft: &mut SchedDraft, line: u32, words: &[Token]) -> Result<(), ReadFault>
    requires input { IsInput (draft_seen draft.old) }
    requires section { draft.old.rule ≡ None }
    ensures value { Leads result (draft_seen draft.new) (sched_line (draft_seen draft.old) line (texts words.now)) }
    ensures input { OnOk result (IsInput (draft_seen draft.new)) }
{
    script_end(draft, line)?;
    match rule_at(words) {
        Ok(rule) => {
            draft.rule = Some(rule);
            Ok(())
        }
        Err(cause) => Err(ReadFault::Script { line, cause }),
    }
}

// Takes the line of a task.
fn take_task_line(draft: &mut SchedDraft, line: u32, words: &[Token]) -> Result<(), ReadFault>
    requires input { IsInput (draft_seen draft.old) }
    ensures value { Leads result (draft_seen draft.new) (task_line_of (draft_seen draft.old) line (texts words.now)) }
    ensures input { OnOk result (IsInput (draft_seen draft.new)) }
{
    match task_line(draft.script.version(), words) {
        Ok(task) => {
            if draft.tasks.len() == MOST_TASKS {
                return Err(ReadFault::Script {
                    line,
                    cause: Cause::S9,
                });
            }
            match draft.tasks.push(task) {
                Ok(()) => Ok(()),
                Err(_) => Err(ReadFault::Memory),
            }
        }
        Err(cause) => Err(ReadFault::Script { line, cause }),
    }
}

impl Lines for SchedDraft {
    ghost use Rattle.sched_reader.specs.Inputs.{Sched_draft, draft_seen, line_behind, IsInput};

    ghost Said = { Sched_draft };

    ghost said = { draft_seen };

    ghost Kept = { IsInput };

    ghost step = { line_behind };

    fn take_line(&mut self, line: u32, words: &[Token]) -> Result<(), ReadFault> {
        if self.rule.is_some() {
            take_task_line(self, line, words)
        } else if begins(words, "sched") {
            take_sched_line(self, line, words)
        } else {
            take_script_line(self, line, words)
        }
    }
}
