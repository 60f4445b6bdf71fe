//! The text of a schedule: a line for each turn, then a line for each task with the ticks that it ran and the work left.
//!
//! See docs/FORMATS.md, 'Tasks'.
#![tactic(auto)]

ghost use Rattle.std.specs.Prelude.{◌≡◌, ◌<◌, ◌≤◌, ◌+◌, ◌-◌, ◌∷◌, ◌++◌, ◌^◌, [], IfOk, OnOk, string_bytes, length};
ghost use Rattle.sched_rules.specs.Texts.{ran_in, ran_by, come_in, come_by, work_by, turn_lines, task_line, task_lines};
ghost use Rattle.sched_rules.specs.Texts.{turn_text, schedule_text};
ghost use Rattle.sched_text.specs.Fitting.{RunsFit};

use sched_rules::{Task, Turn};
use std::alloc::{AllocError, Global};

// The ticks that a task ran in a turn.
fn ran_in(task: u32, turn: &Turn) -> u64
    ensures { result ≡ ran_in task turn.now }
{
    match turn {
        Turn::Ran {
            at: _,
            task: ran,
            ticks,
        } => { if *ran == task { u64::from(*ticks) } else { 0 } }
        Turn::Idle { .. } => 0,
        Turn::Back { .. } => 0,
        Turn::Refused { .. } => 0,
    }
}

// The ticks that a task ran in these turns.
fn ran_by(task: u32, turns: &[Turn]) -> u64
    requires { ran_by task turns.now < 2 ^ 64 }
    ensures { result ≡ ran_by task turns.now }
{
    let mut ran = 0;
    let mut index = turns.len();
    'turns: while 0 < index {
        index -= 1;
        ran += ran_in(task, &turns[index]);
    }
    ran
}

// The further jobs of a task that arrived in a turn.
fn come_in(task: u32, turn: &Turn) -> u64
    ensures { result ≡ come_in task turn.now }
{
    match turn {
        Turn::Back {
            at: _,
            task: come,
            ticks: _,
        } => { if *come == task { 1 } else { 0 } }
        Turn::Ran { .. } => 0,
        Turn::Idle { .. } => 0,
        Turn::Refused { .. } => 0,
    }
}

// The further jobs of a task that arrived in these turns.
fn come_by(task: u32, turns: &[Turn]) -> u64
    ensures { result ≡ come_by task turns.now }
{
    let mut come = 0;
    let mut index = turns.len();
    'turns: while 0 < index {
        index -= 1;
        come += come_in(task, &turns[index]);
    }
    come
}

// The work of all jobs of a task that arrived by these turns.
fn work_by(number: u32, turns: &[Turn], task: &Task) -> u64
    requires { work_by number turns.now task.now < 2 ^ 64 }
    ensures { result ≡ work_by number turns.now task.now }
{
    let work = u64::from(task.work);
    come_by(number, turns) * work + work
}

// Appends a line for each turn.
fn push_turns(text: &mut String, turns: &[Turn]) -> Result<(), AllocError>
    ensures { OnOk result (string_bytes text.new ≡ string_bytes text.old ++ turn_lines turns.now) }
{
    'turns: for turn in turns {
        writeln!(text, "{turn}")?;
    }
    Ok(())
}

// Appends the line of a task.
fn push_task(text: &mut String, number: u32, ran: u64, work: u64) -> Result<(), AllocError>
    ensures { OnOk result (string_bytes text.new ≡ string_bytes text.old ++ task_line number ran work) }
{
    let left = work.saturating_sub(ran);
    writeln!(text, "task {number} ran {ran} left {left}")
}

// Appends the lines of all tasks.
fn push_tasks(text: &mut String, turns: &[Turn], tasks: &[Task]) -> Result<(), AllocError>
    requires few { length tasks.now ≤ 32 }
    requires fit { RunsFit turns.now tasks.now }
    ensures { OnOk result (string_bytes text.new ≡ string_bytes text.old ++ task_lines turns.now 1 tasks.now) }
{
    let mut number: u32 = 0;
    'tasks: for task in tasks {
        number += 1;
        let ran = ran_by(number, turns);
        let work = work_by(number, turns, task);
        push_task(text, number, ran, work)?;
    }
    Ok(())
}

/// The text of the turns of at most 32 tasks, none of which ran, or was to run, for 2^64 ticks or more.
#[tactic(auto, unfolding(sched_rules::specs::Texts::schedule_text))]
pub fn schedule_text(alloc: Global, turns: &[Turn], tasks: &[Task]) -> Result<String, AllocError>
    requires few { length tasks.now ≤ 32 }
    requires fit { RunsFit turns.now tasks.now }
    ensures { IfOk result (λ text. string_bytes text ≡ schedule_text turns.now tasks.now) }
{
    let mut text = String::new(alloc);
    push_turns(&mut text, turns)?;
    push_tasks(&mut text, turns, tasks)?;
    Ok(text)
}
