//! The line `sched`, the lines of tasks, and which lines of a script are kept in mind.

ghost use Rattle.std.specs.Prelude.{◌≡◌, ◌≤◌, IfOk, IfSome};
ghost use Rattle.line_reader.specs.Arguments.{texts, number_at};
ghost use Rattle.sched_rules.specs.Schedule.{PeriodFits, TaskFits, RuleFits};
ghost use Rattle.sched_reader.specs.Lines.{begins, rule_at, period_at, task_at, task_line};

use call_reader::capability_at;
use line_reader::{Cause, end_at, is_word, read_number};
use sched_rules::{Rule, Task};
use script_tokens::Token;

/// Whether a line's first word is this one.
pub fn begins(words: &[Token], name: &str) -> bool
    ensures { result ≡ begins (texts words.now) name.now }
{
    match words.first() {
        Some(word) => is_word(word.text, name),
        None => false,
    }
}

// The number at a place, from `least` to `most`.
#[tactic(auto, unfolding(line_reader::specs::Arguments::number_at, line_reader::specs::Arguments::word_at))]
fn number_at(words: &[Token], place: usize, least: u32, most: u32) -> Result<u32, Cause>
    ensures value { result ≡ number_at (texts words.now) place least most }
    ensures range { IfOk result (λ n. (least ≤ n) × (n ≤ most)) }
{
    let Some(word) = words.get(place) else {
        return Err(Cause::S3);
    };
    let Some(number) = read_number(word.text) else {
        return Err(Cause::S1);
    };
    if u64::from(least) <= number && number <= u64::from(most) {
        Ok(number as u32)
    } else {
        Err(Cause::S5)
    }
}

/// What the line `sched` says.
#[tactic(auto, unfolding(crate::specs::Lines::rule_at))]
pub fn rule_at(words: &[Token]) -> Result<Rule, Cause>
    ensures value { result ≡ rule_at (texts words.now) }
    ensures fits { IfOk result RuleFits }
{
    let sched = number_at(words, 1, 0, 63)? as u8;
    let quantum = number_at(words, 2, 1, 1_000_000)?;
    end_at(words, 3)?;
    Ok(Rule { sched, quantum })
}

// The period behind a task's work, from version 3 on, if one stands there; and nothing after it.
#[tactic(auto, unfolding(crate::specs::Lines::period_at))]
fn period_at(version: u8, words: &[Token]) -> Result<Option<u32>, Cause>
    ensures value { result ≡ period_at version (texts words.now) }
    ensures fits { IfOk result (λ period. IfSome period PeriodFits) }
{
    if 3 <= version && 5 < words.len() {
        let period = number_at(words, 5, 1, 1_000_000)?;
        end_at(words, 6)?;
        Ok(Some(period))
    } else {
        end_at(words, 5)?;
        Ok(None)
    }
}

// What the line of a task says.
#[tactic(auto, unfolding(crate::specs::Lines::task_at))]
fn task_at(version: u8, words: &[Token]) -> Result<Task, Cause>
    ensures value { result ≡ task_at version (texts words.now) }
    ensures fits { IfOk result TaskFits }
{
    let thread = capability_at(words, 1)?;
    let tcap = capability_at(words, 2)?;
    let arrival = number_at(words, 3, 0, 1_000_000)?;
    let work = number_at(words, 4, 1, 10_000)?;
    let period = period_at(version, words)?;
    Ok(Task {
        thread,
        tcap,
        arrival,
        work,
        period,
    })
}

/// What a line after the line `sched` says: its first word is judged for S2, then its arguments.
#[tactic(auto, unfolding(crate::specs::Lines::task_line))]
pub fn task_line(version: u8, words: &[Token]) -> Result<Task, Cause>
    ensures value { result ≡ task_line version (texts words.now) }
    ensures fits { IfOk result TaskFits }
{
    if begins(words, "task") {
        task_at(version, words)
    } else {
        Err(Cause::S2)
    }
}
