//! All that is told of a given history.

ghost use Rattle.std.specs.Prelude.{◌≡◌, ◌<◌, ◌≤◌, ◌+◌, ◌^◌, length, take, get_or, reverse, IfOk, string_bytes};
ghost use Rattle.marked_history.specs.Verdicts.{AreHistory, LinesFit, SaidFits};
ghost use Rattle.history_options.specs.Told.{IsHistoryTold, TellsBreak};

use crate::advice::push_advice;
use crate::texts::push_said;
use check_run::history_check::{Finding, find_break};
use check_run::verdict_text;
use marked_history::{Line, Mark, Said, Verdict, Why};
use spk_nums::{Call, Make, Memory, Reply, Setup, Value};
use std::alloc::Global;

// The lines before a place.
#[tactic(auto, using(crate::proofs::Places::few_before))]
fn before_at(lines: &[Line], at: usize) -> &[Line]
    requires { at < length lines.now }
    ensures value { result.now ≡ take at lines.now }
    ensures few { length result.now + 1 ≤ length lines.now }
{
    &lines[..at]
}

// The line at a place.
fn line_at(lines: &[Line], at: usize) -> &Line
    requires { at < length lines.now }
    ensures { result.now ≡ get_or lines.now at result.now }
{
    &lines[at]
}

// What is told of a line after these, which are a history, with which none goes on.
#[tactic(auto, using(crate::proofs::Places::break_so))]
fn break_text(
    alloc: Global,
    setup: &Setup,
    before: &[Line],
    line: &Line,
    why: Why,
) -> Result<String, Memory>
    requires few { length before.now + 1 < 2 ^ 32 }
    requires fit { LinesFit setup.now.cores before.now }
    requires said { SaidFits setup.now.cores line.now.said }
    requires history { AreHistory setup.now (reverse before.now) }
    ensures { IfOk result (λ text. TellsBreak setup.now before.now line.now why (string_bytes text)) }
{
    let mut text = verdict_text(
        alloc,
        Verdict::Illegal {
            line: line.number,
            why,
        },
    )?;
    push_said(&mut text, &line.said)?;
    push_advice(alloc, &mut text, setup, before, line)?;
    Ok(text)
}

/// What is told of the lines of a given history, fewer than 2^32, for a machine of this setup, whose cores theirs are: that they are legal,
/// with the number of calls decided; or the first line with which no history goes on, why, and what may stand there. It fails only where
/// memory runs out.
#[tactic(auto, using(crate::proofs::Places::fit_before, crate::proofs::Places::fit_there, crate::proofs::Places::history_before))]
pub fn told(alloc: Global, setup: &Setup, lines: &[Line]) -> Result<String, Memory>
    requires fit { LinesFit setup.now.cores lines.now }
    requires few { length lines.now < 2 ^ 32 }
    ensures { IfOk result (λ text. IsHistoryTold setup.now lines.now (string_bytes text)) }
{
    let _made: Option<Make> = None;
    let _value: Option<Value> = None;
    let finding = find_break(alloc, setup, lines)?;
    match finding {
        Finding::Legal { decided } => Ok(verdict_text(alloc, Verdict::Legal { decided })?),
        Finding::Broken { at, why } => {
            let before = before_at(lines, at);
            let line = line_at(lines, at);
            let text = break_text(alloc, setup, before, line, why)?;
            Ok(text)
        }
    }
}
