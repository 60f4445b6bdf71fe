//! A judge at the end of a history, and the place at which lines are none any more.

ghost use Rattle.std.specs.Prelude.{◌≡◌, ◌<◌, ◌^◌, length, reverse, IfOk};
ghost use Rattle.marked_history.specs.Verdicts.{AreHistory, LinesFit, marks_of};
ghost use Rattle.history_check.specs.Judging.{HasCome, IsJudge};
ghost use Rattle.history_check.specs.Findings.{IsFinding};

use crate::judge::{Judge, begin, take_line};
use marked_history::{Line, Mark, Said, Why};
use spk_nums::{Call, Make, Memory, Reply, Setup, Value};
use std::alloc::Global;

/// The judge after these lines, fewer than 2^32, for a machine of this setup, whose cores theirs are. Where they are a history, it has come
/// to the end of that. It fails only where memory runs out.
pub fn come_to(alloc: Global, setup: &Setup, lines: &[Line]) -> Result<Judge, Memory>
    requires fit { LinesFit setup.now.cores lines.now }
    requires few { length lines.now < 2 ^ 32 }
    ensures judge { IfOk result IsJudge }
    ensures come { IfOk result (λ j. AreHistory setup.now (reverse lines.now) → HasCome setup.now (marks_of (reverse lines.now)) j) }
{
    // The check asks for the limits of the setup where they are read.
    let _limits = setup.cores();
    let mut judge = begin(alloc, setup)?;
    'lines: for line in lines {
        let _ = take_line(alloc, &mut judge, &line.said)?;
    }
    Ok(judge)
}

/// What is found of lines.
#[derive(Clone, Copy, PartialEq, Eq, Debug)]
pub enum Finding {
    /// They are a history, and decide so many calls.
    Legal { decided: u32 },
    /// The line after so many is the first that no history goes on with, and why.
    Broken { at: usize, why: Why },
}

/// The verdict on these lines, as `verdict` has it, with the place of the line in place of its number.
pub fn find_break(alloc: Global, setup: &Setup, lines: &[Line]) -> Result<Finding, Memory>
    requires fit { LinesFit setup.now.cores lines.now }
    requires few { length lines.now < 2 ^ 32 }
    ensures { IfOk result (IsFinding setup.now lines.now) }
{
    // The check asks for the limits of the setup where they are read.
    let _limits = setup.cores();
    let mut judge = begin(alloc, setup)?;
    let mut at = 0;
    'lines: for line in lines {
        let found = take_line(alloc, &mut judge, &line.said)?;
        match found {
            Some(why) => {
                return Ok(Finding::Broken { at, why });
            }
            None => {}
        }
        at += 1;
    }
    Ok(Finding::Legal {
        decided: judge.decided,
    })
}
