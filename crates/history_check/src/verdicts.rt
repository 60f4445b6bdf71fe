//! The verdict.

ghost use Rattle.std.specs.Prelude.{◌≡◌, ◌<◌, ◌^◌, length, IfOk};
ghost use Rattle.marked_history.specs.Verdicts.{LinesFit, IsVerdict};

use crate::judge::{begin, take_line};
use marked_history::{Line, Mark, Said, Verdict};
use spk_nums::{Call, Make, Memory, Reply, Setup, Value};
use std::alloc::Global;

/// The verdict on the lines of a given history, fewer than 2^32, for a machine of this setup, whose cores theirs are: legal, with the
/// number of calls decided; or the first line that no history goes on with, and why. It fails only where memory runs out.
pub fn verdict(alloc: Global, setup: &Setup, lines: &[Line]) -> Result<Verdict, Memory>
    requires fit { LinesFit setup.now.cores lines.now }
    requires few { length lines.now < 2 ^ 32 }
    ensures { IfOk result (λ v. IsVerdict setup.now lines.now v) }
{
    // The check asks for the limits of the setup where they are read.
    let _limits = setup.cores();
    let mut judge = begin(alloc, setup)?;
    'lines: for line in lines {
        let found = take_line(alloc, &mut judge, &line.said)?;
        match found {
            Some(why) => {
                return Ok(Verdict::Illegal {
                    line: line.number,
                    why,
                });
            }
            None => {}
        }
    }
    Ok(Verdict::Legal {
        decided: judge.decided,
    })
}
