//! A script and its tasks, on the machine.

ghost use Rattle.std.specs.Prelude.{◌≡◌, ◌<◌, ◌^◌, length, IfOk, IfErr, string_bytes};
ghost use Rattle.one_core.specs.Scheduled.{IsSchedText};
ghost use Rattle.sched_run.specs.Made.{IsSchedFault};

use crate::machine::OneCore;
use sched_run::script_reader::ReadFault;
use sched_run::{Scheduled, sched};
use std::alloc::Global;

/// The text of the schedule that the input asks for, of fewer than 2^32 bytes, made on a machine of its setup: the script's calls, and then
/// those of the turns.
///
/// # Errors
///
/// `Script` where the input is no script of one core, without `tick`, with tasks after it, with its first fault (`sched_reader`); `Memory`
/// where memory has run out.
pub fn run_sched(alloc: Global, source: &[u8]) -> Result<String, ReadFault>
    requires { length source.now < 2 ^ 32 }
    ensures text { IfOk result (λ text. IsSchedText source.now (string_bytes text)) }
    ensures fault { IfErr result (IsSchedFault source.now) }
{
    let Scheduled { text, machine } = sched::<OneCore>(alloc, source)?;
    let _calls = machine.counted();
    Ok(text)
}
