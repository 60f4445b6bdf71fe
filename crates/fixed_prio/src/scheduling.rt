//! A schedule as a whole.

ghost use Rattle.std.specs.Prelude.{◌≡◌, ◌≤◌, length, All, IfOk};
ghost use Rattle.sched_rules.specs.Schedule.{TaskFits, RuleFits};
ghost use Rattle.fixed_prio.specs.Machines.{Beside};
ghost use Rattle.fixed_prio.specs.Courses.{HasScheduled};

use crate::course::begin;
use crate::machine::Machine;
use crate::turning::take_turn;
use plain_kernel::SeqKernel;
use sched_rules::{Rule, Task, Turn};
use spk_nums::Memory;
use std::alloc::Global;

/// Schedules at most 32 tasks on core 0 of the machine, from its present state on, and answers the turns. The plain kernel represents the
/// state after the machine's calls, before and after, also where memory runs out, which alone makes it fail.
pub fn schedule<M: Machine>(
    alloc: Global,
    m: &mut M,
    k: &mut SeqKernel,
    rule: &Rule,
    tasks: &[Task],
) -> Result<Vec<Turn>, Memory>
    requires beside { Beside (M.setup m.old) (M.made m.old) k.old }
    requires rule { RuleFits rule.now }
    requires tasks { All TaskFits tasks.now }
    requires few { length tasks.now ≤ 32 }
    ensures setup { M.setup m.new ≡ M.setup m.old }
    ensures beside { Beside (M.setup m.old) (M.made m.new) k.new }
    // The turns are the definitions', and the machine's calls are those of the turns.
    ensures turns { IfOk result (λ turns. HasScheduled (M.setup m.old) (M.made m.old) rule.now tasks.now turns.items (M.made m.new)) }
{
    let mut course = begin(alloc, tasks)?;
    let mut turns = Vec::new(alloc);
    'turns: while let Some(turn) = take_turn(alloc, m, k, rule, &mut course) {
        match turns.push(turn) {
            Ok(()) => {}
            Err(_) => return Err(Memory),
        }
    }
    Ok(turns)
}
