//! Turns, and how they are written.

ghost use Rattle.std.specs.Prelude.{Some};
ghost use Rattle.sched_rules.specs.Texts.{turn_text};

use kernel_rules::spk_nums::Reply;
use std::fmt;

/// A turn of a schedule. Tasks count from 1; times are ticks since the schedule began.
#[derive(Clone, Copy, PartialEq, Eq, Debug)]
pub enum Turn {
    /// From this time on the task ran for so many ticks.
    Ran { at: u64, task: u32, ticks: u32 },
    /// From this time on nothing ran for so many ticks.
    Idle { at: u64, ticks: u64 },
    /// At this time a further job of the task arrived, and so many ticks were given back to its temporal capability.
    Back { at: u64, task: u32, ticks: u32 },
    /// At this time the `switch`, the `tick` or the `replenish` for the task was refused with this reply, and the task is out.
    Refused { at: u64, task: u32, reply: Reply },
}

/// A turn as `at 5 task 1 ran 10`, `at 5 idle 10`, `at 20 task 1 back 10` or `at 5 task 1 refused running 0`.
impl fmt::Display for Turn {
    ghost output = { λ turn. Some (turn_text turn) };

    fn fmt<W: fmt::Write>(&self, f: &mut fmt::Formatter<W>) -> fmt::Result {
        match self {
            Turn::Ran { at, task, ticks } => write!(f, "at {at} task {task} ran {ticks}"),
            Turn::Idle { at, ticks } => write!(f, "at {at} idle {ticks}"),
            Turn::Back { at, task, ticks } => write!(f, "at {at} task {task} back {ticks}"),
            Turn::Refused { at, task, reply } => write!(f, "at {at} task {task} refused {reply}"),
        }
    }
}
