//! Where a schedule has come to, and how a turn changes it.

ghost use Rattle.std.specs.Prelude.{◌≡◌, ◌<◌, ◌≤◌, ◌+◌, ◌-◌, ◌^◌, length, slice_set, slice_get, map, true};
ghost use Rattle.std.specs.Prelude.{Option, Some, None, IfOk, IfSome};
ghost use Rattle.sched_rules.specs.Schedule.{new_job, begun};
ghost use Rattle.sched_rules.specs.declared.turns.Turn.TheVariants as turned;

use crate::jobs::{job_after, next_of};
use sched_rules::{Choice, Job, Renewal, Task, Turn};
use spk_nums::Reply;
use std::alloc::{AllocError, Global};

/// The time in ticks, the tasks in the order listed, and the place in that list of the task that ran last.
#[derive(Drop)]
pub struct Course {
    pub time: u64,
    pub jobs: Vec<Job>,
    pub last: Option<usize>,
}

/// Before the first turn.
pub fn begin(alloc: Global, tasks: &[Task]) -> Result<Course, AllocError>
    ensures time { IfOk result (λ c. c.time ≡ 0) }
    ensures jobs { IfOk result (λ c. c.jobs.items ≡ map new_job tasks.now) }
    ensures last { IfOk result (λ c. c.last ≡ None) }
{
    let mut jobs = Vec::new(alloc);
    'tasks: for task in tasks {
        jobs.push(Job {
            task: *task,
            left: u64::from(task.work),
            out: false,
            next: job_after(u64::from(task.arrival), task.period),
            used: 0,
        })?;
    }
    Ok(Course {
        time: 0,
        jobs,
        last: None,
    })
}

/// The number of a task as it is written, from 1.
fn number_of(index: usize) -> u32
    requires { index < 32 }
    ensures { result ≡ index + 1 }
{
    index as u32 + 1
}

/// The chosen task has run for so many ticks, at most its work.
pub fn run_on(course: &mut Course, choice: &Choice, ticks: u32) -> Turn
    requires place { choice.now.index < length course.old.jobs.items }
    requires few { length course.old.jobs.items ≤ 32 }
    requires work { ticks ≤ choice.now.job.left }
    requires used { choice.now.job.used + ticks < 2 ^ 64 }
    requires time { course.old.time + ticks < 2 ^ 64 }
    ensures turn { result ≡ turned.Ran course.old.time (choice.now.index + 1) ticks }
    ensures time { course.new.time ≡ course.old.time + ticks }
    ensures last { course.new.last ≡ Some choice.now.index }
    ensures jobs { course.new.jobs.items ≡ slice_set course.old.jobs.items choice.now.index
        (record (choice.now.job) { left = choice.now.job.left - ticks; used = choice.now.job.used + ticks }) }
{
    let at = course.time;
    course.jobs[choice.index] = Job {
        task: choice.job.task,
        left: choice.job.left - u64::from(ticks),
        out: choice.job.out,
        next: choice.job.next,
        used: choice.job.used + u64::from(ticks),
    };
    course.last = Some(choice.index);
    course.time = at + u64::from(ticks);
    Turn::Ran {
        at,
        task: number_of(choice.index),
        ticks,
    }
}

/// A further job of a task has arrived.
pub fn begin_job(course: &mut Course, renewal: &Renewal) -> Turn
    requires place { renewal.now.index < length course.old.jobs.items }
    requires few { length course.old.jobs.items ≤ 32 }
    requires work { renewal.now.job.left + renewal.now.job.task.work < 2 ^ 64 }
    requires used { renewal.now.job.used < 2 ^ 32 }
    requires next { IfSome renewal.now.job.next (λ at. at < 2 ^ 63) }
    ensures turn { result ≡ turned.Back course.old.time (renewal.now.index + 1) renewal.now.job.used }
    ensures time { course.new.time ≡ course.old.time }
    ensures last { course.new.last ≡ course.old.last }
    ensures jobs { course.new.jobs.items ≡ slice_set course.old.jobs.items renewal.now.index (begun (renewal.now.job)) }
{
    let job = &renewal.job;
    course.jobs[renewal.index] = Job {
        task: job.task,
        left: job.left + u64::from(job.task.work),
        out: job.out,
        next: next_of(job.next, job.task.period),
        used: 0,
    };
    Turn::Back {
        at: course.time,
        task: number_of(renewal.index),
        ticks: job.used as u32,
    }
}

/// The task at a place was refused with this reply, and is out.
pub fn put_out(course: &mut Course, index: usize, job: &Job, reply: Reply) -> Turn
    requires place { index < length course.old.jobs.items }
    requires few { length course.old.jobs.items ≤ 32 }
    ensures turn { result ≡ turned.Refused course.old.time (index + 1) reply }
    ensures time { course.new.time ≡ course.old.time }
    ensures last { course.new.last ≡ course.old.last }
    ensures jobs { course.new.jobs.items ≡ slice_set course.old.jobs.items index (record (job.now) { out = true }) }
{
    course.jobs[index] = Job {
        task: job.task,
        left: job.left,
        out: true,
        next: job.next,
        used: job.used,
    };
    Turn::Refused {
        at: course.time,
        task: number_of(index),
        reply,
    }
}
