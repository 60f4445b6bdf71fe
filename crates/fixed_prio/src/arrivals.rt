//! Arrivals to come, and how long a turn is.

ghost use Rattle.std.specs.Prelude.{◌≡◌, ◌<◌, ◌≤◌, min};
ghost use Rattle.sched_rules.specs.Schedule.{later, sooner, next_arrival, cut_at};

use sched_rules::{Choice, Job, Rule};

// When the next job of a task arrives that is still to come, and was not refused.
fn later(now: u64, job: &Job) -> Option<u64>
    ensures { result ≡ later now job.now }
{
    let arrival = u64::from(job.task.arrival);
    if job.out {
        None
    } else if now < arrival {
        Some(arrival)
    } else {
        job.next
    }
}

fn sooner(a: Option<u64>, b: Option<u64>) -> Option<u64>
    ensures { result ≡ sooner a b }
{
    match a {
        None => b,
        Some(a) => match b {
            None => Some(a),
            Some(b) => Some(a.min(b)),
        },
    }
}

/// The next later arrival of a job of a task that was not refused.
pub fn next_arrival(now: u64, jobs: &[Job]) -> Option<u64>
    ensures { result ≡ next_arrival now jobs.now }
{
    let mut next = None;
    let mut index = jobs.len();
    'jobs: while 0 < index {
        index -= 1;
        next = sooner(later(now, &jobs[index]), next);
    }
    next
}

// A stretch of ticks, cut at an arrival.
fn cut_at(arrival: Option<u64>, now: u64, ticks: u32) -> u32
    ensures { result ≡ cut_at arrival now ticks }
{
    match arrival {
        None => ticks,
        Some(at) => u64::from(ticks).min(at.saturating_sub(now)) as u32,
    }
}

/// The ticks of a turn of the chosen task.
pub fn length_of(rule: &Rule, now: u64, jobs: &[Job], choice: &Choice) -> u32
    ensures { result ≡ cut_at (next_arrival now jobs.now) now (min rule.now.quantum (min choice.now.job.left choice.now.ready.budget)) }
{
    let budget = u64::from(choice.ready.budget);
    let most = u64::from(rule.quantum).min(choice.job.left.min(budget)) as u32;
    cut_at(next_arrival(now, jobs), now, most)
}
