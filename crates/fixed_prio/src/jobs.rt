//! Further jobs of tasks that have a period.

ghost use Rattle.std.specs.Prelude.{◌≡◌, ◌<◌, ◌^◌, IfSome};
ghost use Rattle.sched_rules.specs.Schedule.{within_last, job_after, next_of, has_come, is_renewed, renewal};

use sched_rules::{Job, Renewal};

// A job that arrives then, unless that is after 1,000,000.
fn within_last(at: u64) -> Option<u64>
    ensures { result ≡ within_last at }
{
    if at <= 1_000_000 { Some(at) } else { None }
}

/// When the job after one of a task arrives, by its period.
pub fn job_after(at: u64, period: Option<u32>) -> Option<u64>
    requires { at < 2 ^ 63 }
    ensures { result ≡ job_after at period }
{
    match period {
        None => None,
        Some(period) => within_last(at + u64::from(period)),
    }
}

/// When the job after the next one of a task arrives.
pub fn next_of(next: Option<u64>, period: Option<u32>) -> Option<u64>
    requires { IfSome next (λ at. at < 2 ^ 63) }
    ensures { result ≡ next_of next period }
{
    match next {
        None => None,
        Some(at) => job_after(at, period),
    }
}

// Whether the next job of a task has arrived.
fn has_come(now: u64, next: Option<u64>) -> bool
    ensures { result ≡ has_come now next }
{
    match next {
        None => false,
        Some(at) => at <= now,
    }
}

// Whether it has, of a task that was not refused.
fn is_renewed(now: u64, job: &Job) -> bool
    ensures { result ≡ is_renewed now job.now }
{
    has_come(now, job.next) && !job.out
}

/// The first listed of the tasks of which the next job has arrived.
pub fn renewal(now: u64, jobs: &[Job]) -> Option<Renewal>
    ensures { result ≡ renewal now 0 jobs.now }
{
    'jobs: for index in 0..jobs.len() {
        if is_renewed(now, &jobs[index]) {
            return Some(Renewal {
                index,
                job: jobs[index],
            });
        }
    }
    None
}
