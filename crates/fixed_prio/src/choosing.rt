//! Which tasks are ready, and which of them is chosen.

ghost use Rattle.std.specs.Prelude.{◌≡◌, ◌<◌, ◌≤◌};
ghost use Rattle.sched_rules.specs.kernel_rules.specs.Edits.{tcap_at};
ghost use Rattle.plain_kernel.specs.seq_state.specs.Maps.{state_of};
ghost use Rattle.sched_rules.specs.Schedule.{with_number, time_in, time_of, is_due, ready, lesser, chosen};

use plain_kernel::SeqKernel;
use sched_lookups::{budget, number_in, qualities, reach};
use sched_rules::{Choice, Job, Ready, Rule};
use spk_nums::{Cap, CoreNo, FrameNo, Kind};

// The temporal capability of a frame, where its list gives the scheduler this number.
fn with_number(tcap: FrameNo, budget: u32, number: Option<u32>) -> Option<Ready>
    ensures { result ≡ with_number tcap budget number }
{
    match number {
        None => None,
        Some(number) => Some(Ready {
            tcap,
            budget,
            number,
        }),
    }
}

// The temporal capability of a frame, where it has budget and its list names the scheduler.
fn time_in(k: &SeqKernel, tcap: FrameNo, sched: u8) -> Option<Ready>
    ensures { result ≡ time_in tcap (tcap_at (state_of k.now) tcap) sched }
{
    let budget = budget(k, tcap);
    if 0 < budget {
        with_number(tcap, budget, number_in(&qualities(k, tcap), sched))
    } else {
        None
    }
}

// What a name reaches, where it is such a temporal capability.
fn time_of(k: &SeqKernel, sched: u8, cap: Option<Cap>) -> Option<Ready>
    ensures { result ≡ time_of (state_of k.now) sched cap }
{
    match cap {
        None => None,
        Some(cap) => match cap.kind() {
            Kind::Tcap => time_in(k, cap.frame(), sched),
            _ => None,
        },
    }
}

// Whether a task has arrived, has work left, and was not refused.
fn is_due(now: u64, job: &Job) -> bool
    ensures { result ≡ is_due now job.now }
{
    u64::from(job.task.arrival) <= now && 0 < job.left && !job.out
}

// What makes a task ready, if it is.
fn ready(k: &SeqKernel, rule: &Rule, now: u64, job: &Job) -> Option<Ready>
    requires { 1 ≤ (state_of k.now).limits.cores }
    ensures { result ≡ ready (state_of k.now) rule.now now job.now }
{
    if is_due(now, job) {
        time_of(k, rule.sched, reach(k, CoreNo::new(0), job.task.tcap))
    } else {
        None
    }
}

// The task at a place, if it is ready, and what is chosen of those after it: the smaller number, and the earlier task among equals.
fn lesser(index: usize, job: &Job, ready: Option<Ready>, after: Option<Choice>) -> Option<Choice>
    ensures { result ≡ lesser index job.now ready after }
{
    let Some(ready) = ready else { return after };
    let number = ready.number;
    let job = *job;
    let own = Choice { index, job, ready };
    match after {
        None => Some(own),
        Some(other) => {
            let least = other.ready.number;
            if number <= least {
                Some(own)
            } else {
                Some(other)
            }
        }
    }
}

/// The task that is chosen at a time: the ready one of the least number, the first listed among equals.
pub fn choose(k: &SeqKernel, rule: &Rule, now: u64, jobs: &[Job]) -> Option<Choice>
    requires { 1 ≤ (state_of k.now).limits.cores }
    ensures { result ≡ chosen (state_of k.now) rule.now now 0 jobs.now }
{
    let mut best = None;
    let mut index = jobs.len();
    'jobs: while 0 < index {
        index -= 1;
        let job = &jobs[index];
        best = lesser(index, job, ready(k, rule, now, job), best);
    }
    best
}
