//! One turn: whose it is, its calls, and what it changes.

ghost use Rattle.std.specs.Prelude.{◌≡◌, ◌≤◌, ◌&&◌, ◌==◌, []};
ghost use Rattle.sched_rules.specs.kernel_rules.specs.State.{State};
ghost use Rattle.plain_kernel.specs.seq_state.specs.Maps.{state_of};
ghost use Rattle.sched_rules.specs.Schedule.{is_place, is_done, ticks, switches, switch_for, runs, turn_of, idles, next_arrival, RuleFits};
ghost use Rattle.sched_rules.specs.Schedule.{renews, replenish_for};
ghost use Rattle.fixed_prio.specs.Machines.{after_calls, Beside};
ghost use Rattle.fixed_prio.specs.Courses.{progress, Takes, TakesTurn, IdlesTo, IsChosen, IsRenewal, CourseFits};

use crate::arrivals::{length_of, next_arrival};
use crate::choosing::choose;
use crate::course::{Course, begin_job, put_out, run_on};
use crate::jobs::renewal;
use crate::machine::{Machine, call_both};
use plain_kernel::SeqKernel;
use sched_rules::{Choice, Renewal, Rule, Turn};
use spk_nums::{Call, CoreNo, Reply};
use std::alloc::Global;

// Whether a call was carried out.
fn is_done(reply: &Reply) -> bool
    ensures { result ≡ is_done reply.now }
{
    match reply {
        Reply::Ok(_) => true,
        _ => false,
    }
}

// Whether a task ran last.
fn is_place(last: Option<usize>, index: usize) -> bool
    ensures { result ≡ is_place last index }
{
    match last {
        None => false,
        Some(place) => place == index,
    }
}

// Whether the chosen task goes on without a `switch`: it was the last that ran, and its name reaches the core's current temporal
// capability.
fn goes_on(k: &SeqKernel, course: &Course, choice: &Choice) -> bool
    requires { 1 ≤ (state_of k.now).limits.cores }
    ensures { result ≡ (is_place course.now.last choice.now.index && ((state_of k.now).core 0).tcap == choice.now.ready.tcap) }
{
    is_place(course.last, choice.index) && k.core(CoreNo::new(0)).tcap == choice.ready.tcap
}

// Makes the call `tick`: the task has run, or is out.
fn tick<M: Machine>(
    alloc: Global,
    m: &mut M,
    k: &mut SeqKernel,
    course: &mut Course,
    choice: &Choice,
    n: u32,
) -> Turn
    requires beside { Beside (M.setup m.old) (M.made m.old) k.old }
    requires chosen { IsChosen course.old choice.now n }
    ensures setup { M.setup m.new ≡ M.setup m.old }
    ensures takes { Takes (M.setup m.old) (M.made m.old)
        (ticks (progress (M.setup m.old) (M.made m.old) course.old) choice.now (after_calls (M.setup m.old) (M.made m.old)) [] n)
        result (M.made m.new) course.new k.new }
{
    let reply = call_both(alloc, m, k, Call::Tick { n });
    if is_done(&reply) {
        run_on(course, choice, n)
    } else {
        put_out(course, choice.index, &choice.job, reply)
    }
}

// Makes the call `switch` for the task, and `tick` where it is carried out.
fn switch<M: Machine>(
    alloc: Global,
    m: &mut M,
    k: &mut SeqKernel,
    course: &mut Course,
    choice: &Choice,
    n: u32,
) -> Turn
    requires beside { Beside (M.setup m.old) (M.made m.old) k.old }
    requires chosen { IsChosen course.old choice.now n }
    ensures setup { M.setup m.new ≡ M.setup m.old }
    ensures takes { Takes (M.setup m.old) (M.made m.old)
        (switches (progress (M.setup m.old) (M.made m.old) course.old) choice.now (switch_for choice.now.job.task) n)
        result (M.made m.new) course.new k.new }
{
    let call = Call::Switch {
        h: choice.job.task.thread,
        q: choice.job.task.tcap,
    };
    let reply = call_both(alloc, m, k, call);
    if is_done(&reply) {
        tick(alloc, m, k, course, choice, n)
    } else {
        put_out(course, choice.index, &choice.job, reply)
    }
}

// The turn of the chosen task.
fn run<M: Machine>(
    alloc: Global,
    m: &mut M,
    k: &mut SeqKernel,
    course: &mut Course,
    choice: &Choice,
    n: u32,
) -> Turn
    requires beside { Beside (M.setup m.old) (M.made m.old) k.old }
    requires chosen { IsChosen course.old choice.now n }
    ensures setup { M.setup m.new ≡ M.setup m.old }
    ensures takes { Takes (M.setup m.old) (M.made m.old)
        (runs (progress (M.setup m.old) (M.made m.old) course.old) choice.now n) result (M.made m.new) course.new k.new }
{
    if goes_on(k, course, choice) {
        tick(alloc, m, k, course, choice, n)
    } else {
        switch(alloc, m, k, course, choice, n)
    }
}

// A further job of a task has arrived: what the task has run since its last one is given back.
fn renew<M: Machine>(
    alloc: Global,
    m: &mut M,
    k: &mut SeqKernel,
    course: &mut Course,
    renewal: &Renewal,
) -> Turn
    requires beside { Beside (M.setup m.old) (M.made m.old) k.old }
    requires renewed { IsRenewal course.old renewal.now }
    ensures setup { M.setup m.new ≡ M.setup m.old }
    ensures takes { Takes (M.setup m.old) (M.made m.old)
        (renews (progress (M.setup m.old) (M.made m.old) course.old) renewal.now (replenish_for renewal.now.job))
        result (M.made m.new) course.new k.new }
{
    let call = Call::Replenish {
        a: renewal.job.task.tcap,
        m: renewal.job.used as u32,
    };
    let reply = call_both(alloc, m, k, call);
    if is_done(&reply) {
        begin_job(course, renewal)
    } else {
        put_out(course, renewal.index, &renewal.job, reply)
    }
}

// Nothing is ready: idle up to the next later arrival, if one comes.
fn idle(course: &mut Course) -> Option<Turn>
    ensures { IdlesTo (next_arrival course.old.time course.old.jobs.items) course.old result course.new }
{
    let at = course.time;
    match next_arrival(at, &course.jobs) {
        None => None,
        Some(arrival) => {
            course.time = arrival;
            Some(Turn::Idle {
                at,
                ticks: arrival.saturating_sub(at),
            })
        }
    }
}

/// Takes the next turn; None where the schedule ends, and then nothing has changed.
pub fn take_turn<M: Machine>(
    alloc: Global,
    m: &mut M,
    k: &mut SeqKernel,
    rule: &Rule,
    course: &mut Course,
) -> Option<Turn>
    requires beside { Beside (M.setup m.old) (M.made m.old) k.old }
    requires rule { RuleFits rule.now }
    requires course { CourseFits course.old }
    ensures setup { M.setup m.new ≡ M.setup m.old }
    ensures takes { TakesTurn (M.setup m.old) (M.made m.old) course.old
        (turn_of rule.now (progress (M.setup m.old) (M.made m.old) course.old)) result (M.made m.new) course.new k.new }
{
    if let Some(come) = renewal(course.time, &course.jobs) {
        return Some(renew(alloc, m, k, course, &come));
    }
    match choose(k, rule, course.time, &course.jobs) {
        Some(choice) => {
            let n = length_of(rule, course.time, &course.jobs, &choice);
            Some(run(alloc, m, k, course, &choice, n))
        }
        None => idle(course),
    }
}
