//! Laws of fixed-priority scheduling, each of the definitions alone and the contract of a function of this crate: which task runs, that
//! nothing else runs in its place, what turns charge and give back, and when a task ends or a job of it is done.
//!
//! A schedule of `schedule` is the definitions', so these hold of every schedule that a machine has run.
//!
//! See docs/SCHEDULER.md.
#![tactic(auto)]

ghost use Rattle.sched_laws.specs.Least.{LeastChosen, LeastRuns, NoneWaits, OthersStay};
ghost use Rattle.sched_laws.specs.Response.{ResponseBound};
ghost use Rattle.sched_laws.specs.Charging.{ExactTicks};
ghost use Rattle.sched_laws.specs.Work.{WorkIsKept};

/// The task that is chosen is ready, has the least number among the ready ones, and is the first listed among equals; where none is chosen,
/// none is ready.
pub fn least_chosen()
    ensures { LeastChosen }
{}

/// At every tick of a turn the task that runs is the least among those that are ready at that tick, and the first listed among equals.
pub fn least_runs()
    ensures { LeastRuns }
{}

/// At every tick of an idle turn no task is ready, and where the schedule ends none will ever be.
pub fn none_waits()
    ensures { NoneWaits }
{}

/// Where a task is chosen and another is ready, the other's temporal capability does not preempt the chosen one's.
pub fn others_stay()
    ensures { OthersStay }
{}

/// The response bound, where no task has a period: one that has time of its own whenever it is due, and is not refused, has made all its
/// work by the end of the schedule, and each of its turns ends no later than its arrival and the work of all tasks that are not after it.
pub fn response_bound()
    ensures { ResponseBound }
{}

/// Exact ticks: in a schedule that begins where core 0 owes nothing, the ticks of each turn in which a task runs are exactly those charged
/// in it, to the temporal capability that the task's name reached when it was chosen for that turn. Those of a turn in which a job arrives
/// are exactly what its task has run since its last job, and are given back to the temporal capability that the task's name leads to. Other
/// turns charge nothing and give nothing back.
pub fn exact_ticks()
    ensures { ExactTicks }
{}

/// At the end of a schedule each task has left what it did not run of the work of its jobs that arrived: what is written of it is so.
pub fn work_is_kept()
    ensures { WorkIsKept }
{}
