//! Laws of fixed-priority scheduling of tasks with periods, each of the definitions alone and the contract of a function of this crate:
//! when jobs arrive and when they are done, how a budget of a task's own comes back, and that one of at least the task's work is enough.
//!
//! A schedule of `schedule` is the definitions', so these hold of every schedule that a machine has run.
//!
//! See docs/SCHEDULER.md.
#![tactic(auto)]

ghost use Rattle.period_laws.specs.Periods.{HighestIsDone, PeriodicBound};
ghost use Rattle.period_laws.specs.Arrivals.{ArriveOnTime};
ghost use Rattle.period_laws.specs.Budgets.{OwnBudgetReturns, OwnBudgetSupplies, OwnBudgetsSuffice};

/// A job of the highest priority: of a task with a period that no other comes before, that has time of its own whenever it is due, and is
/// not refused, each job is done within its work of ticks.
pub fn highest_is_done()
    ensures { HighestIsDone }
{}

/// The response bound of tasks with periods: where a number of ticks, at most the task's period, is enough for its work and for all that
/// the tasks before it ask for in so many ticks, each of its jobs is done within that number of ticks.
pub fn periodic_bound()
    ensures { PeriodicBound }
{}

/// Jobs arrive on time: the k-th turn in which a further job of a task arrives, counted from 1, is at the task's arrival and k of its
/// periods. None arrives late, twice or not at all, up to time 1,000,000, but of a task that was refused before, of which none arrives.
pub fn arrive_on_time()
    ensures { ArriveOnTime }
{}

/// A budget of one's own comes back: where a task's name leads throughout to a temporal capability to which no other task's name leads,
/// that one lacks at any moment exactly what the task has run since its last job. So right after a further job arrives it has the budget
/// that it had when the schedule began.
pub fn own_budget_returns()
    ensures { OwnBudgetReturns }
{}

/// A budget of one's own is enough if it is at least the task's work: where each of the task's jobs is done before the next one arrives,
/// the task has time whenever it is due.
pub fn own_budget_supplies()
    ensures { OwnBudgetSupplies }
{}

/// The response bound by budgets alone: where a task, and each that is above it, has a temporal capability of its own, with a budget at
/// first of at least its work, and, if it has a period, a number of ticks, at most that period, that is enough for its work and for all
/// that those above it ask for in so many ticks, each job of the task is done within that number of ticks. That they have time whenever
/// they are due is not asked, but follows.
pub fn own_budgets_suffice()
    ensures { OwnBudgetsSuffice }
{}
