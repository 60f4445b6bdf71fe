//! Tasks, and what a scheduler knows of them.

use kernel_rules::spk_nums::{CapId, FrameNo};

/// A task: the thread and the temporal capability that it names, in the table of the component that the core works in, and its arrival
/// and work in ticks: an arrival of 0 to 1,000,000, a work of 1 to 10,000. One with a period, of 1 to 1,000,000 ticks, has a further job
/// of as much work each period, the last of them at 1,000,000 or before.
#[derive(Clone, Copy, PartialEq, Eq, Debug)]
pub struct Task {
    /// The name of its thread.
    pub thread: CapId,
    /// The name of its temporal capability.
    pub tcap: CapId,
    /// When it arrives.
    pub arrival: u32,
    /// How many ticks of work a job of it has.
    pub work: u32,
    /// How many ticks after a job its next one arrives; None where it has one job.
    pub period: Option<u32>,
}

/// The rule of a scheduler: which scheduler of the lists it is, 0 to 63, and the most ticks of a turn, 1 to 1,000,000.
#[derive(Clone, Copy, PartialEq, Eq, Debug)]
pub struct Rule {
    /// The scheduler, by whose numbers tasks are chosen.
    pub sched: u8,
    /// The most ticks of a turn.
    pub quantum: u32,
}

/// A task with the work that it has left, and whether it is out: a call for it was refused; when its next job arrives, and what it has run
/// since the last one did.
#[derive(Clone, Copy, PartialEq, Eq, Debug)]
pub struct Job {
    pub task: Task,
    /// The ticks of work left, of all jobs that have arrived.
    pub left: u64,
    pub out: bool,
    /// When the next job arrives, if one comes.
    pub next: Option<u64>,
    /// The ticks that it has run since its last job arrived.
    pub used: u64,
}

/// What makes a task ready: the frame of the temporal capability that its name reaches, that one's budget, above 0, and the number that
/// its list gives the scheduler.
#[derive(Clone, Copy, PartialEq, Eq, Debug)]
pub struct Ready {
    pub tcap: FrameNo,
    pub budget: u32,
    pub number: u32,
}

/// The task that is chosen: its place in the list of tasks, from 0, and what makes it ready.
#[derive(Clone, Copy, PartialEq, Eq, Debug)]
pub struct Choice {
    pub index: usize,
    pub job: Job,
    pub ready: Ready,
}

/// A task of which a further job has arrived: its place in the list of tasks, from 0.
#[derive(Clone, Copy, PartialEq, Eq, Debug)]
pub struct Renewal {
    pub index: usize,
    pub job: Job,
}
