//! The steps of calls: one atomic step after another, as code.
//!
//! Each function computes one of `call_stages`, where the types and the definitions stand. A step stands with its stage, in the crate
//! below that has it: up to its look-ups in `step_looks`, where its act begins in `step_starts`, its scan and its counts in `step_counts`,
//! in its act in `step_ends` and `act_ends`, and once it is decided in `step_stores`. Here they are chosen among.
//!
//! **The life of a call.** It enters, asks whether its core's component lives, is undecided, is decided, and leaves, and these stages are
//! the same for all calls, but that `ret`, `flush` and `tick` do not ask. The first step stores the core word with inside set and the stamp
//! of the last exit. A call that is decided has its reply, and what it has still to store. When that is done it loads the clock, and stores
//! the core word with inside cleared and the clock that was loaded. So a core that is inside a call has entered it after everything that
//! was removed at an earlier stamp.
//!
//! **Work.** An undecided call makes its look-ups, by its plan, and then its act, which is its own (`begin_acts`,
//! `call_acts`). A step of the work goes on, refuses or answers.
//!
//! **Counts.** An act that changes the references to a frame says which counts it changes, and by how much. Each is acquired
//! before the act's first step, by a load and a compare, and is committed after the call is decided, by one store: with its change
//! where the call is carried out, and as it was where it is refused. While a core holds a count no other core changes it or
//! freezes it, so the sum of a frame's counts, each as its holder will commit it, is at each moment the number of references.
//!
//! **What is still to store.** What a decided call has still to store is known when it is decided, and is carried out by stores
//! alone: its tail, then its counts, the earliest first; counters that it has frozen, and their frame's word, come after its counts.
//!
//! **Refusals.** A refusal decides at the first step by which it is known and every earlier cause is judged: first that the
//! core's calls are spent, then that its component does not live, then as the call's work judges them.
//!
//! **Ready.** A call is ready where its next step is the one that decides its `ok`, and where it has decided.
//!
//! **Words that never come.** Every word is taken: what is no entry of this machine is refused with `raced`, and a clock past the
//! range of a stamp stays at the range's end.
//!
//! **A call more** is a call more of `call_acts`; to the steps it adds to the tail, if it has something to store.
//!
//! See docs/FORMATS.md, 'Steps of calls', and docs/PROOF.md, 'The invariant of the step machine'.
#![tactic(auto)]

mod core_state;
mod names;
mod steps;
mod whole;

pub use core_state::CoreState;
pub use step_lands::call_stages::Absorbed;
pub use straight_acts::{Went, Words};
