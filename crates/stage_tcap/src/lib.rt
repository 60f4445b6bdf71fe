//! Charging ticks to a temporal capability and giving them back, and calls on two of them: transfers, delegations and tests of preemption.
//!
//! See docs/FORMATS.md, 'Steps of calls'.
#![tactic(auto)]

mod charge;
mod ends;
mod heads;
mod lists;
mod pair;
mod refill;

pub use charge::Charge;
pub use pair::{Pair, PairAt, PairWork};
pub use refill::{Refill, RefillAt};
