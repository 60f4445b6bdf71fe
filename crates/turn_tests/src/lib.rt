//! The shared table's rule at two small programs: cores that count by compare-and-swap, and cores that take tickets by
//! an add, and show them by stores in words of their own.
//!
//! See docs/CLAIMS.md, 'Crate by crate'.
#![tactic(auto)]

mod counter;
mod counting;
mod taker;
mod taking;
#[cfg(test)]
mod tests;

pub use counter::{Counter, Stage};
pub use counting::{count, count_all, count_in_two, count_many, finish, step, tell};
pub use taker::{Phase, Side, Taker};
pub use taking::{close_shown, take, take_in_two, take_often};
