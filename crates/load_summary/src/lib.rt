//! The summary of calls that were decided: how often each reply came, how many calls there were, and a total of ticks.
//!
//! See docs/FORMATS.md, 'The script of a number'.
#![tactic(auto)]

mod counts;
mod law;

pub use counts::{push_counts, push_total};
pub use law::{counts_once, counts_tell_each};
