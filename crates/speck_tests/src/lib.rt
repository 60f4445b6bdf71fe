//! Tests that are no data: of the types of the base crate, of the ends of bytes, of words and their places, of sums over texts that are made,
//! of threads at gates of several kinds, and of ends that never fail. Those of scripts are the rows of `row_runs`.
//!
//! See docs/CLAIMS.md, 'Crate by crate'.
#![tactic(auto)]

#[cfg(test)]
mod endpoints;
#[cfg(test)]
mod ends;
#[cfg(test)]
mod loads;
#[cfg(test)]
mod numbers;
#[cfg(test)]
mod runs;
#[cfg(test)]
mod schedules;
#[cfg(test)]
mod shared;
#[cfg(test)]
mod sure_ends;
#[cfg(test)]
mod texts;
#[cfg(test)]
mod words;
