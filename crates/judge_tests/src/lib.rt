//! Tests of the sequential kernel's state, part by part; of the judge of decisions: for a state, a call and a reply, whether the reply is
//! permitted, and whether the state then changes; and of the test for sealed worlds.
//!
//! See docs/CLAIMS.md, 'Crate by crate'.
#![tactic(auto)]

#[cfg(test)]
mod judging;
#[cfg(test)]
mod rows;
#[cfg(test)]
mod seals;
#[cfg(test)]
mod states;
