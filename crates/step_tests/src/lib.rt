//! Tests of calls as they are made step by step: their plans, and a core of a machine that is driven by hand, word by word.
//!
//! See docs/CLAIMS.md, 'Crate by crate'.
#![tactic(auto)]

#[cfg(test)]
mod driving;
#[cfg(test)]
mod plans;
#[cfg(test)]
mod words;
