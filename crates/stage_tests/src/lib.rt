//! Tests of the stages that calls go through, by worked words: the next step, what the word found leads to, and words of no value.
//!
//! See docs/CLAIMS.md, 'Crate by crate'.
#![tactic(auto)]

#[cfg(test)]
mod acquired;
#[cfg(test)]
mod charges;
#[cfg(test)]
mod claims;
#[cfg(test)]
mod closes;
#[cfg(test)]
mod counters;
#[cfg(test)]
mod emptiness;
#[cfg(test)]
mod flush_marks;
#[cfg(test)]
mod lists;
#[cfg(test)]
mod lives;
#[cfg(test)]
mod looks;
#[cfg(test)]
mod pairs;
#[cfg(test)]
mod pins;
#[cfg(test)]
mod refills;
#[cfg(test)]
mod scans;
#[cfg(test)]
mod settles;
#[cfg(test)]
mod stacks;
#[cfg(test)]
mod steps;
#[cfg(test)]
mod sweeps;
#[cfg(test)]
mod thaws;
