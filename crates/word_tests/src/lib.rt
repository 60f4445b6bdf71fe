//! Tests of the packed words: worked words and the ends of each field, both ways, and words of no value; and of their places, and the words of the
//! start.
//!
//! See docs/CLAIMS.md, 'Crate by crate'.
#![tactic(auto)]

#[cfg(test)]
mod boots;
#[cfg(test)]
mod comps;
#[cfg(test)]
mod cores;
#[cfg(test)]
mod counts;
#[cfg(test)]
mod entries;
#[cfg(test)]
mod flushes;
#[cfg(test)]
mod frames;
#[cfg(test)]
mod heads;
#[cfg(test)]
mod lives;
#[cfg(test)]
mod places;
#[cfg(test)]
mod qualities;
#[cfg(test)]
mod stacks;
#[cfg(test)]
mod threads;
