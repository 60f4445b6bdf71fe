//! Where capabilities come from, by definition: what each decision puts, and the chain of what a place holds.
//!
//! **A chain.** Each capability that a place of a table holds was there at the start or was put by a call that was carried out: a copy, a
//! `make` or a `gate`. What such a call named to put it is its parent: the capability that was copied, the range out of which an object
//! was made, the component that a gate leads to. So each capability has a chain of calls back to a capability of the start.
//!
//! **As the parent stood.** The parent is what the name led to when the call was decided. It may have been removed while the call was in
//! progress, and it may stand in the very place that the call fills.
//!
//! **Laws.** Every chain is real: each of its links is a decision of the run that named a parent with the rest of the chain. And along
//! copies rights only fall: a copy has no right that what it was copied from lacks. What is made, and a gate, has both rights.
//!
//! See docs/ORIGINS.md.
#![tactic(auto)]

mod chains;
mod laws;

pub use chains::{ChainLink, Step};
pub use laws::{chains_are_real, rights_only_fall};
