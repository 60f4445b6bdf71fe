//! Calls on two temporal capabilities, made straight through: transfers, delegations and tests of preemption.
//!
//! Each asks whether the core's component lives and looks its two names up as `straight_looks` does, makes the steps of a `Pair` up to the
//! one that decides, and stores what is then still to be stored. Names that lead to one object are refused as the step machine refuses
//! them; any other refusal falls back to it, with the pair as it stood before the step that has found it.
#![tactic(auto)]

mod names;
mod pairs;
mod rests;
mod takes;

pub use names::share;
