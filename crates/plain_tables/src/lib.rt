//! The printed tables of the plain kernel.
//!
//! They are printed from its maps by the lines that the tables of final words are printed by. The references to each frame are
//! counted afresh, by one pass over places, objects, cores and liveness numbers.
//!
//! See docs/FORMATS.md, 'Printed text'.
#![tactic(auto)]

mod frames;
mod names;
mod objects;
mod rest;
mod whole;

pub use whole::tables;
