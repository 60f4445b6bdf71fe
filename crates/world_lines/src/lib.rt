//! The lines that tell the worlds of a machine that are apart.
//!
//! A line for each world, in the order of their least frames: its frames, the cores that work in it, and the ranges that its nodes hold.
//! Then a line for each gate to a component of another world, by ascending frame and index. All is read off the image of a machine in
//! which no core is in a call.
//!
//! See docs/FORMATS.md, 'Worlds', and docs/WORLDS.md.
#![tactic(auto)]

mod lines;
mod ranges;
mod table;
mod whole;

pub use whole::push_worlds;
pub use world_parts;
