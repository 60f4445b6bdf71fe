//! The lines of the printed tables, each from plain data: whoever has a state, in words or in maps, prints it by these.
//!
//! The references to each frame are a tally of the frames that are named.
//!
//! A function appends one line, or the lines of one thing, to a text. Where it answers that memory has run out, the text may
//! have a part of them.
//!
//! See docs/FORMATS.md, 'Printed text'.
#![tactic(auto)]

mod counting;
mod frames;
mod rest;
mod sorting;

pub use counting::tally;
pub use frames::{
    push_budget, push_comp, push_entry, push_frame, push_quality, push_stack_end, push_stack_start,
    push_stacked,
};
pub use rest::{push_core, push_dead, push_live, push_total};
