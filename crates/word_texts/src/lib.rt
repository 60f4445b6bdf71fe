//! The words of the shared table and their values, as what they are: `tcap 9`, `leaf 1 [20]`; `995 ticks, marked by core 0`.
//!
//! What a word of a frame is depends on the object that the frame holds. So each text is of a word and of its frame's word, which says
//! what the frame is.
//!
//! See docs/FORMATS.md, 'Pictures'.
#![tactic(auto)]

mod holds;
mod names;
mod objects;
mod slots;
mod values;

pub use names::push_name;
pub use step_views;
pub use values::push_value;
