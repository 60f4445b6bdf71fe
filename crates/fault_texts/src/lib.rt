//! What is told of the first fault of a text: its line with a mark under a word, what was read there, what may stand there, the form of
//! the line, and a note.
//!
//! **The fault is the reader's.** A reader tells the line and the cause. The lines before that one are taken, so what they have come to
//! goes by their first words; the mark stands under the first word of the line that does not fit its place (`line_forms`).
//!
//! See docs/FORMATS.md, 'Explanations'.
#![tactic(auto)]

mod bytes;
mod ends;
mod finder;
mod marks;
mod notes;
mod pieces;
mod places;
mod told;

pub use marks::marks_stand_under;
pub use told::explain_fault;
