//! Takes the lines of a text one after another, up to the first fault.
//!
//! **One engine for whatever takes lines** (`Lines`, `read_lines`): scripts, and the texts that begin as a script. What lines say is each
//! reader's own; which lines the bytes have, their numbers, and that the first fault is that of the first line which is not taken, are
//! said once.
//!
//! **Words of a line.** A line is the list of its words. A word at a place, a number, and the end of the line are judged here, each with
//! the cause of the fault that it finds.
//!
//! See docs/FORMATS.md, 'Script'.
#![tactic(auto)]

mod arguments;
mod cause;
mod engine;
mod numerals;

pub use arguments::{end_at, is_word, number_at, word_at};
pub use cause::{Cause, LineFault, ReadFault};
pub use engine::{Lines, fault_at, first_faults, line_length, read_lines, whole_lines};
pub use numerals::{is_digits, read_number};
