//! Reads scripts: the setup of a machine, a list of calls for each core, and an order of steps, or the
//! first fault of bytes that are no script.
//!
//! See docs/FORMATS.md, 'Script'.
#![tactic(auto)]

mod head;
mod items;
mod reading;

pub use call_reader::{FirstWord, Verb, call_line, capability_at, core_at, first_word, read_call};
pub use items::MOST_ITEMS;
pub use line_reader::{
    Cause, LineFault, Lines, ReadFault, end_at, fault_at, first_faults, is_digits, is_word,
    line_length, number_at, read_lines, read_number, whole_lines, word_at,
};
pub use reading::{Draft, Script, read};
pub use spk_nums::{How, Item};
