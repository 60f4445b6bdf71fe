//! Reads the lines of calls: the words that a line may begin with, and after the word of a call its arguments, from left to right.
//!
//! See docs/FORMATS.md, 'Script'.
#![tactic(auto)]

mod arguments;
mod call_lines;
mod first_words;
mod one_line;
mod versions;

pub use arguments::{byte_at, capability_at, core_at, half_at, whole_at};
pub use call_lines::call_line;
pub use first_words::{FirstWord, first_word};
pub use one_line::{read_call, verb_at};
pub use spk_nums::Verb;
pub use versions::most_calls;
