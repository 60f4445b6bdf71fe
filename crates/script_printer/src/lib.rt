//! Prints scripts in their printed form, and the reply lines of calls.
//!
//! See docs/FORMATS.md, 'Printed form'.
#![tactic(auto)]

mod law;
mod order;
mod printing;
mod reply_lines;
mod setup;

pub use law::{has_few_lines, reads_back};
pub use printing::print;
pub use reply_lines::{push_reply_line, reply_line};
pub use setup::push_setup;
