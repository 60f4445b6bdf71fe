//! Cuts the bytes of a script into words. Each word is lent from the bytes; nothing is copied.
//!
//! See docs/FORMATS.md, 'Script'.
#![tactic(auto)]

mod bytes;
mod scanning;
mod token;

pub use scanning::{ByteFault, Ending, MOST_LINES, Scanned, TokenFault, scan, tokens};
pub use token::Token;
