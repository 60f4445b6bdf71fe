//! The lines that tell the replies of calls, appended to a text piece by piece: no text is made in between, and a number of up
//! to four digits costs one append a digit.
//!
//! See docs/FORMATS.md, 'Printed text'.
#![tactic(auto)]

mod calls;
mod line;
mod numbers;
mod replies;

pub use calls::push_call;
pub use line::push_line;
pub use numbers::{push_number, push_one, push_pair};
pub use replies::push_reply;
