//! What is found of an open call in the state of the plain kernel: what each of its names leads to, its reply if it were made alone, and
//! the reply with a number with which it may be refused.
//!
//! **For people.** The program `explain` tells these of the line at which a given history breaks. They change nothing that is judged.
//!
//! See docs/FORMATS.md, 'Explanations'.
#![tactic(auto)]

mod alone;
mod leads;
mod outlooks;
mod told;

pub use outlooks::{Outlook, outlook_at};
