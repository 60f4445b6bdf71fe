//! Large scripts, each made of a number.
//!
//! See docs/FORMATS.md, 'The script of a number'.
#![tactic(auto)]

mod calls;
mod draws;
mod law;
mod script;

pub use law::is_accepted;
pub use script::{load_script, made_script};
pub use script_printer;
pub use script_reader;
