//! The command `explain`: reads what another command reads, and says what to do where that would be refused.
//!
//! See docs/FORMATS.md, 'Explanations'.
#![tactic(auto)]

mod run;

pub use ends_reader;
pub use history_options::check_run;
pub use line_forms::Reading;
pub use run::explain;
