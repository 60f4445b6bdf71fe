//! The verdict on a given history: the sequential kernel, driven along its lines.
//!
//! **No search.** A line leaves one next state, or none. So each mark is judged once, in the order written, and the first that may not
//! follow ends it.
//!
//! **Three judgements.** The core's marks go enter, decide, return, and the number of a call made whole is its core's next. `raced`
//! stands only where another core was in a call at some moment since this one entered its own: that is so unless it is the core that
//! is alone, of which there is one at most, that entered last and found no other in a call. `busy d` stands only where core d is
//! another, and in a call. And the call relation permits the reply (`call_judge`).
//!
//! See docs/MODEL.md, 'A given history'.
#![tactic(auto)]

mod coming;
mod judge;
mod seen;
mod verdicts;

pub use coming::{Finding, come_to, find_break};
pub use judge::Judge;
pub use seen::{At, Seen};
pub use verdicts::verdict;
