//! Freezing the counters of a frame that is retyped, judging that nothing uses it, and releasing them again.
//!
//! See docs/FORMATS.md, 'Steps of calls'.
#![tactic(auto)]

mod count_words;
mod empty;
mod sweep;
mod thaw;

pub use count_words::CountWords;
pub use empty::Owned;
pub use sweep::{Sweep, SweepAt, Swept};
pub use thaw::Thaw;
