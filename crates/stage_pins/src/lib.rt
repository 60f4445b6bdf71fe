//! Acquiring a frame's count before a call changes the references to the frame, and committing it afterwards.
//!
//! See docs/FORMATS.md, 'Steps of calls'.
#![tactic(auto)]

mod held;
mod pin;
mod settle;

pub use held::{Acquired, AcquiredCounts};
pub use pin::{Pin, Pinned, acquires_what_it_found};
pub use settle::{Settle, gives_back_what_it_found};
