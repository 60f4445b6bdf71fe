//! Quiescence: the scans that a reuse waits for, and the steps that begin a grace period.
//!
//! See docs/FORMATS.md, 'Steps of calls'.
#![tactic(auto)]

mod close;
mod flush_mark;
mod quiet;

pub use close::{Close, drawn};
pub use flush_mark::FlushMark;
pub use quiet::Quiet;
