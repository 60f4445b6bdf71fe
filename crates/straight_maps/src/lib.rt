//! Calls made straight through that map a page, and that grow or shrink a root.
//!
//! A mapping looks its names and its place up as `straight_acts` does. Where the place is quiescing, the words of the other cores and
//! all flush words are loaded before its count is acquired: each is to say that its core no longer waits. Then the frame's word is loaded,
//! which is to be that of a user frame, and the place is filled. A growing fills the root's entry so, with no frame's word; a shrinking
//! removes what it holds.
//!
//! A word that is another than the one expected falls back to the step machine, with the scan or the act as it stood before that step.
#![tactic(auto)]

mod ends;
mod fills;
mod grows;
mod maps;
mod places;
mod rests;
mod scans;

pub use grows::{grow, shrink};
pub use maps::map;
