//! The steps of a call from its entry to the end of its look-ups, each in its place.
//!
//! A call that may still be made asks first whether its core's component lives, where its plan says so. Then it looks up what its plan
//! names, each name in order, and its target; the last of them leads to its act, or to its answer.
//!
//! Each function computes one of `call_stages`, where the types and the definitions stand.
#![tactic(auto)]

mod looks;
mod next;
mod places;

pub use looks::{ask, enter, look_up, read};
pub use next::{is_living, next_of};
pub use places::look_next;
