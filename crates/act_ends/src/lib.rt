//! What a call's act ends in, in its place: the call is decided, or a count is to be acquired.
//!
//! Each function computes one of `call_stages`, where the types and the definitions stand.
#![tactic(auto)]

mod ends;
mod entries;
mod switches;

pub use ends::{act_lands, charged, flushed, removed, share_ends, stays_owed};
pub use entries::{invoke_ends, return_ends};
pub use switches::switch_ends;
