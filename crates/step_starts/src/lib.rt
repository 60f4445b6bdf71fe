//! Where a call's act begins after its look-ups, each step in its place.
//!
//! Each function computes one of `call_stages`, where the types and the definitions stand.
#![tactic(auto)]

mod starts;

pub use starts::{act_begins, found_free, found_held};
