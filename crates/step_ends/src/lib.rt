//! The steps of a call's act, each in its place.
//!
//! `act_step` chooses by the act, and builds nothing.
//!
//! Each function computes one of `call_stages`, where the types and the definitions stand.
#![tactic(auto)]

mod acts;

pub use acts::act_step;
