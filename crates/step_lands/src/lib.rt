//! Where a step leaves a call: it has made one more step and goes on, it is refused, or it is decided.
//!
//! **In place.** A call is changed where it stands, and only in what the step changes; what the step led to is told where it said before
//! that the call goes on.
//!
//! **Where a call stands.** The specs name the places at which a step is made (`Standing`), and what a step of each leads to; each function
//! of the crates above asks for one of them.
//!
//! Each function computes one of `call_stages`, where the types and the definitions stand.
#![tactic(auto)]

mod lands;

pub use call_stages;
pub use call_stages::act_states;
pub use lands::{decide, go_on, goes_on, land, refused, refused_late};
