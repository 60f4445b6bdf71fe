//! Calls at ports, at endpoints and of setups in small, each under a clause that its crate promises to the outside. Here they are right;
//! each must-fail edit makes one of them wrong, and what refuses it is that clause. The crates below take long to prove, and these
//! functions do not.
//!
//! See CONTRIBUTING.md, 'Must-fail edits'.
#![tactic(auto)]

mod ends;
mod ports;
mod seats;
mod setups;

pub use ends::{ask, close, recv, send};
pub use ports::{call, charge, meet, run, tell};
pub use seats::{deal, deal_all, take_back, take_both_back};
pub use setups::{equal, may_call, setup_of};
