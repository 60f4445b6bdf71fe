//! What a call does between its look-ups and the first step of its act: what its names are found to be, and where its act begins.
//!
//! **Names.** A name is judged by what stands at its place: nothing, a capability of another kind, one that lacks a right.
//!
//! **Acts.** `begin_act` says for every call where its act begins: at the place of its target, after a scan where that is quiescing, or
//! without a target. What the core knows itself is judged here: a stack that is full or at its bottom, two names of one object.
//!
//! Each function computes one of `act_states`, where the types and the definitions stand.
#![tactic(auto)]

mod begins;
mod names;
mod no_target;
mod targets;
mod touches;

pub use begins::{begin_act, reads_of};
pub use names::{frame_of, met_name};
pub use touches::begin_touch;
