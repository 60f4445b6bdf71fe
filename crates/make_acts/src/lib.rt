//! The steps of the acts that fill a place, that make an object or a component, and that kill a component.
//!
//! **Fill.** One compare with the word that the call's look-up has loaded there, which decides.
//!
//! **Make.** A frame's word is marked, its words are stored, and its capability is put at the target. A component takes a liveness number
//! besides; a kill gives it back, dead since the stamp that it draws.
//!
//! Each function computes one of `act_states`, where the types and the definitions stand; `call_acts` chooses among them.
#![tactic(auto)]

mod comps;
mod fills;
mod kills;
mod makings;

pub use comps::{comp_op, comp_ready, comp_took};
pub use fills::{fill_op, fill_took};
pub use kills::{killing_op, killing_ready, killing_took};
pub use makings::{making_op, making_ready, making_took, stored};
