//! The counts of references that an act changes, what it does first, and what it has still to store where it is refused.
//!
//! **Counts.** An act that changes the references to a frame says which counts it changes, and by how much. Each is acquired before the
//! act's first step, in this order, by a load and a compare; each is committed after the call is decided.
//!
//! **Refusals.** A refusal is a type without `ok`, so that a step which may only refuse carries nothing out, by its type. What an act has
//! marked by then is stored as it was found.
//!
//! Each function computes one of `act_states`, where the types and the definitions stand.
#![tactic(auto)]

mod counts;
mod refusing;
mod values;

pub use act_states;
pub use counts::{cap_due, next_work, starts};
pub use refusing::{claim_undo, gives_back, idle_again, refuse, release_of, undo, unmark};
pub use values::{charged_in, drawn_by, frame_in, stamp_in, ticks_of};
