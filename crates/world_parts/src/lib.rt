//! Which frames of a machine are one world.
//!
//! **The finest partition.** Each frame begins alone. A place whose capability may be used and is no gate joins its node with the frames to
//! which it leads, and a component joins its frame with those of its table and its pages. What is then one world is on one side of every
//! set of frames that only gates join with the rest, and each world is joined with the rest by gates alone.
//!
//! **The final state.** All is read off the image of a machine in which no core is in a call, so nothing that was removed may still be
//! used.
//!
//! **No memory.** Nothing here takes memory.
//!
//! See docs/WORLDS.md.
#![tactic(auto)]

mod joining;
mod parts;
mod seen;

pub use joining::parts_of;
pub use machine_image;
pub use parts::Parts;
pub use seal_check;
pub use seen::{held_at, is_untyped, works_in};
