//! The look-ups of a call, made straight through.
//!
//! **Straight.** The step machine of calls keeps, between two steps, where a call stands. A call that is made straight through makes the
//! same steps in the same order, as long as each word is the one expected, and keeps none of that. It is made over words that carry the
//! core whose steps they are (`core_words`), so it can make no other steps.
//!
//! **Falling back.** Where a word is another, the call is written down as it stood before the step that has found it, and the word is
//! handed on: the step machine takes it from there. So what such a word means is said in one place alone.
//!
//! **Parts.** The entry and the question whether the core's component lives; a name; the exit. Each is proved once for every call, by
//! what its plan says comes next. A look is made of these; the acts of other calls stand in `straight_acts`.
#![tactic(auto)]

mod asks;
mod ends;
mod exits;
mod looks;
mod names;
mod rests;
mod shows;

pub use asks::ask;
pub use core_words::Words;
pub use ends::{Asked, Followed, Named, Went};
pub use exits::{entry_op, exit};
pub use looks::look;
pub use names::{follow, name};
pub use rests::{rest_acting, rest_asking, rest_looking};
pub use shows::{HeldAt, held_at};
