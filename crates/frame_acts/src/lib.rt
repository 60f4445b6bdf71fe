//! The steps of the acts that change what a frame is, and of those on translations: a frame is typed and made untyped again, a page is
//! touched, and the translations of a core are dropped.
//!
//! Each function computes one of `act_states`, where the types and the definitions stand; `call_acts` chooses among them.
#![tactic(auto)]

mod flushes;
mod touches;
mod typings;
mod untypings;

pub use flushes::{flush_op, flush_took};
pub use touches::{mapping_of, touch_op, touch_ready, touch_took, translated};
pub use typings::{typing_op, typing_ready, typing_took};
pub use untypings::{untyping_op, untyping_ready, untyping_took};
