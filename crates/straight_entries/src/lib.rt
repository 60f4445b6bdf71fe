//! Components entered and left straight through: `call` and `ret`.
//!
//! The words of the component are loaded, the count of its frame is acquired, and the step is made that decides: the load of its liveness
//! number's word, or the draw of a stamp. Then the component is pushed onto the stack of the core's thread, or popped, and the count is
//! committed. A word that is not the one expected falls back to the step machine, with the act and the count as they stood before that
//! step.
#![tactic(auto)]

mod enters;
mod leaves;
mod rests;

pub use enters::enter;
pub use leaves::leave;
