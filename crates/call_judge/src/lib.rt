//! Whether a call may be decided with a given reply, by the plain kernel.
//!
//! **No search.** A state, a call and a reply leave one next state. So a decision is judged in the state in which it stands, and
//! carried out where it is permitted; where it is not, the state is as before.
//!
//! **Exact.** In every state that a run reaches and the kernel represents, the answer is true exactly where the call relation
//! permits the reply. A refusal is permitted wherever its own cause stands, whatever else does: so each look-up and each own
//! cause is asked, and not the first alone.
//!
//! See docs/MODEL.md, 'The call relation'.
#![tactic(auto)]

mod carrying;
mod deciding;
mod values;

pub use deciding::decide_by;
