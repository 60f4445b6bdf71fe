//! The step machine of a core: that each trace of its steps is a history of the kernel.
//!
//! The steps themselves are those of `call_stages`, as functions of plain values, and the invariant that they keep is that of
//! `core_invariant`.
//!
//! See docs/CLAIMS.md, 'The step machine's laws', and docs/PROOF.md, 'The invariant of the step machine'.
#![tactic(auto)]

mod laws;

pub use call_stages::{Absorbed, ActiveCall, decides_once, ready_decides, unready_refuses};
pub use laws::{boots, made_stands, represents, represents_counts, says_words, steps_on};
