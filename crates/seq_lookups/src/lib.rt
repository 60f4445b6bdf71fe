//! What every call of the plain kernel looks up and begins: names, targets, causes of waiting, and grace periods.
//!
//! **One state.** Each contract speaks of the state that the kernel's maps stand for, `state_of`. What is found is exactly
//! what the definitions judge in that state, and what is changed is exactly the change that they make of it, for all that the
//! machine has (`Represents`). No contract asks that the state was reached from the start.
//!
//! **Reached states.** A reached state that the kernel represents may differ from `state_of` only in what the machine does
//! not have. That a call's reply and change are the same there is a law of the definitions, said once for all calls in a
//! crate above, and no part of these contracts.
//!
//! **Ranges.** A word of the kernel has a range, a number of the definitions has none. Where a call could leave the range in
//! a state that was never reached, its contract has `IsInRange` as a premise, which holds in each reached state.
//!
//! **No memory.** Nothing here takes memory, so a refused call leaves the kernel as it was.
//!
//! See docs/PROOF.md, 'The laws of the sequential kernel': the plain kernel.
#![tactic(auto)]

mod acting;
mod changes;
mod names;
mod objects;
mod slots;
mod waiting;

pub use acting::{is_live_in, may_act};
pub use changes::{begin, fill, remove};
pub use names::{Wanted, held, mapped, named_for, vacant};
pub use objects::{comp_at, comp_of, tcap_at, thread_at, thread_of};
pub use seq_state;
pub use seq_state::spk_nums;
pub use slots::{Slot, Target, reached, usable};
pub use waiting::{flushes_of, waits_of};
