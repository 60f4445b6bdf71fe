//! The plain kernel: any call, made whole.
//!
//! A call is entered, decided and returned from, with no other call between. A core that has made as many calls as its limit
//! is answered `calls-spent`, which counts nothing and changes nothing; every other call is counted, a refused one too.
//!
//! **Exact.** In every state that a run reaches and the kernel represents, and where the core is in no call, the reply is that
//! of the definitions, and the kernel then represents the state that they leave.
//!
//! See docs/PROOF.md, 'The laws of the sequential kernel': the plain kernel.
#![tactic(auto)]

mod families;
mod step;

pub use families::{Family, decide, family_of};
pub use seq_caps::seq_lookups::seq_state::SeqKernel;
pub use step::{acts, are_spent, plain_step};
