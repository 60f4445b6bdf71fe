//! One record of a machine's history: that it is legal, within its bounds, and keeps the discipline of words; and its
//! laws, of what calls have found, frames and references, cached translations, gates and components, threads, and the time of the
//! machine, the authority of each step, and sealed worlds, at each moment of each trace. Each command that makes atomic steps, and each
//! seat of a kernel, gives this record of its trace.
//!
//! See docs/CLAIMS.md, 'The laws of a history'.
#![tactic(auto)]

mod laws;

pub use laws::made_histories;
