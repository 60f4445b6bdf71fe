//! Where each capability came from, kept while a run goes on.
//!
//! **A state and its origins.** `Origins` keeps the sequential kernel's state, in the plain kernel, and beside it for each place the
//! origin of what was put there last: the decisions that put it, its parent, the parent of that and so on, back to a capability of
//! the start. It is told each event of a run: that a core enters a call, how the call is decided, that the core returns.
//!
//! **As the parent stood.** What a call puts, and from what, is looked up before its change is made. So the parent may stand in the
//! very place that the call fills; and it may be removed, while the core waits for it.
//!
//! **Shared links.** A put appends one link, which goes on at the parent's first link: chains share what they have in common, and the
//! origin of a place is the place of its first link and the number of the capability of the start.
//!
//! **Exact.** After the events of a run, `chain` answers the chain of the definitions (`origin_rules`).
//!
//! See docs/ORIGINS.md.
#![tactic(auto)]

mod chain;
mod origins;
mod puts;
mod table;

pub use chain::Chain;
pub use origin_rules::{ChainLink, Step};
pub use origins::Origins;
