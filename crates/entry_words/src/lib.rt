//! The packed word of a place in a node: free, held, closing or quiescing.
//!
//! See docs/FORMATS.md, 'Packed words'.
#![tactic(auto)]

mod entry;

pub use entry::{Entry, entry_spelling};
