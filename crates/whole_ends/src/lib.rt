//! Sources read to their end, and texts written whole.
//!
//! See docs/PROOF.md, 'From the bytes read to the bytes written'.
#![tactic(auto)]

mod ends;

pub use ends::{LIMIT, ReadError, read_all, write_all};
