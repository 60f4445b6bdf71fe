//! What a decided call stores: its tail, then its counts, the earliest first, and then the load of the clock, which begins its exit.
//!
//! What a decided call has still to store is known when it is decided, and is carried out by stores alone. Counters that it has frozen, and
//! their frame's word, come after its counts.
//!
//! Each function computes one of `call_stages`, where the types and the definitions stand.
#![tactic(auto)]

mod stores;
mod tails;
mod words;

pub use stores::store;
pub use tails::tail_op;
