//! Laws of time on the machine's traces: that budgets and spent ticks sum to the grants, and what the words of temporal capabilities show
//! at each moment, also while calls that mark them have still to store.
//!
//! The statements stand in `specs/Time.antt` of `history_laws`; `flight_laws` has them in its record of all that holds of a history.
//!
//! See docs/PROOF.md, 'Two temporal capabilities'.
#![tactic(auto)]

mod laws;

pub use laws::marked_heads_say;
