//! What a call does between its look-ups and its decision, as types and as functions of plain values.
//!
//! **Types.** The work of an undecided call (`Work`), its act (`Act`) with where each stands between two steps, what a step of the work
//! leads to (`WorkStep`), what a decided call has still to store (`Tail`), what a core has of its own (`Own`), and the refusals.
//!
//! **Functions.** The definitions in this crate's specs say which step comes next, and what the word found makes of the call. What is
//! proved above of the step machine is proved of these.
//!
//! The code that computes them is of `call_acts`, whose head says each act in words.
//!
//! See docs/FORMATS.md, 'Steps of calls', and docs/CLAIMS.md, 'Steps of calls'.
#![tactic(auto)]

mod comps;
mod fills;
mod invocations;
mod kills;
mod laws;
mod lookups;
mod makings;
mod objects;
mod own;
mod refusals;
mod switches;
mod touches;
mod typings;
mod untypings;
mod work;

pub use call_plans;
pub use comps::{CompAt, CompMaking, LastEpoch};
pub use entry_words;
pub use fills::Fill;
pub use frame_words;
pub use invocations::{Invoking, InvokingAt, Returning, ReturningAt};
pub use kills::{Killing, KillingAt};
pub use laws::refusals_are_replies;
pub use lookups::Met;
pub use makings::{Making, MakingAt};
pub use objects::{NewObject, object_cap, object_made};
pub use own::{Own, OwnChange};
pub use refusals::Refusal;
pub use stage_look;
pub use stage_pins;
pub use stage_quiet;
pub use stage_sweep;
pub use stage_tcap;
pub use stage_thread;
pub use switches::{SwitchAt, Switching};
pub use tcap_words;
pub use touches::Touching;
pub use typings::{Typing, TypingAt};
pub use untypings::{Release, Untyping, UntypingAt};
pub use word_map;
pub use work::{Act, Due, Tail, Work, WorkStep};
