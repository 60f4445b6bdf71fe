//! The rule of the shared table: cores make atomic steps on shared words, and all that they do is one trace.
//!
//! **Programs.** Each core runs a program, a plain value that says which atomic step it makes next and takes in the word
//! that the step tells. A step depends on the program's own state, on the call begun with it and on the word found.
//!
//! **Seats.** The table has one seat for each core. A seat makes the steps of its core, and it alone does. It has seen a
//! trace: a list of steps of all cores, the newest first. All steps of its own core stand in it.
//!
//! **One trace.** At every moment there is one trace of which each seat has seen a beginning. The words are those that
//! the trace leaves, and each core's program is what the trace makes of the one that the core had at the start. Each
//! step of the trace found the word that was last left at its place, and is the step that its core's program made.
//!
//! **Atomic steps.** A load, a compare, a store and an add are steps of a core and stand in the trace. A store tells the
//! program the word stored; the trace has the word found. Handing out a note, joining one in and the load after that
//! change what seats have seen, and stand in no trace.
//!
//! **Notes.** A note tells of what a seat has seen. A seat that meets it has then seen that and all before its load. So
//! what one thread has made, another knows to come before what it makes.
//!
//! **Memory.** A trace names words by their places. Where in memory the word of a place lies, a `Spread` says: places may
//! be cut into rows that share no line of memory. Distinct places lie apart, so nothing that a seat sees depends on it.
//!
//! See docs/PROOF.md, 'Taken steps'.
#![tactic(auto)]

mod ends;
mod plays;
mod program;
mod seat;
mod spread;
mod table;
mod threads;
mod view;
mod whole;

pub use program::CoreProgram;
pub use seat::{TurnNote, TurnSeat};
pub use spread::Spread;
pub use table::TurnTable;
pub use threads::cross_threads;
pub use view::{Entry, Start};
pub use whole::{TurnWords, WholeProgram};
