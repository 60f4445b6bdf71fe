//! Asynchronous endpoints: each frame of the kernel has a count beside the kernel's table, to which cores send and from
//! which they receive.
//!
//! **Sends and receives.** A send through a gate adds one to the count of the gate's component. A receive through a
//! component capability takes the whole count. Before it each call asks an authority for the capability that it names, by
//! a look, and the step with which it begins has that look: so the look comes before it. No right is tested, and no epoch:
//! a send to a component that was killed counts all the same.
//!
//! **Steps.** A send is one fetch-and-add. A receive loads the count; where it is 0 it took nothing, else it puts 0 in
//! place of the count loaded by one compare, and answers that it was raced where it finds another count. No call takes
//! memory, waits for another core, or tries anything a second time.
//!
//! **One history.** The steps of all cores are one history, of which each seat has seen a beginning. A receive that was
//! not raced took exactly the sends to its frame since the last receive there that took some, so no send is lost and none
//! is taken twice. A receive was raced exactly where its compare found another count than its load: another core sent to
//! its frame, or took some there, between the two.
//!
//! **Counts are the frames'.** A component made later in a frame receives what was sent to the one before it. The order
//! of sends and receives is that of this table alone: but for each call's own look, nothing says how they stand to the
//! steps of the kernel.
#![tactic(auto)]

ghost use Rattle.async_ends.specs.Refusals.{HistoriesRefuse};

mod asks;
mod authority;
mod endpoint;
mod ends;
mod run;
mod seat;
mod table;
mod threads;

pub use asks::{EndAsk, EndDone, Look};
pub use authority::Authority;
pub use endpoint::{EndAct, EndCall, EndOp, EndReply};
pub use run::{EndRun, EndStage};
pub use seat::EndSeat;
pub use table::EndTable;
pub use threads::cross_threads;

/// What a legal history refuses: a receive that is raced though nothing came between its two steps, or takes another count
/// than the one that it has loaded; a compare without a load; a call within another, or at a frame to which its look has not
/// led.
#[tactic(auto, using(crate::proofs::Refused::histories_refuse))]
pub fn histories_refuse()
    ensures { HistoriesRefuse }
{}
