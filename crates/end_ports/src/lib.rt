//! Ports that also send and receive: each core's port at the kernel goes with its seat at the endpoints.
//!
//! **Ends.** A send or a receive is a look of the core at the capability that it names, then one or two steps at the endpoint of the frame
//! that the look led to. A core makes 2^40 - 1 of them; a further one is refused by `calls-spent`.
//!
//! **Machines.** `EndSeats` boots a kernel and a table of endpoints, and deals a port for each core. What was sent and not taken when the
//! machine is finished is dropped.
//!
//! See docs/MODEL.md, 'Endpoints'.
#![tactic(auto)]

mod end;
mod finish;
mod looker;
mod port;
mod seats;
mod threads;

pub use async_ends::EndReply;
pub use core_machine::{CoreNote, FinishFault};
pub use finish::Unended;
pub use port::EndPort;
pub use seats::EndSeats;
pub use threads::cross_threads;
