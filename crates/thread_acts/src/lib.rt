//! The steps of the acts that change where a core works, and the time that it has: a core enters a component and leaves it, switches to
//! another thread, charges ticks and has them back, and moves time between two temporal capabilities.
//!
//! Each function computes one of `act_states`, where the types and the definitions stand; `call_acts` chooses among them.
#![tactic(auto)]

mod invocations;
mod refills;
mod shares;
mod switches;
mod ticks;

pub use invocations::{
    below_in, invoking_op, invoking_ready, invoking_took, returning_op, returning_ready,
    returning_took,
};
pub use refills::{is_refilling, refill_op, refill_took};
pub use shares::{is_sharing, share_op, share_took};
pub use switches::{switching_op, switching_ready, switching_took};
pub use ticks::{is_charging, tick_op, tick_took};
