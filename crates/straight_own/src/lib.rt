//! Calls on what a core has of its own, made straight through: ticks, flushes and touches.
//!
//! A tick charges the core's temporal capability, a flush drops the translations that the core has cached, and a touch answers one of them,
//! or caches one more. Each acquires no count. A head that another core has marked, a compare that is lost, and a page that is not mapped
//! fall back to the step machine, with the act as it stood before that step.
#![tactic(auto)]

mod times;
mod touches;

pub use times::{flush, tick};
pub use touches::touch;
