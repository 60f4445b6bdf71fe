//! Runners may move to other threads.

use crate::runner::Runner;

const fn is_send<T: Send>() {}

/// Runners may move between threads. It is proved here, where the type stands, and does nothing.
pub fn cross_threads() {
    is_send::<Runner>();
}
