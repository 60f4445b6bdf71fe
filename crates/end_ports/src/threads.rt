//! A machine with endpoints and its ports may move between threads.

use crate::port::EndPort;
use crate::seats::EndSeats;

const fn is_send<T: Send>() {}

/// A machine's seats and its ports may move between threads. It is proved here, where the types stand, and does nothing.
pub fn cross_threads() {
    is_send::<EndSeats>();
    is_send::<EndPort>();
}
