//! A machine, its ports and its notes may move between threads.

use crate::port::Port;
use crate::seats::Seats;
use core_kernel::CoreNote;

const fn is_send<T: Send>() {}

/// A machine's seats, its ports and its notes may move between threads. It is proved here, where the types stand, and does
/// nothing.
pub fn cross_threads() {
    is_send::<Seats>();
    is_send::<Port>();
    is_send::<CoreNote>();
}
