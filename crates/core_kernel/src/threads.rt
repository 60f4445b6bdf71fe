//! Threads may share a kernel, and its seats and notes may move to others.

use crate::kernel::Kernel;
use crate::seat::{CoreNote, CoreSeat};

const fn is_send<T: Send>() {}

const fn is_sync<T: Sync>() {}

/// Threads may share a kernel, and a kernel, its seats and its notes may move between them. It is proved here,
/// where the types stand, and does nothing.
pub fn cross_threads() {
    is_send::<Kernel>();
    is_sync::<Kernel>();
    is_send::<CoreSeat>();
    is_send::<CoreNote>();
}
