//! Threads may share a table of endpoints, and its seats may move to others.

use crate::seat::EndSeat;
use crate::table::EndTable;

const fn is_send<T: Send>() {}

const fn is_sync<T: Sync>() {}

/// Threads may share a table, and a table and its seats may move between them. It is proved here, where the types stand,
/// and does nothing.
pub fn cross_threads() {
    is_send::<EndTable>();
    is_sync::<EndTable>();
    is_send::<EndSeat>();
}
