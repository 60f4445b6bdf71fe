//! A table may be shared between threads, and its seats and notes may move to others, where the program may.

use crate::program::CoreProgram;
use crate::seat::{TurnNote, TurnSeat};
use crate::table::TurnTable;

const fn is_send<T: Send>() {}

const fn is_sync<T: Sync>() {}

/// Threads may share a table, and a table, its seats and its notes may move between them. It is proved here, where the
/// types stand, and does nothing.
pub fn cross_threads<P: CoreProgram + Send>() {
    is_send::<TurnTable<P>>();
    is_sync::<TurnTable<P>>();
    is_send::<TurnSeat<P>>();
    is_send::<TurnNote<P>>();
}
