//! What a handle holds.

use end_ports::{CoreNote, EndPort, EndSeats};
use final_parts::Last;

/// What a handle may hold.
#[derive(Drop)]
pub enum What {
    /// A machine: a kernel and its endpoints, with their seats.
    Machine(EndSeats),
    /// A core's port.
    Core(EndPort),
    /// A note.
    Told(CoreNote),
    /// What a machine that was finished has left.
    Final(Last),
    /// The text of its tables.
    Tables(String),
}

/// What a handle holds, in one type for all that it may be.
#[derive(Drop)]
pub struct Held {
    pub what: What,
}

const fn is_send<T: Send>() {}

/// What a handle holds may move between threads, whatever it is. It is proved here, where the types stand, and does nothing.
pub fn cross_threads() {
    is_send::<Held>();
}
