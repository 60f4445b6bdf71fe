//! What all seats have seen is told to each.

ghost use Rattle.std.specs.Prelude.{◌≡◌, ◌<◌, length};
ghost use Rattle.ends_runners.specs.Meets.{AreOf, Tells, HasGathered, HasSpread, HaveMet};

use core_kernel::{CoreSeat, Kernel};

// The seat at one place tells the seat at the other what it has seen.
fn tell(kernel: &Kernel, seats: &mut Vec<CoreSeat>, from: usize, to: usize)
    requires seats { AreOf kernel.now seats.old.items }
    requires from { from < length seats.old.items }
    requires to { to < length seats.old.items }
    ensures tells { Tells from to seats.old.items seats.new.items }
    ensures seats { AreOf kernel.now seats.new.items }
{
    let note = kernel.note(&mut seats[from]);
    kernel.meet(&mut seats[to], note);
}

// Tells the first seat what each other one has seen.
fn gather(kernel: &Kernel, seats: &mut Vec<CoreSeat>)
    requires seats { AreOf kernel.now seats.old.items }
    requires some { 0 < length seats.old.items }
    ensures gathered { HasGathered (length seats.old.items) seats.old.items seats.new.items }
    ensures seats { AreOf kernel.now seats.new.items }
{
    for core in 1..seats.len() {
        tell(kernel, seats, core, 0);
    }
}

// Tells each other seat what the first one has seen.
fn spread(kernel: &Kernel, seats: &mut Vec<CoreSeat>)
    requires seats { AreOf kernel.now seats.old.items }
    requires some { 0 < length seats.old.items }
    ensures spread { HasSpread (length seats.old.items) seats.old.items seats.new.items }
    ensures seats { AreOf kernel.now seats.new.items }
{
    for core in 1..seats.len() {
        tell(kernel, seats, 0, core);
    }
}

/// Tells each seat what all of them have seen: first the first seat, by a note of each other one, and then each other one, by
/// a note of the first. They are some seats of the kernel.
pub fn meet_all(kernel: &Kernel, seats: &mut Vec<CoreSeat>)
    requires seats { AreOf kernel.now seats.old.items }
    requires some { 0 < length seats.old.items }
    ensures met { HaveMet seats.old.items seats.new.items }
    ensures seats { AreOf kernel.now seats.new.items }
{
    gather(kernel, seats);
    spread(kernel, seats);
}
