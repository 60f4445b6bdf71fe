//! Tests of ports whose type tells their kernel: a note behind a lock, which one core leaves there and another takes.
#![tactic(auto)]

ghost use Rattle.std.specs.Prelude.{◌≡◌, Some};

use core_machine::{Names, NoteOf, PortOf};
use spk_nums::{Call, CapId, Rights};
use std::sync::{Mutex, Wait};

/// Core 1 fills the entry 20, and leaves a note of that behind the lock.
pub fn leave_note<K: Names + Send + Sync>(
    rt: &(impl Wait + Sync),
    port: &mut PortOf<K>,
    board: &Mutex<Option<NoteOf<K>>>,
) {
    if port.core().number() == 1 {
        let _copied = port.call(Call::Copy {
            a: CapId::new(0),
            t: CapId::new(1),
            b: CapId::new(20),
            rights: Rights::both(),
        });
        let note = port.note();
        let mut left = board.lock(rt);
        *left = Some(note);
    }
}

#[cfg(test)]
mod tests {
    use super::leave_note;
    use core_machine::{Names, Seats, SeatsOf};
    use spk_nums::{Call, CapId, Reply, Setup};
    use std::alloc::Global;
    use std::marker::Brand;
    use std::sync::{Mutex, Wait};
    use std::thread::{self, Threads};

    // Whether core 0 finds something at the entry 20 once it has met the note that core 1 left; not where there was no note.
    fn seen_behind<K: Names + Send + Sync, R: Threads + Wait + Sync>(
        rt: &R,
        alloc: Global,
        seats: Seats,
    ) -> bool
        requires { K.kernel ≡ Some seats.kernel }
    {
        let mut machine = SeatsOf::<K>::new(seats);
        let Ok(mut ports) = machine.deal_all(alloc) else {
            return false
        };
        let board = Mutex::new(None);
        thread::for_each_mut(rt, &mut ports, 8, &|_, port| leave_note(rt, port, &board));
        let left = board.lock(rt).take();
        match (ports.first_mut(), left) {
            (Some(first), Some(note)) => {
                first.meet(note);
                matches!(first.call(Call::Look { a: CapId::new(20) }), Reply::Ok(_))
            }
            _ => false,
        }
    }

    fn started<R: Threads + Wait + Sync>(rt: &R, alloc: Global, seats: Seats) -> bool {
        seen_behind::<Brand, R>(rt, alloc, seats)
    }

    #[test]
    fn a_note_behind_a_lock_is_met_by_another_port_of_its_kernel(rt: HostRuntime) {
        let setup = Setup::equal(2, 32, 100).expect(&rt, "a setup within the limits");
        let seats = Seats::boot(rt.alloc(), &setup).expect(&rt, "memory");
        assert!(rt; started(&rt, rt.alloc(), seats), "the copy is seen");
    }
}
