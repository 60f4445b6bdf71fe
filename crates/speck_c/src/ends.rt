//! How ports come back, and how a machine is finished.

ghost use Rattle.std.specs.Prelude.{◌≡◌, ◌≢◌, ◌<◌, ◌++◌, ◌∷◌, ◌⊎◌, [], ℕ, length, slice_get, Some, None, IfSome, IsSome};
ghost use Rattle.speck_c.specs.Slots.{held_in, port_held, port_of};
ghost use Rattle.speck_c.specs.Machines.{machine_held, machine_of};
ghost use Rattle.speck_c.specs.Ends.{AreOfMachine, EndsHeld, Finishes, HasBack, HoldsBack, TakesBack};

use crate::held::{Held, What};
use crate::machines::core_of;
use crate::slot::Slot;
use end_ports::{EndSeats, Unended};
use final_parts::Last;
use std::alloc::Global;
use std::mem;

// Takes the port that is held back.
fn take_held_back(seats: &mut EndSeats, held: Box<Held>)
    requires some { IsSome (port_of held.value.what) }
    requires kernel { IfSome (port_of held.value.what) (λ p. p.port.kernel ≡ seats.old.seats.kernel) }
    requires core { IfSome (port_of held.value.what) (λ p. p.port.core ≡ length seats.old.seats.back) }
    ensures { IfSome (port_of held.value.what) (λ p. HasBack seats.old p seats.new) }
{
    let Held { what } = Box::into_inner(held);
    match what {
        What::Core(port) => seats.take_back(port),
        _ => unreachable!(),
    }
}

// Takes back the port in the slot.
fn take_port_back(alloc: Global, seats: &mut EndSeats, port: &mut Slot) -> u8
    requires { AreOfMachine (Some seats.old) (port_held (held_in port.old)) }
    ensures none { port_held (held_in port.old) ≡ None
        → (result ≡ 254) × (seats.new ≡ seats.old) × (held_in port.new ≡ held_in port.old) }
    ensures taken { IfSome (port_held (held_in port.old))
        (λ p. TakesBack seats.old p result seats.new (held_in port.old) (held_in port.new)) }
{
    let Some(held) = port.take(alloc) else {
        return 254;
    };
    let Some(core) = core_of(&held) else {
        port.put(held);
        return 254;
    };
    if usize::from(core) != seats.returned() {
        port.put(held);
        return 245;
    }
    take_held_back(seats, held);
    0
}

// The same of a machine that is held.
fn back_held(alloc: Global, held: &mut Held, port: &mut Slot) -> u8
    requires { AreOfMachine (machine_of held.old.what) (port_held (held_in port.old)) }
    ensures machine { machine_of held.old.what ≡ None
        → (result ≡ 254) × (held.new ≡ held.old) × (held_in port.new ≡ held_in port.old) }
    ensures none { port_held (held_in port.old) ≡ None
        → (result ≡ 254) × (held.new ≡ held.old) × (held_in port.new ≡ held_in port.old) }
    ensures taken { IfSome (machine_of held.old.what) (λ m. IfSome (port_held (held_in port.old))
        (λ p. HoldsBack m p result (machine_of held.new.what) (held_in port.old) (held_in port.new))) }
{
    match &mut held.what {
        What::Machine(seats) => take_port_back(alloc, seats, port),
        _ => 254,
    }
}

/// Takes a port of the machine back, core 0's first, empties its slot, and answers 0. Else, with nothing changed, 254 where no
/// machine or no port is held, and 245 where the ports with lower numbers are not all back. It takes no memory. A machine and a port that are held are of one kernel.
#[unsafe(no_mangle)]
pub extern "C" fn speck_inner_take_back(alloc: Global, machine: &mut Slot, port: &mut Slot) -> u8
    requires { AreOfMachine (machine_held (held_in machine.old)) (port_held (held_in port.old)) }
    ensures machine { machine_held (held_in machine.old) ≡ None
        → (result ≡ 254) × (held_in machine.new ≡ held_in machine.old) × (held_in port.new ≡ held_in port.old) }
    ensures none { port_held (held_in port.old) ≡ None
        → (result ≡ 254) × (held_in machine.new ≡ held_in machine.old) × (held_in port.new ≡ held_in port.old) }
    ensures taken { IfSome (machine_held (held_in machine.old)) (λ m. IfSome (port_held (held_in port.old))
        (λ p. HoldsBack m p result (machine_held (held_in machine.new)) (held_in port.old) (held_in port.new))) }
{
    let Some(mut held) = machine.take(alloc) else {
        return 254;
    };
    let answer = back_held(alloc, &mut held, port);
    machine.put(held);
    answer
}

// Has what is held be what the machine that was held has left. Else it stays.
fn end_held(alloc: Global, held: &mut Held) -> u8
    ensures none { machine_of held.old.what ≡ None → (result ≡ 254) × (held.new ≡ held.old) }
    ensures ends { IfSome (machine_of held.old.what) (λ m. EndsHeld m result held.old held.new) }
{
    match mem::replace(&mut held.what, What::Tables(String::new(alloc))) {
        What::Machine(seats) => {
            let all_back = seats.returned() == usize::from(seats.cores());
            match seats.finish(alloc) {
                Ok(closed) => {
                    held.what = What::Final(Last::new(closed));
                    0
                }
                Err(Unended { seats, fault: _ }) => {
                    held.what = What::Machine(seats);
                    if all_back { 247 } else { 246 }
                }
            }
        }
        other => {
            held.what = other;
            254
        }
    }
}

/// Finishes the machine, whose slot is then empty, puts what it has left into an empty slot, and answers 0. Else, with nothing changed, 240
/// where that slot is not empty; 254 where no machine is held; 246 where a port is not back; 247 where memory has run out.
#[unsafe(no_mangle)]
pub extern "C" fn speck_inner_finish(alloc: Global, machine: &mut Slot, last: &mut Slot) -> u8
    ensures full { held_in last.old ≢ None
        → (result ≡ 240) × (held_in last.new ≡ held_in last.old) × (held_in machine.new ≡ held_in machine.old) }
    ensures none { held_in last.old ≡ None → machine_held (held_in machine.old) ≡ None
        → (result ≡ 254) × (held_in last.new ≡ None) × (held_in machine.new ≡ held_in machine.old) }
    ensures finishes { held_in last.old ≡ None → IfSome (machine_held (held_in machine.old))
        (λ m. Finishes m result (held_in machine.old) (held_in machine.new) (held_in last.new)) }
{
    if !last.is_empty() {
        return 240;
    }
    let Some(mut held) = machine.take(alloc) else {
        return 254;
    };
    let answer = end_held(alloc, &mut held);
    if answer == 0 {
        last.put(held);
    } else {
        machine.put(held);
    }
    answer
}
