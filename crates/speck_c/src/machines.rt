//! Machines: how their ports are dealt, and how what is held is let go.

ghost use Rattle.std.specs.Prelude.{◌≡◌, ◌≢◌, ◌<◌, ◌≤◌, ◌⊎◌, Some, None, IfSome, MatchBool, MatchOption};
ghost use Rattle.speck_c.specs.Slots.{held_in, port_held, port_of};
ghost use Rattle.speck_c.specs.Machines.{Deals, machine_held, machine_of};

use crate::held::{Held, What};
use crate::slot::Slot;
use std::alloc::Global;

// Puts this into an empty slot; false where memory has run out.
pub(crate) fn put_new(alloc: Global, slot: &mut Slot, what: What) -> bool
    ensures { MatchBool result (held_in slot.new ≡ Some (record { what = what })) (held_in slot.new ≡ held_in slot.old) }
{
    match Box::new(alloc, Held { what }) {
        Ok(held) => {
            slot.put(held);
            true
        }
        Err(_) => false,
    }
}

// Room for what a slot is to hold; it holds an empty text till then. None where memory has run out.
fn room_for(alloc: Global) -> Option<Box<Held>> {
    let what = What::Tables(String::new(alloc));
    Box::new(alloc, Held { what }).ok()
}

// Puts this into an empty slot, in room that was had before.
fn put_in(mut room: Box<Held>, slot: &mut Slot, what: What)
    ensures { held_in slot.new ≡ Some (record { what = what }) }
{
    room.what = what;
    slot.put(room);
}

// Puts the port of the next core into an empty slot; room is had first, so that no port is lost.
fn deal_into(alloc: Global, held: &mut Held, port: &mut Slot) -> u8
    requires { held_in port.old ≡ None }
    ensures none { machine_of held.old.what ≡ None → (result ≡ 254) × (held.new ≡ held.old) × (held_in port.new ≡ None) }
    ensures deals { IfSome (machine_of held.old.what) (λ m. Deals m result (machine_of held.new.what) (held_in port.new)) }
{
    match &mut held.what {
        What::Machine(seats) => {
            let Some(room) = room_for(alloc) else {
                return 247;
            };
            match seats.deal() {
                Some(next) => {
                    put_in(room, port, What::Core(next));
                    0
                }
                None => 244,
            }
        }
        _ => 254,
    }
}

/// Puts the port of the machine's next core, core 0's first, into an empty slot, and answers 0. Else, with nothing changed, 240 where the
/// port's slot is not empty; 254 where no machine is held; 244 where each core has its port; 247 where memory has run out.
#[unsafe(no_mangle)]
pub extern "C" fn speck_inner_deal(alloc: Global, machine: &mut Slot, port: &mut Slot) -> u8
    ensures full { held_in port.old ≢ None → (result ≡ 240) × (held_in port.new ≡ held_in port.old)
        × (held_in machine.new ≡ held_in machine.old) }
    ensures none { held_in port.old ≡ None → machine_held (held_in machine.old) ≡ None
        → (result ≡ 254) × (held_in port.new ≡ None) × (held_in machine.new ≡ held_in machine.old) }
    ensures deals { held_in port.old ≡ None → IfSome (machine_held (held_in machine.old))
        (λ m. Deals m result (machine_held (held_in machine.new)) (held_in port.new)) }
{
    if !port.is_empty() {
        return 240;
    }
    let Some(mut held) = machine.take(alloc) else {
        return 254;
    };
    let answer = deal_into(alloc, &mut held, port);
    machine.put(held);
    answer
}

// The core of the port that is held.
pub(crate) fn core_of(held: &Held) -> Option<u8>
    ensures { MatchOption (port_of held.now.what) (result ≡ None) (λ p. result ≡ Some p.port.core) }
{
    match &held.what {
        What::Core(port) => Some(port.core().number()),
        _ => None,
    }
}

/// Answers the core of the port, 0 to 7; 254 where no port is held. The slot keeps what it holds.
#[unsafe(no_mangle)]
pub extern "C" fn speck_inner_core(alloc: Global, port: &mut Slot) -> u8
    ensures kept { held_in port.new ≡ held_in port.old }
    ensures core { MatchOption (port_held (held_in port.old)) (result ≡ 254) (λ p. result ≡ p.port.core) }
{
    let Some(held) = port.take(alloc) else {
        return 254;
    };
    let core = core_of(&held);
    port.put(held);
    match core {
        Some(core) => core,
        None => 254,
    }
}

/// Empties a machine's slot. A kernel is freed with the last of its machine and its ports.
#[unsafe(no_mangle)]
pub extern "C" fn speck_inner_free_machine(alloc: Global, machine: &mut Slot)
    ensures { held_in machine.new ≡ None }
{
    let _gone = machine.take(alloc);
}

/// Empties a port's slot.
#[unsafe(no_mangle)]
pub extern "C" fn speck_inner_free_port(alloc: Global, port: &mut Slot)
    ensures { held_in port.new ≡ None }
{
    let _gone = port.take(alloc);
}

/// Empties a note's slot.
#[unsafe(no_mangle)]
pub extern "C" fn speck_inner_free_note(alloc: Global, note: &mut Slot)
    ensures { held_in note.new ≡ None }
{
    let _gone = note.take(alloc);
}

/// Empties a finished machine's slot.
#[unsafe(no_mangle)]
pub extern "C" fn speck_inner_free_final(alloc: Global, last: &mut Slot)
    ensures { held_in last.new ≡ None }
{
    let _gone = last.take(alloc);
}
