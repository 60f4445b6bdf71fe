//! Notes, which one thread hands to another.

ghost use Rattle.std.specs.Prelude.{◌≡◌, ◌≢◌, Some, None, IfSome, IfNone, IsTrue, IsSome, ◌↔◌, MatchOption};
ghost use Rattle.end_ports.specs.core_machine.specs.core_kernel.specs.Calls.{Meets};
ghost use Rattle.speck_c.specs.Slots.{held_in, port_held, port_of};
ghost use Rattle.speck_c.specs.Machines.{AreOfOne, HoldsMet, Notes, Tells, note_held, note_of};

use crate::held::{Held, What};
use crate::machines::put_new;
use crate::slot::Slot;
use end_ports::{CoreNote, EndPort};
use std::alloc::Global;

// A note of the port that is held, which stays as it is.
fn note_from(held: &mut Held) -> Option<CoreNote>
    ensures same { held.new ≡ held.old }
    ensures note { MatchOption (port_of held.old.what) (result ≡ None) (λ p. IsSome result × IfSome result (λ n. Tells p n)) }
{
    match &mut held.what {
        What::Core(port) => Some(port.note()),
        _ => None,
    }
}

/// Puts a note of what the port has seen into an empty slot, and answers 0; the port stays as it is. Else 240 where the note's
/// slot is not empty; 254 where no port is held; 247 where memory has run out.
#[unsafe(no_mangle)]
pub extern "C" fn speck_inner_note(alloc: Global, port: &mut Slot, note: &mut Slot) -> u8
    ensures full { held_in note.old ≢ None → (result ≡ 240) × (held_in note.new ≡ held_in note.old) × (held_in port.new ≡ held_in port.old) }
    ensures none { held_in note.old ≡ None → port_held (held_in port.old) ≡ None
        → (result ≡ 254) × (held_in note.new ≡ None) × (held_in port.new ≡ held_in port.old) }
    ensures notes { held_in note.old ≡ None → IfSome (port_held (held_in port.old))
        (λ p. Notes p result (port_held (held_in port.new)) (held_in note.new)) }
{
    if !note.is_empty() {
        return 240;
    }
    let Some(mut held) = port.take(alloc) else {
        return 254;
    };
    let told = note_from(&mut held);
    port.put(held);
    match told {
        Some(told) => {
            if put_new(alloc, note, What::Told(told)) {
                0
            } else {
                247
            }
        }
        None => 254,
    }
}

// Whether a note is held.
fn is_note(held: &Held) -> bool
    ensures { IsTrue result ↔ IsSome (note_of held.now.what) }
{
    match &held.what {
        What::Told(_) => true,
        _ => false,
    }
}

// Has the port meet the note in the slot, which is then empty.
fn meet_port(alloc: Global, port: &mut EndPort, note: &mut Slot) -> u8
    requires { AreOfOne (Some port.old) (note_held (held_in note.old)) }
    ensures none { note_held (held_in note.old) ≡ None → (result ≡ 254) × (port.new ≡ port.old) × (held_in note.new ≡ held_in note.old) }
    ensures met { IfSome (note_held (held_in note.old)) (λ n. (result ≡ 0) × Meets port.old.port n port.new.port × (port.new.end ≡ port.old.end) × (held_in note.new ≡ None)) }
{
    let Some(told) = note.take(alloc) else {
        return 254;
    };
    if !is_note(&told) {
        note.put(told);
        return 254;
    }
    let Held { what } = Box::into_inner(told);
    match what {
        What::Told(note) => {
            port.meet(note);
            0
        }
        _ => unreachable!(),
    }
}

// The same of a port that is held.
fn meet_held(alloc: Global, held: &mut Held, note: &mut Slot) -> u8
    requires { AreOfOne (port_of held.old.what) (note_held (held_in note.old)) }
    ensures port { port_of held.old.what ≡ None → (result ≡ 254) × (held.new ≡ held.old) × (held_in note.new ≡ held_in note.old) }
    ensures none { note_held (held_in note.old) ≡ None → (result ≡ 254) × (held.new ≡ held.old) × (held_in note.new ≡ held_in note.old) }
    ensures met { IfSome (port_of held.old.what) (λ p. IfSome (note_held (held_in note.old))
        (λ n. (result ≡ 0) × HoldsMet p n (port_of held.new.what) × (held_in note.new ≡ None))) }
{
    match &mut held.what {
        What::Core(port) => meet_port(alloc, port, note),
        _ => 254,
    }
}

/// Tells the port all that the note tells, empties the note's slot, and answers 0. Else 254, and nothing changes, where no port
/// or no note is held. A port and a note that are held are of one kernel.
#[unsafe(no_mangle)]
pub extern "C" fn speck_inner_meet(alloc: Global, port: &mut Slot, note: &mut Slot) -> u8
    requires { AreOfOne (port_held (held_in port.old)) (note_held (held_in note.old)) }
    ensures port { port_held (held_in port.old) ≡ None
        → (result ≡ 254) × (held_in port.new ≡ held_in port.old) × (held_in note.new ≡ held_in note.old) }
    ensures none { note_held (held_in note.old) ≡ None
        → (result ≡ 254) × (held_in port.new ≡ held_in port.old) × (held_in note.new ≡ held_in note.old) }
    ensures met { IfSome (port_held (held_in port.old)) (λ p. IfSome (note_held (held_in note.old)) (λ n. (result ≡ 0)
        × HoldsMet p n (port_held (held_in port.new)) × (held_in note.new ≡ None))) }
{
    let Some(mut held) = port.take(alloc) else {
        return 254;
    };
    let answer = meet_held(alloc, &mut held, note);
    port.put(held);
    answer
}
