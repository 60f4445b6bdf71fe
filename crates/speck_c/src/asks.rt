//! Sends and receives at endpoints.

ghost use Rattle.std.specs.Prelude.{◌≡◌, ◌<◌, Some, None, MatchOption};
ghost use Rattle.end_ports.specs.async_ends.specs.declared.endpoint.EndOp.TheVariants.{Send, Recv};
ghost use Rattle.speck_c.specs.Asks.{HasReplied, IsAsked, fitted, flat_end};
ghost use Rattle.speck_c.specs.Slots.{held_in, port_of};

use crate::held::{Held, What};
use crate::reply::{SpeckReply, blank_reply, flat_reply};
use crate::slot::Slot;
use end_ports::EndReply;
use spk_nums::{CapId, Reply, Value};
use std::alloc::Global;

// The answer that tells what became of a send or a receive.
fn flat_end_reply(reply: EndReply) -> SpeckReply
    ensures { result ≡ flat_end reply }
{
    match reply {
        EndReply::Sent => flat_reply(Reply::Ok(Value::Nothing)),
        EndReply::Taken(count) => flat_reply(Reply::Ok(Value::Amount(fitted(count)))),
        EndReply::Raced => flat_reply(Reply::Raced),
        EndReply::Refused(refusal) => flat_reply(refusal),
    }
}

// A count in 32 bits.
fn fitted(count: u64) -> u32
    ensures { result ≡ fitted count }
{
    if count < 4_294_967_296 {
        count as u32
    } else {
        4_294_967_295
    }
}

// Sends by the port that is held.
fn send_held(held: &mut Held, gate: CapId) -> Option<EndReply>
    ensures { MatchOption (port_of held.old.what) ((result ≡ None) × (held.new ≡ held.old))
        (λ p. HasReplied Send gate p result (port_of held.new.what)) }
{
    match &mut held.what {
        What::Core(port) => Some(port.send(gate)),
        _ => None,
    }
}

// Receives by the port that is held.
fn recv_held(held: &mut Held, comp: CapId) -> Option<EndReply>
    ensures { MatchOption (port_of held.old.what) ((result ≡ None) × (held.new ≡ held.old))
        (λ p. HasReplied Recv comp p result (port_of held.new.what)) }
{
    match &mut held.what {
        What::Core(port) => Some(port.recv(comp)),
        _ => None,
    }
}

/// Sends one to the component of the gate, by the port's core.
#[unsafe(no_mangle)]
pub extern "C" fn speck_inner_send(alloc: Global, port: &mut Slot, gate: u16) -> SpeckReply
    ensures { IsAsked Send (held_in port.old) gate result (held_in port.new) }
{
    let Some(mut held) = port.take(alloc) else {
        return blank_reply(254);
    };
    let told = send_held(&mut held, CapId::new(gate));
    port.put(held);
    match told {
        Some(reply) => flat_end_reply(reply),
        None => blank_reply(254),
    }
}

/// Takes all that was sent to the component and was not taken yet, by the port's core. The answer's number is how many that were.
#[unsafe(no_mangle)]
pub extern "C" fn speck_inner_recv(alloc: Global, port: &mut Slot, comp: u16) -> SpeckReply
    ensures { IsAsked Recv (held_in port.old) comp result (held_in port.new) }
{
    let Some(mut held) = port.take(alloc) else {
        return blank_reply(254);
    };
    let told = recv_held(&mut held, CapId::new(comp));
    port.put(held);
    match told {
        Some(reply) => flat_end_reply(reply),
        None => blank_reply(254),
    }
}
