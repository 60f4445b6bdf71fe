//! A call made by the port that a slot holds.

ghost use Rattle.std.specs.Prelude.{◌≡◌, MatchOption};
ghost use Rattle.spk_nums.specs.CallLimits.{InLimits};
ghost use Rattle.speck_c.specs.Slots.{HasAnswered, IsCalled, IsOutside, held_in, port_held, port_of};
ghost use Rattle.std.specs.Prelude.{Some, None};

use crate::held::{Held, What};
use crate::reply::{SpeckReply, blank_reply, flat_reply};
use crate::slot::Slot;
use spk_nums::{Call, Make, Reply, in_limits};
use std::alloc::Global;

// Makes the call where a port is held.
#[inline(always)]
fn call_held(held: &mut Held, call: Call) -> Option<Reply>
    requires { InLimits call }
    ensures { MatchOption (port_of held.old.what) ((result ≡ None) × (held.new ≡ held.old))
        (λ p. HasAnswered p call result (port_of held.new.what)) }
{
    let _made: Option<Make> = None;
    match &mut held.what {
        What::Core(port) => Some(port.call(call)),
        _ => None,
    }
}

// Makes the call of the port in the slot, and tells its reply.
#[inline(always)]
pub(crate) fn make_call(alloc: Global, slot: &mut Slot, call: Call) -> SpeckReply
    requires { InLimits call }
    ensures { IsCalled (held_in slot.old) call result (held_in slot.new) }
{
    let _made: Option<Make> = None;
    let Some(mut held) = slot.take(alloc) else {
        return blank_reply(254);
    };
    let made = call_held(&mut held, call);
    slot.put(held);
    match made {
        Some(reply) => flat_reply(reply),
        None => blank_reply(254),
    }
}

// Makes the call where it is in its limits.
#[inline(always)]
pub(crate) fn try_call(alloc: Global, slot: &mut Slot, call: Call) -> SpeckReply
    ensures called { InLimits call → IsCalled (held_in slot.old) call result (held_in slot.new) }
    ensures outside { ¬ InLimits call → IsOutside (held_in slot.old) result (held_in slot.new) }
{
    let _made: Option<Make> = None;
    if in_limits(&call) {
        make_call(alloc, slot, call)
    } else {
        blank_reply(255)
    }
}
