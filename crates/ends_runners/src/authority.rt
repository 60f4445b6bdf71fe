//! A core of the kernel as the authority of its endpoint calls.

ghost use Rattle.std.specs.Prelude.{◌≡◌};
ghost use Rattle.core_kernel.specs.Calls.{HasSeen};
ghost use Rattle.async_ends.specs.Looks.{NamesBelow};

use async_ends::Authority;
use core_kernel::{CoreSeat, Kernel};
use spk_nums::{Call, CapId, CoreNo, Make, Reply, Value};
use std::marker::Model;

/// The most frames of a machine.
pub const MOST_FRAMES: u16 = 512;

/// The seat of a core at its kernel. Each look of an endpoint call is a call of the core.
#[derive(Drop)]
pub struct SeatAuthority<'a> {
    kernel: &'a Kernel,
    seat: CoreSeat,
}

impl<'a> Model for SeatAuthority<'a> {
    ghost use Rattle.core_kernel.specs.Kernel.{CoreSeatValue};

    ghost Value = { CoreSeatValue };

    ghost view = { λ a. a.seat };

    ghost use Rattle.std.specs.Prelude.{◌≡◌};
    ghost use Rattle.core_kernel.specs.Calls.{HasSeen};

    ghost invariant = { λ a. (a.seat.kernel ≡ a.kernel.now) × HasSeen a.seat };
}

impl<'a> SeatAuthority<'a> {
    /// The seat of a core at this kernel.
    pub fn new(kernel: &'a Kernel, seat: CoreSeat) -> SeatAuthority<'a>
        requires { seat.kernel ≡ kernel.now }
        ensures { result ≡ seat }
    {
        // So the proof learns what holds of every seat.
        let _front = seat.front();
        SeatAuthority { kernel, seat }
    }

    /// The core. Its contract also says what holds of the seat: what it has seen is a legal history.
    pub fn core(&self) -> CoreNo
        ensures core { result ≡ self.now.core }
        ensures seen { HasSeen self.now }
    {
        self.seat.front().core
    }

    /// The seat itself.
    pub fn seat(self) -> CoreSeat
        ensures { result ≡ self.entry }
    {
        let SeatAuthority { seat, .. } = self;
        seat
    }
}

// A capability's frame is below 512. This does nothing.
fn names_below(reply: &Reply)
    ensures { NamesBelow 512 reply.now }
{
    match reply {
        Reply::Ok(Value::Cap(cap)) => {
            let _frame = cap.frame().number();
        }
        _ => {}
    }
}

impl<'a> Authority for SeatAuthority<'a> {
    ghost use Rattle.ends_runners.specs.Looks.{looks_in, HasLooked};

    ghost looks = { looks_in };

    ghost frame_count = { λ _. 512 };

    ghost goes = { HasLooked };

    fn frames(&self) -> u16 {
        MOST_FRAMES
    }

    fn look(&mut self, number: CapId) -> Reply {
        let _made: Option<Make> = None;
        let reply = self.kernel.call(&mut self.seat, Call::Look { a: number });
        names_below(&reply);
        reply
    }
}
