//! A core's port as the authority of its endpoint calls.

ghost use Rattle.std.specs.Prelude.{◌≡◌};
ghost use Rattle.async_ends.specs.Looks.{NamesBelow};

use async_ends::Authority;
use core_machine::Port;
use spk_nums::{Call, CapId, Make, Reply, Value};

/// The port. Each look of an endpoint call is a call of its core.
#[derive(Drop)]
pub(crate) struct Looker {
    pub(crate) port: Port,
}

// A capability's frame is below 512. This does nothing.
fn names_below(reply: &Reply)
    ensures { NamesBelow 512 reply.now }
{
    match reply {
        Reply::Ok(Value::Cap(cap)) => {
            let _frame = cap.frame().number();
        }
        _ => {}
    }
}

impl Authority for Looker {
    ghost use Rattle.ends_runners.specs.Looks.{looks_in, HasLooked};

    ghost looks = { λ l. looks_in l.port };

    ghost frame_count = { λ _. 512 };

    ghost goes = { λ l look made. HasLooked l.port look made.port };

    fn frames(&self) -> u16 {
        512
    }

    fn look(&mut self, number: CapId) -> Reply {
        let _made: Option<Make> = None;
        // So the proof learns what the port has seen.
        let _core = self.port.core();
        let reply = self.port.call(Call::Look { a: number });
        names_below(&reply);
        reply
    }
}
