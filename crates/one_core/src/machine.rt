//! The machine.

ghost use Rattle.std.specs.Prelude.{◌≡◌};
ghost use Rattle.core_kernel.specs.kernel_history.specs.Trace.{state_after};
ghost use Rattle.core_kernel.specs.Calls.{HasSeen};

use core_kernel::{CoreSeat, Kernel};
use sched_run::Boot;
use sched_run::fixed_prio::Machine;
use spk_nums::{Call, Memory, Reply, Setup};
use std::alloc::Global;
use std::marker::Model;

/// A kernel of one core, and its seat. Contracts see it as the seat: its kernel, its core, which is 0, and the trace of its calls.
#[derive(Drop)]
pub struct OneCore {
    kernel: Kernel,
    seat: CoreSeat,
}

impl Model for OneCore {
    ghost use Rattle.std.specs.Prelude.{◌≡◌};
    ghost use Rattle.core_kernel.specs.Kernel.{CoreSeatValue};

    ghost Value = { CoreSeatValue };

    ghost view = { λ m. m.seat };

    ghost invariant = { λ m. (m.seat.kernel ≡ m.kernel) × (m.seat.core ≡ 0) × (m.seat.kernel.setup.cores ≡ 1) };
}

impl Machine for OneCore {
    ghost use Rattle.core_kernel.specs.kernel_history.specs.Trace.{calls_of};

    ghost setup = { λ m. m.kernel.setup };

    ghost made = { λ m. calls_of m.seen 0 };

    fn call(&mut self, call: Call) -> Reply {
        self.kernel.call(&mut self.seat, call)
    }
}

impl Boot for OneCore {
    fn boot(alloc: Global, setup: &Setup) -> Result<OneCore, Memory> {
        let (kernel, mut seats) = Kernel::boot(alloc, setup)?;
        match seats.pop() {
            Some(seat) => Ok(OneCore { kernel, seat }),
            None => unreachable!(),
        }
    }
}

impl OneCore {
    /// How many calls the core has counted, at most the setup's. Its contract also says what holds of every such machine: it has one core,
    /// core 0, which is between calls, and what it has seen is a history.
    pub fn counted(&self) -> u64
        ensures counted { result ≡ ((state_after self.now.kernel.setup self.now.seen).core self.now.core).counted }
        ensures one_core { self.now.kernel.setup.cores ≡ 1 }
        ensures core { self.now.core ≡ 0 }
        ensures seen { HasSeen self.now }
    {
        self.seat.front().calls
    }
}
