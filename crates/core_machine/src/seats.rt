//! All seats of a kernel: how they are dealt, and how they come back.

ghost use Rattle.std.specs.Prelude.{◌≡◌, ◌+◌, ◌++◌, ◌∷◌, ◌<◌, ◌↔◌, ℕ, [], length, slice_get, Some, IfOk, IfSome, IsSome, MatchOption};
ghost use Rattle.std.specs.Arc.{arc_value};
ghost use Rattle.core_kernel.specs.Kernel.{AreAllSeats, AreFresh, CoreSeatValue};
ghost use Rattle.core_machine.specs.Seats.{IsDealt, IsLeft};

use crate::port::Port;
use core_kernel::{CoreSeat, Kernel};
use spk_nums::{Memory, Setup};
use std::alloc::{AllocError, Global};
use std::marker::Model;
use std::sync::Arc;

/// A kernel and its seats. Contracts see the kernel, how many ports have been dealt, and the seats that are back.
#[derive(Drop)]
pub struct Seats {
    pub(crate) setup: Setup,
    pub(crate) kernel: Arc<Kernel>,
    pub(crate) here: Vec<Port>,
    pub(crate) back: Vec<CoreSeat>,
}

impl Model for Seats {
    ghost use Rattle.std.specs.Prelude.{◌≡◌, ◌-◌, ◌≤◌, length, vec_capacity};
    ghost use Rattle.std.specs.Arc.{arc_value};
    ghost use Rattle.core_machine.specs.Seats.{SeatsValue, HasSeats};

    ghost Value = { SeatsValue };

    ghost view = { λ s. record { kernel = arc_value s.kernel; dealt = s.setup.cores - length s.here.items; back = s.back.items } };

    ghost invariant = { λ s. ((arc_value s.kernel).setup ≡ s.setup)
        × HasSeats (arc_value s.kernel) s.here.items s.back.items
        × (s.setup.cores ≤ vec_capacity s.back) };
}

// A port for each seat, the last core's first.
fn ports_of(
    alloc: Global,
    kernel: &Arc<Kernel>,
    mut seats: Vec<CoreSeat>,
) -> Result<Vec<Port>, AllocError>
    requires all { AreAllSeats (arc_value kernel.now) seats.items }
    requires fresh { AreFresh seats.items }
    ensures count { IfOk result (λ v. length v.items ≡ length seats.items) }
    ensures left { IfOk result (λ v. (k : ℕ) (s : CoreSeatValue) → slice_get v.items k ≡ Some s → IsLeft (arc_value kernel.now) k s) }
{
    let mut ports = Vec::with_capacity(alloc, seats.len())?;
    'each: while let Some(seat) = seats.pop() {
        ports.push(Port::new(Arc::try_clone(kernel)?, seat))?;
    }
    Ok(ports)
}

impl Seats {
    /// A machine of this setup that has just booted, of which no port is dealt yet. It fails only where memory runs out.
    pub fn boot(alloc: Global, setup: &Setup) -> Result<Seats, Memory>
        ensures setup { IfOk result (λ s. s.kernel.setup ≡ setup.now) }
        ensures dealt { IfOk result (λ s. s.dealt ≡ 0) }
        ensures back { IfOk result (λ s. s.back ≡ []) }
    {
        let (kernel, seats) = Kernel::boot(alloc, setup)?;
        let kernel = match Arc::new(alloc, kernel) {
            Ok(kernel) => kernel,
            Err(_) => return Err(Memory),
        };
        let here = ports_of(alloc, &kernel, seats)?;
        let back = Vec::with_capacity(alloc, usize::from(setup.cores()))?;
        Ok(Seats {
            setup: *setup,
            kernel,
            here,
            back,
        })
    }

    /// What the machine was booted with.
    pub fn setup(&self) -> &Setup
        ensures { result.now ≡ self.now.kernel.setup }
    {
        &self.setup
    }

    /// The port of the next core, which has seen the empty trace; core 0's comes first. None comes exactly where all are dealt.
    pub fn deal(&mut self) -> Option<Port>
        ensures none { IsSome result ↔ (self.old.dealt < self.old.kernel.setup.cores) }
        ensures port { IfSome result (λ p. IsDealt self.old p) }
        ensures dealt { MatchOption result (self.new.dealt ≡ self.old.dealt) (λ _. self.new.dealt ≡ self.old.dealt + 1) }
        ensures kernel { self.new.kernel ≡ self.old.kernel }
        ensures back { self.new.back ≡ self.old.back }
    {
        self.here.pop()
    }

    /// How many ports are not dealt yet.
    pub fn left(&self) -> usize
        ensures { self.now.dealt + result ≡ self.now.kernel.setup.cores }
    {
        self.here.len()
    }

    /// How many ports are back, which is also the core whose port is taken back next.
    pub fn returned(&self) -> usize
        ensures { result ≡ length self.now.back }
    {
        self.back.len()
    }

    /// Takes a port of this machine back: core 0's first, then core 1's and so on. It takes no memory, so it does not fail.
    pub fn take_back(&mut self, port: Port)
        requires kernel { port.kernel ≡ self.old.kernel }
        requires core { port.core ≡ length self.old.back }
        ensures back { self.new.back ≡ self.old.back ++ port ∷ [] }
        ensures kernel { self.new.kernel ≡ self.old.kernel }
        ensures dealt { self.new.dealt ≡ self.old.dealt }
    {
        // So the proof learns that there is room for one more.
        let _core = port.core();
        self.back.push_reserved(port.into_seat());
    }
}
