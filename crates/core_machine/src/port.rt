//! A seat of a kernel, with a share of the kernel.

ghost use Rattle.std.specs.Prelude.{◌≡◌, ◌<◌};
ghost use Rattle.std.specs.Arc.{arc_value};
ghost use Rattle.spk_nums.specs.CallLimits.{InLimits};
ghost use Rattle.core_kernel.specs.Calls.{HasSeen, MakesCall, Meets};

use core_kernel::{CoreNote, CoreSeat, Kernel};
use spk_nums::{Call, CoreNo, Reply};
use std::marker::Model;
use std::sync::Arc;

/// What makes the calls of a core: its seat, with a share of its kernel. Contracts see it as the seat.
#[derive(Drop)]
pub struct Port {
    pub(crate) kernel: Arc<Kernel>,
    pub(crate) seat: CoreSeat,
}

impl Model for Port {
    ghost use Rattle.std.specs.Prelude.{◌≡◌};
    ghost use Rattle.std.specs.Arc.{arc_value};
    ghost use Rattle.core_kernel.specs.Kernel.{CoreSeatValue};

    ghost Value = { CoreSeatValue };

    ghost view = { λ p. p.seat };

    ghost invariant = { λ p. p.seat.kernel ≡ arc_value p.kernel };
}

impl Port {
    // The port of a seat and a share of its kernel.
    pub(crate) fn new(kernel: Arc<Kernel>, seat: CoreSeat) -> Port
        requires { seat.kernel ≡ arc_value kernel }
        ensures { result ≡ seat }
    {
        Port { kernel, seat }
    }

    /// The port's core. Its contract also says what holds of every port: what it has seen is a legal history, and its core,
    /// one of the machine's, is between calls.
    pub fn core(&self) -> CoreNo
        ensures core { result ≡ self.now.core }
        ensures inside { self.now.core < self.now.kernel.setup.cores }
        ensures seen { HasSeen self.now }
    {
        self.seat.front().core
    }

    /// Makes the call of the port's core, and answers its reply. The call is in its limits (`in_limits`). It takes no memory
    /// and no lock, and a bounded number of steps.
    pub fn call(&mut self, call: Call) -> Reply
        requires { InLimits call }
        ensures makes { MakesCall self.old call result self.new }
        ensures kernel { self.new.kernel ≡ self.old.kernel }
        ensures core { self.new.core ≡ self.old.core }
        ensures seen { HasSeen self.new }
    {
        self.kernel.call(&mut self.seat, call)
    }

    /// Gives a note of what the port has seen, and leaves the port as it is.
    pub fn note(&mut self) -> CoreNote
        ensures same { self.new ≡ self.old }
        ensures kernel { result.kernel ≡ self.old.kernel }
        ensures seen { result.seen ≡ self.old.seen }
    {
        self.kernel.note(&mut self.seat)
    }

    /// Tells the port all that the note, of its own kernel, tells. Its core makes no step, and its trace goes on by those of
    /// others.
    pub fn meet(&mut self, note: CoreNote)
        requires { note.kernel ≡ self.old.kernel }
        ensures meets { Meets self.old note self.new }
        ensures kernel { self.new.kernel ≡ self.old.kernel }
        ensures core { self.new.core ≡ self.old.core }
        ensures seen { HasSeen self.new }
    {
        self.kernel.meet(&mut self.seat, note);
    }

    // The seat, whose share of the kernel is given up.
    pub(crate) fn into_seat(self) -> CoreSeat
        ensures { result ≡ self }
    {
        let Port { kernel: _, seat } = self;
        seat
    }
}
