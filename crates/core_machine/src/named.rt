//! Machines, ports and notes whose type tells their kernel, so that what comes out of a list, a lock or a channel is known to fit together.
//!
//! A function over a type parameter `K: Names` handles the machine that K names: `K.kernel` is that machine's kernel, whichever the caller's
//! is. The caller passes `Brand` for K, and its proof picks the kernel (docs/EMBEDDING.md, 'Ports in a list').

ghost use Rattle.std.specs.Prelude.{◌≡◌, ◌<◌, ◌+◌, ◌↔◌, ◌++◌, ◌∷◌, ℕ, [], length, slice_get, Some, IsSome, IfOk, IfErr, IfSome, MatchOption};
ghost use Rattle.spk_nums.specs.CallLimits.{InLimits};
ghost use Rattle.core_kernel.specs.Calls.{HasSeen, MakesCall, Meets};
ghost use Rattle.core_machine.specs.Seats.{IsDealt, IsDealtAfter};

use crate::port::Port;
use crate::seats::Seats;
use core_kernel::CoreNote;
use spk_nums::{Call, CoreNo, Reply};
use std::alloc::{AllocError, Global};
use std::marker::{Brand, PhantomData};

/// Names a kernel.
pub trait Names {
    ghost use Rattle.std.specs.Prelude.{Option};
    ghost use Rattle.core_kernel.specs.Kernel.{KernelValue};

    ghost kernel: { Option KernelValue };
}

impl Names for Brand {
    ghost use Rattle.std.specs.Prelude.{None};

    ghost kernel = { None };
}

/// A port of the kernel that K names.
#[derive(Drop)]
pub struct PortOf<K: Names> {
    port: Port,
    of: PhantomData<K>,
    ghost is: { K.kernel ≡ Some port.kernel },
}

/// A note of that kernel.
#[derive(Drop)]
pub struct NoteOf<K: Names> {
    note: CoreNote,
    of: PhantomData<K>,
    ghost is: { K.kernel ≡ Some note.kernel },
}

/// The machine of that kernel.
#[derive(Drop)]
pub struct SeatsOf<K: Names> {
    seats: Seats,
    of: PhantomData<K>,
    ghost is: { K.kernel ≡ Some seats.kernel },
}

impl<K: Names> PortOf<K> {
    /// The port's core, as `Port::core`.
    pub fn core(&self) -> CoreNo
        ensures core { result ≡ self.now.port.core }
        ensures seen { HasSeen self.now.port }
    {
        self.port.core()
    }

    /// Makes the call of the port's core, as `Port::call`.
    pub fn call(&mut self, call: Call) -> Reply
        requires { InLimits call }
        ensures makes { MakesCall self.old.port call result self.new.port }
        ensures core { self.new.port.core ≡ self.old.port.core }
        ensures seen { HasSeen self.new.port }
    {
        self.port.call(call)
    }

    /// A note of what the port has seen, which any port of its kernel may meet.
    pub fn note(&mut self) -> NoteOf<K>
        ensures same { self.new.port ≡ self.old.port }
        ensures seen { result.note.seen ≡ self.old.port.seen }
    {
        NoteOf {
            note: self.port.note(),
            of: PhantomData,
        }
    }

    /// Tells the port all that the note tells, as `Port::meet`. That the note is of its kernel, the type says.
    pub fn meet(&mut self, note: NoteOf<K>)
        ensures meets { Meets self.old.port note.note self.new.port }
        ensures core { self.new.port.core ≡ self.old.port.core }
        ensures seen { HasSeen self.new.port }
    {
        let NoteOf { note, of: _ } = note;
        self.port.meet(note);
    }
}

impl<K: Names> SeatsOf<K> {
    /// The machine, which is that of the kernel that K names.
    pub fn new(seats: Seats) -> SeatsOf<K>
        requires { K.kernel ≡ Some seats.kernel }
        ensures { result.seats ≡ seats }
    {
        SeatsOf {
            seats,
            of: PhantomData,
        }
    }

    /// The port of the next core, as `Seats::deal`: none once each core has had its own.
    pub fn deal(&mut self) -> Option<PortOf<K>>
        ensures none { IsSome result ↔ (self.old.seats.dealt < self.old.seats.kernel.setup.cores) }
        ensures dealt { MatchOption result (self.new.seats.dealt ≡ self.old.seats.dealt)
            (λ _. self.new.seats.dealt ≡ self.old.seats.dealt + 1) }
        ensures port { IfSome result (λ p. IsDealt self.old.seats p.port) }
        ensures kernel { self.new.seats.kernel ≡ self.old.seats.kernel }
        ensures back { self.new.seats.back ≡ self.old.seats.back }
    {
        match self.seats.deal() {
            Some(port) => Some(PortOf {
                port,
                of: PhantomData,
            }),
            None => None,
        }
    }

    /// All ports that are not dealt yet, in the order of their cores. It fails only where memory runs out, and then deals none.
    pub fn deal_all(&mut self, alloc: Global) -> Result<Vec<PortOf<K>>, AllocError>
        ensures count { IfOk result (λ v. self.old.seats.dealt + length v.items ≡ self.old.seats.kernel.setup.cores) }
        ensures each { IfOk result (λ v. (k : ℕ) (p : _) → slice_get v.items k ≡ Some p → IsDealtAfter k self.old.seats p.port) }
        ensures dealt { IfOk result (λ _. self.new.seats.dealt ≡ self.old.seats.kernel.setup.cores) }
        ensures kernel { self.new.seats.kernel ≡ self.old.seats.kernel }
        ensures back { self.new.seats.back ≡ self.old.seats.back }
        ensures kept { IfErr result (λ _. self.new.seats ≡ self.old.seats) }
    {
        let mut ports = Vec::with_capacity(alloc, self.seats.left())?;
        'cores: while let Some(port) = self.deal() {
            ports.push_reserved(port);
        }
        Ok(ports)
    }

    /// Takes a port back where it is its turn: core 0's first, then core 1's and so on. Else the port is given back. It takes no memory.
    pub fn take_back(&mut self, port: PortOf<K>) -> Result<(), PortOf<K>>
        ensures taken { IfOk result (λ _. (port.port.core ≡ length self.old.seats.back)
            × (self.new.seats.back ≡ self.old.seats.back ++ port.port ∷ [])) }
        ensures kernel { self.new.seats.kernel ≡ self.old.seats.kernel }
        ensures dealt { self.new.seats.dealt ≡ self.old.seats.dealt }
        ensures given_back { IfErr result (λ p. (p.port ≡ port.port) × (self.new.seats ≡ self.old.seats)) }
    {
        if usize::from(port.port.core().number()) != self.seats.returned() {
            return Err(port);
        }
        let PortOf { port, of: _ } = port;
        self.seats.take_back(port);
        Ok(())
    }

    /// The machine, whose type does not tell its kernel any more.
    pub fn into_seats(self) -> Seats
        ensures value { result ≡ self.seats }
        ensures kernel { K.kernel ≡ Some result.kernel }
    {
        let SeatsOf { seats, of: _ } = self;
        seats
    }
}
