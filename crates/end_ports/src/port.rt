//! What makes the calls of a core at its kernel and at the endpoints.

ghost use Rattle.std.specs.Prelude.{◌≡◌, ◌<◌, ◌≤◌};
ghost use Rattle.spk_nums.specs.CallLimits.{InLimits};
ghost use Rattle.spk_nums.specs.declared.replies.Reply.TheVariants.{CallsSpent};
ghost use Rattle.core_machine.specs.core_kernel.specs.Calls.{HasSeen, MakesCall, Meets};
ghost use Rattle.async_ends.specs.declared.endpoint.EndOp.TheVariants.{Send, Recv};
ghost use Rattle.async_ends.specs.declared.endpoint.EndReply.TheVariants.{Refused};
ghost use Rattle.async_ends.specs.Running.{most_calls};
ghost use Rattle.end_ports.specs.Ports.{HasAsked};

use crate::end::End;
use crate::looker::Looker;
use async_ends::{EndAsk, EndOp, EndReply};
use core_machine::{CoreNote, Port};
use spk_nums::{Call, CapId, CoreNo, Reply};
use std::marker::Model;

/// A core's port at its kernel, with its seat at the endpoints.
#[derive(Drop)]
pub struct EndPort {
    pub(crate) looker: Looker,
    pub(crate) end: End,
}

impl Model for EndPort {
    ghost use Rattle.end_ports.specs.Ports.{EndPortValue};

    ghost Value = { EndPortValue };

    ghost view = { λ p. record { port = p.looker.port; end = p.end } };
}

impl EndPort {
    pub(crate) fn new(port: Port, end: End) -> EndPort
        ensures { result ≡ record { port = port; end = end } }
    {
        EndPort {
            looker: Looker { port },
            end,
        }
    }

    /// The port's core. Its contract also says what holds of every port, as that of `Port::core`.
    pub fn core(&self) -> CoreNo
        ensures core { result ≡ self.now.port.core }
        ensures inside { self.now.port.core < self.now.port.kernel.setup.cores }
        ensures seen { HasSeen self.now.port }
    {
        self.looker.port.core()
    }

    /// Makes the call of the port's core, as `Port::call`.
    #[inline]
    pub fn call(&mut self, call: Call) -> Reply
        requires { InLimits call }
        ensures makes { MakesCall self.old.port call result self.new.port }
        ensures kernel { self.new.port.kernel ≡ self.old.port.kernel }
        ensures core { self.new.port.core ≡ self.old.port.core }
        ensures seen { HasSeen self.new.port }
        ensures end { self.new.end ≡ self.old.end }
    {
        self.looker.port.call(call)
    }

    /// Gives a note of what the port has seen of its kernel, and leaves the port as it is.
    pub fn note(&mut self) -> CoreNote
        ensures same { self.new ≡ self.old }
        ensures kernel { result.kernel ≡ self.old.port.kernel }
        ensures seen { result.seen ≡ self.old.port.seen }
    {
        self.looker.port.note()
    }

    /// Tells the port all that the note, of its own kernel, tells, as `Port::meet`.
    pub fn meet(&mut self, note: CoreNote)
        requires { note.kernel ≡ self.old.port.kernel }
        ensures meets { Meets self.old.port note self.new.port }
        ensures kernel { self.new.port.kernel ≡ self.old.port.kernel }
        ensures core { self.new.port.core ≡ self.old.port.core }
        ensures seen { HasSeen self.new.port }
        ensures end { self.new.end ≡ self.old.end }
    {
        self.looker.port.meet(note);
    }

    /// Sends one to the component of the gate of this number. It takes no memory and no lock.
    pub fn send(&mut self, gate: CapId) -> EndReply
        ensures asks { self.old.end.made < most_calls → HasAsked Send gate self.old result self.new }
        ensures spent { most_calls ≤ self.old.end.made → (result ≡ Refused CallsSpent) × (self.new ≡ self.old) }
    {
        self.ask(EndOp::Send, gate)
    }

    /// Takes all that was sent to the component of the capability of this number and was not taken yet. It takes no memory and no lock.
    pub fn recv(&mut self, comp: CapId) -> EndReply
        ensures asks { self.old.end.made < most_calls → HasAsked Recv comp self.old result self.new }
        ensures spent { most_calls ≤ self.old.end.made → (result ≡ Refused CallsSpent) × (self.new ≡ self.old) }
    {
        self.ask(EndOp::Recv, comp)
    }

    // Sends or receives.
    fn ask(&mut self, op: EndOp, number: CapId) -> EndReply
        ensures asks { self.old.end.made < most_calls → HasAsked op number self.old result self.new }
        ensures spent { most_calls ≤ self.old.end.made → (result ≡ Refused CallsSpent) × (self.new ≡ self.old) }
    {
        if (1 << 40) - 1 <= self.end.made() {
            return EndReply::Refused(Reply::CallsSpent);
        }
        let done = self.end.ask(&mut self.looker, EndAsk { op, number });
        done.answer
    }

    // The port at the kernel. The seat at the endpoints is given up.
    pub(crate) fn into_port(self) -> Port
        ensures { result ≡ self.port }
    {
        let EndPort { looker, end: _ } = self;
        let Looker { port } = looker;
        port
    }
}
