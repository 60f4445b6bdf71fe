//! The kernel: its table of shared words, and the calls that seats make at it.

ghost use Rattle.std.specs.Prelude.{◌≡◌, [], ◌∷◌, None};
ghost use Rattle.spk_nums.specs.CallLimits.{InLimits};
ghost use Rattle.core_kernel.specs.Kernel.{KernelValue, IsSeat};
ghost use Rattle.core_kernel.specs.Calls.{HasSeen, MakesCall, Meets};
ghost use Rattle.core_kernel.specs.Turns.{GoesOn};

use crate::core_run::CoreRun;
use crate::seat::{CoreNote, CoreSeat};
use spk_nums::{Call, Make, Reply, Setup};
use std::marker::Model;
use turn_rule::{TurnSeat, TurnTable};

/// A machine whose cores make their calls at once. Every seat and note that a call takes is of this kernel.
#[derive(Drop)]
pub struct Kernel {
    pub(crate) setup: Setup,
    pub(crate) table: TurnTable<CoreRun>,
}

impl Model for Kernel {
    ghost use Rattle.core_kernel.specs.Kernel.{KernelValue, kernel_value, IsBooted};

    ghost Value = { KernelValue };

    ghost view = { λ k. kernel_value k.setup k.table };

    ghost invariant = { λ k. IsBooted k.setup k.table };
}

impl Kernel {
    // Makes the call, from its first step to its return.
    #[inline(always)]
    fn go(&self, seat: &mut TurnSeat<CoreRun>, call: Call)
        requires table { seat.old.table ≡ self.now.table }
        requires seat { IsSeat self.now.setup seat.old }
        requires limits { InLimits call }
        ensures goes { GoesOn self.now.setup seat.old (call ∷ []) seat.new }
        ensures between { seat.new.program.state.active ≡ None }
    {
        let _made: Option<Make> = None;
        self.table.whole(seat, call);
    }

    /// Makes the call of the seat's core, and answers its reply. The call is in its limits. It takes no memory.
    pub fn call(&self, seat: &mut CoreSeat, call: Call) -> Reply
        requires kernel { seat.old.kernel ≡ self.now }
        requires limits { InLimits call }
        ensures makes { MakesCall seat.old call result seat.new }
        ensures seen { HasSeen seat.new }
    {
        let _made: Option<Make> = None;
        self.go(&mut seat.seat, call);
        match seat.seat.program().last {
            Some(reply) => reply,
            None => unreachable!(),
        }
    }

    /// Gives a note of what the seat has seen, and leaves the seat as it is.
    pub fn note(&self, seat: &mut CoreSeat) -> CoreNote
        requires { seat.old.kernel ≡ self.now }
        ensures same { seat.new ≡ seat.old }
        ensures kernel { result.kernel ≡ seat.old.kernel }
        ensures seen { result.seen ≡ seat.old.seen }
    {
        CoreNote {
            note: self.table.split(&mut seat.seat),
            setup: self.setup,
        }
    }

    /// Tells the seat all that the note tells. The seat's core makes no step, and its trace goes on by those of others.
    pub fn meet(&self, seat: &mut CoreSeat, note: CoreNote)
        requires kernel { seat.old.kernel ≡ self.now }
        requires note { note.kernel ≡ self.now }
        ensures meets { Meets seat.old note seat.new }
        ensures seen { HasSeen seat.new }
    {
        let CoreNote { note, setup: _ } = note;
        self.table.meet(&mut seat.seat, note);
    }
}
