//! What a caller may do about a reply.

ghost use Rattle.std.specs.Prelude.{◌≡◌, ◌↔◌};
ghost use Rattle.spk_nums.specs.CallLimits.{InLimits};
ghost use Rattle.spk_nums.specs.Advices.{advice_of, again_of};

use crate::calls::Call;
use crate::numbers::CoreNo;
use crate::replies::Reply;

/// What a caller may do about a reply, as docs/REPLIES.md has it.
#[derive(Clone, Copy, PartialEq, Eq, Debug)]
pub enum Advice {
    /// Nothing: the call was carried out.
    Done,
    /// The caller's own mistake. Asking again gets the same answer, until somebody changes the state.
    Change,
    /// The core makes no further call.
    GiveUp,
    /// Have so many references to the frame removed, then ask again.
    Release(u32),
    /// Wait until this core has returned from its call, then ask again.
    AwaitReturn(CoreNo),
    /// Have this core `flush`, then ask again.
    AwaitFlush(CoreNo),
    /// Choose another thread, or wait until this core runs another.
    AwaitSwitch(CoreNo),
    /// A lost race, which may be lost again: where it is still wanted, make the call that `Call::again` answers.
    Again,
}

impl Reply {
    /// What the caller may do.
    pub fn advice(&self) -> Advice
        ensures { result ≡ advice_of self.now }
    {
        match self {
            Reply::Ok(_) => Advice::Done,
            Reply::CallsSpent => Advice::GiveUp,
            Reply::Referenced(k) => Advice::Release(*k),
            Reply::Quiescing(core) => Advice::AwaitReturn(*core),
            Reply::Unflushed(core) => Advice::AwaitFlush(*core),
            Reply::Running(core) => Advice::AwaitSwitch(*core),
            Reply::Raced => Advice::Again,
            Reply::Busy(_) => Advice::Again,
            _ => Advice::Change,
        }
    }
}

impl Call {
    /// The call that makes this one again after it has lost a race: the same, but for a `tick`, whose ticks are owed, one
    /// of 0 ticks. It is in its limits where this one is.
    pub fn again(&self) -> Call
        ensures value { result ≡ again_of self.now }
        ensures limits { InLimits self.now → InLimits result }
    {
        match self {
            Call::Tick { n: _ } => Call::Tick { n: 0 },
            _ => *self,
        }
    }
}
