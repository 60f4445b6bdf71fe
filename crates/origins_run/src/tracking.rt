//! The origins of capabilities, as a watcher of steps.

ghost use Rattle.std.specs.Prelude.{◌≡◌, [], OnOk, IfOk};
ghost use Rattle.origins_run.specs.Tracked.{EntersBy, DecidesBy, LeavesBy, Tracks};

use origin_lines::Origins;
use spk_nums::{Call, CoreNo, Reply, Setup, in_limits};
use std::alloc::{AllocError, Global};
use std::marker::Model;
use told_run::{StepMade, Watcher};

/// The origins after the steps that it was told, and the call of each core that is entered and not decided.
#[derive(Drop)]
pub struct Tracking {
    origins: Origins,
    opened: [Option<Call>; 8],
}

impl Model for Tracking {
    ghost use Rattle.origins_run.specs.Tracked.{Tracked};

    ghost Value = { Tracked };

    ghost view = { λ w. record { origins = w.origins; opened = w.opened } };
}

impl Tracking {
    /// Before the first step. It fails only where memory runs out.
    pub fn start(alloc: Global, setup: &Setup) -> Result<Tracking, AllocError>
        ensures { IfOk result (λ w. Tracks setup.now [] w) }
    {
        match Origins::start(alloc, setup) {
            Ok(origins) => Ok(Tracking {
                origins,
                opened: [None; 8],
            }),
            Err(_) => Err(AllocError),
        }
    }

    /// The origins.
    pub fn origins(&self) -> &Origins
        ensures { result.now ≡ self.now.origins }
    {
        &self.origins
    }

    /// A core enters a call, if it does.
    fn enter(&mut self, core: CoreNo, enters: &Option<Call>)
        ensures { EntersBy self.old core enters.now self.new }
    {
        if let Some(call) = enters {
            self.origins.enter(core);
            self.opened[usize::from(core.number())] = Some(*call);
        }
    }

    /// The open call of a core is decided.
    fn decide_open(&mut self, core: CoreNo, call: &Call, reply: &Reply) -> Result<(), AllocError>
        ensures { OnOk result (DecidesOpen self.old core call.now reply.now self.new) }
    {
        if !in_limits(call) {
            return Ok(());
        }
        match self.origins.take(core, call, reply) {
            Ok(()) => {}
            Err(_) => return Err(AllocError),
        }
        self.opened[usize::from(core.number())] = None;
        Ok(())
    }

    /// The call of a core is decided, if it is.
    fn decide(&mut self, core: CoreNo, decides: &Option<Reply>) -> Result<(), AllocError>
        ensures { OnOk result (DecidesBy self.old core decides.now self.new) }
    {
        let Some(reply) = decides else {
            return Ok(());
        };
        let Some(call) = self.opened[usize::from(core.number())] else {
            return Ok(());
        };
        self.decide_open(core, &call, reply)
    }

    /// A core returns from its call, if it does.
    fn leave(&mut self, core: CoreNo, returns: &Option<Reply>)
        ensures { LeavesBy self.old core returns.now self.new }
    {
        if let Some(_) = returns {
            self.origins.leave(core);
            self.opened[usize::from(core.number())] = None;
        }
    }
}

impl Watcher for Tracking {
    ghost use Rattle.origins_run.specs.Tracked.{has_tracked};

    ghost has_seen = { λ setup first t last. has_tracked setup first t last };

    fn tell(&mut self, made: &StepMade) -> Result<(), AllocError> {
        let core = made.view.core;
        self.enter(core, &made.view.enters);
        self.decide(core, &made.decides)?;
        self.leave(core, &made.returns);
        Ok(())
    }
}

ghost use Rattle.origins_run.specs.Tracked.{DecidesOpen};
