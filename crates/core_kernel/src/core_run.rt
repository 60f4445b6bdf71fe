//! The program that a core runs at the shared table.

ghost use Rattle.std.specs.Prelude.{◌≡◌, ◌<◌, None};
ghost use Rattle.call_steps.specs.call_stages.specs.Cores.{started};
ghost use Rattle.core_kernel.specs.Running.{run_of};

use crate::run_words::RunWords;
use call_steps::{Absorbed, CoreState};
use spk_nums::{Call, CoreNo, Reply, Setup, WordOp};
use turn_rule::{CoreProgram, TurnWords, WholeProgram};

/// A core's state, and the reply of the call that it has made last.
#[derive(Drop)]
pub struct CoreRun {
    pub(crate) state: CoreState,
    pub(crate) last: Option<Reply>,
}

impl CoreRun {
    // A core of a machine that has just booted. It is below the setup's cores.
    pub(crate) fn start(core: CoreNo, setup: &Setup) -> CoreRun
        requires { core < setup.now.cores }
        ensures { result ≡ run_of (started core setup.now) None }
    {
        CoreRun {
            state: CoreState::start(core, setup),
            last: None,
        }
    }
}

impl CoreProgram for CoreRun {
    type Call = Call;

    ghost use Rattle.core_kernel.specs.Running.{running};

    ghost steps = { running };

    #[inline(always)]
    fn begin(&mut self, call: Call) {
        self.state.begin(call);
    }

    #[inline(always)]
    fn next_op(&self) -> Option<WordOp> {
        if self.state.in_call() {
            Some(self.state.next_op(self.state.layout()))
        } else {
            None
        }
    }

    #[inline(always)]
    fn absorb(&mut self, found: u64) {
        let mut told = Absorbed::Going;
        self.state.absorb_to(found, &mut told);
        match told {
            Absorbed::Going => {}
            Absorbed::Decided(_) => {}
            Absorbed::Returned(reply) => self.last = Some(reply),
        }
    }
}

impl WholeProgram for CoreRun {
    ghost use Rattle.core_kernel.specs.RunSteps.{IsReady};

    ghost ready = { IsReady };

    #[inline(always)]
    fn whole<W: TurnWords<CoreRun>>(&mut self, call: Call, words: W) -> W {
        let mut steps = RunWords { words };
        let reply = self.state.whole(&call, &mut steps);
        self.last = Some(reply);
        let RunWords { words } = steps;
        words
    }
}
