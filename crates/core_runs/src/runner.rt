//! A core with the calls that it is to make.

ghost use Rattle.std.specs.Prelude.{◌≡◌, ◌<◌, ◌^◌, [], false, All, IfOk, vec_len};
ghost use Rattle.spk_nums.specs.CallLimits.{InLimits};

use core_kernel::CoreSeat;
use spk_nums::{Call, Memory, Reply};
use std::alloc::Global;
use std::marker::Model;

/// A core's seat, the calls that it is to make, and what it was answered.
#[derive(Drop)]
pub struct Runner {
    /// The core's seat.
    pub seat: CoreSeat,
    /// The calls, in the order in which they are made: fewer than 2^32, and in their limits.
    pub calls: Vec<Call>,
    /// The replies of the calls made so far. There is room for one for each call.
    pub replies: Vec<Reply>,
    /// Whether the gate has stopped the runner before the end of its list.
    pub held: bool,
}

impl Model for Runner {
    ghost use Rattle.core_runs.specs.Runs.{RunnerValue, IsRunner};

    ghost Value = { RunnerValue };

    ghost view = { λ r. record { seat = r.seat; calls = r.calls.items; replies = r.replies.items; held = r.held } };

    ghost use Rattle.std.specs.Prelude.{vec_capacity};

    ghost invariant = { λ r. IsRunner r.calls.items (vec_capacity r.replies) };
}

impl Runner {
    /// The runner of a core that has made none of its calls. It fails only where memory runs out.
    pub fn new(alloc: Global, seat: CoreSeat, calls: Vec<Call>) -> Result<Runner, Memory>
        requires fit { All InLimits calls.items }
        requires few { vec_len calls < 2 ^ 32 }
        ensures seat { IfOk result (λ r. r.seat ≡ seat) }
        ensures calls { IfOk result (λ r. r.calls ≡ calls.items) }
        ensures none { IfOk result (λ r. r.replies ≡ []) }
        ensures free { IfOk result (λ r. r.held ≡ false) }
    {
        let replies = Vec::with_capacity(alloc, calls.len())?;
        Ok(Runner {
            seat,
            calls,
            replies,
            held: false,
        })
    }
}
