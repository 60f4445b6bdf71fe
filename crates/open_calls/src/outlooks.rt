//! All that is found of an open call.

ghost use Rattle.std.specs.Prelude.{◌≡◌, ◌<◌, IfOk};
ghost use Rattle.spk_nums.specs.CallLimits.{InLimits};
ghost use Rattle.plain_kernel.specs.seq_state.specs.Maps.{state_of};
ghost use Rattle.open_calls.specs.Outlooks.{IsOutlookWhere};

use crate::alone::alone;
use crate::leads::push_names;
use crate::told::told;
use seq_state::SeqKernel;
use spk_nums::{Call, CoreNo, Memory, Reply};
use std::alloc::Global;

/// What is found of an open call: a line for each of its names, which tells what that leads to; the reply if no other core were in a call;
/// and the reply that tells a number of the state, if the call may be refused with one.
#[derive(Drop)]
pub struct Outlook {
    pub names: String,
    pub alone: Reply,
    pub told: Option<Reply>,
}

/// What is found of a call of a core that is in it, in each state that a run reaches and the kernel represents. It fails only where memory
/// runs out.
pub fn outlook_at(
    alloc: Global,
    kernel: &mut SeqKernel,
    core: CoreNo,
    call: &Call,
) -> Result<Outlook, Memory>
    requires limits { InLimits call.now }
    requires core { core < (state_of kernel.old).limits.cores }
    ensures { IfOk result (IsOutlookWhere kernel.old core call.now) }
{
    let mut names = String::new(alloc);
    push_names(&mut names, kernel, core, call)?;
    let told = told(kernel, core, call);
    let alone = alone(alloc, kernel, core, call)?;
    Ok(Outlook { names, alone, told })
}
