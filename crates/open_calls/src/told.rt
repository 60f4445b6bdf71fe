//! The replies that tell a number of the state.

ghost use Rattle.std.specs.Prelude.{◌≡◌, ◌<◌};
ghost use Rattle.plain_kernel.specs.seq_state.specs.Maps.{state_of};
ghost use Rattle.open_calls.specs.Told.{left, referenced, short, told};

use seq_lookups::{Wanted, named_for, tcap_at};
use seq_state::SeqKernel;
use spk_nums::{Call, CapId, CoreNo, FrameArg, FrameKind, FrameNo, Kind, Reply, Rights};

// How many references a frame of the machine has.
fn referenced(k: &SeqKernel, frame: FrameArg) -> Option<Reply>
    ensures { result ≡ referenced (state_of k.now) frame }
{
    if frame.number() < k.frames() {
        Some(Reply::Referenced(k.refs(FrameNo::new(frame.number()))))
    } else {
        None
    }
}

// How much the temporal capability has to which a name leads.
fn short(k: &SeqKernel, core: CoreNo, name: CapId) -> Option<Reply>
    requires { core < (state_of k.now).limits.cores }
    ensures { result ≡ short (state_of k.now) core name }
{
    match named_for(k, core, name, Wanted::Only(Kind::Tcap), Rights::USE) {
        Ok(cap) => Some(Reply::Short(tcap_at(k, cap.frame()).budget)),
        Err(_) => None,
    }
}

// How many ticks a core has left to have back, where these are fewer than an amount.
fn left(k: &SeqKernel, core: CoreNo, amount: u32) -> Option<Reply>
    requires { core < (state_of k.now).limits.cores }
    ensures { result ≡ left (state_of k.now) core amount }
{
    let now = k.core(core);
    let left = now.spent.saturating_sub(now.back);
    if left < u64::from(amount) {
        Some(Reply::Short(left as u32))
    } else {
        None
    }
}

/// The reply that tells a number of the state, if a call of a core may be refused with one.
pub fn told(k: &SeqKernel, core: CoreNo, call: &Call) -> Option<Reply>
    requires { core < (state_of k.now).limits.cores }
    ensures { result ≡ told (state_of k.now) core call.now }
{
    match *call {
        Call::Retype {
            r: _,
            f,
            k: FrameKind::Untyped,
        } => referenced(k, f),
        Call::Transfer { a, b: _, m: _ } => short(k, core, a),
        Call::Delegate { a, b: _, m: _ } => short(k, core, a),
        Call::Replenish { a: _, m } => left(k, core, m),
        _ => None,
    }
}
