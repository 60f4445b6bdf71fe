//! Moving budgets between temporal capabilities, and what a test answers.

ghost use Rattle.std.specs.Prelude.{◌≡◌, ◌≢◌, ◌<◌, ◌≤◌, ◌+◌, ◌^◌, length, SomeIff};
ghost use Rattle.seq_lookups.specs.seq_state.specs.kernel_rules.specs.TimeCalls.{are_alike, merged_list, preemption};
ghost use Rattle.seq_lookups.specs.seq_state.specs.kernel_rules.specs.Edits.{with_tcap, moved, with_qualities, tcap_at};
ghost use Rattle.seq_lookups.specs.seq_state.specs.Parts.{frame_of, tcap_fields_of};
ghost use Rattle.seq_lookups.specs.seq_state.specs.Maps.{state_of};
ghost use Rattle.seq_lookups.specs.seq_state.specs.Representation.{Represents};

use quality_lists::{agrees, merge};
use seq_lookups::seq_state::{Frame, Object, SeqKernel, TcapFields};
use seq_lookups::spk_nums::{FrameNo, Qualities, Value};
use seq_lookups::tcap_at;

/// A frame with another temporal capability in place of its own; a frame without one stays.
pub(crate) fn with_tcap(frame: Frame, tcap: TcapFields) -> Frame
    ensures { frame_of result ≡ with_tcap (frame_of frame) (tcap_fields_of tcap) }
{
    match frame {
        Frame::Kernel(Object::Tcap(_)) => Frame::Kernel(Object::Tcap(tcap)),
        _ => frame,
    }
}

/// Whether two lists of qualities are equal.
pub(crate) fn are_alike(a: &Qualities, b: &Qualities) -> bool
    ensures { result ≡ are_alike a.now b.now }
{
    agrees(a, b)
}

/// The merged list of two temporal capabilities; None exactly where it has more than 8 schedulers.
pub(crate) fn merged_for(k: &SeqKernel, a: FrameNo, b: FrameNo) -> Option<Qualities>
    ensures { SomeIff result (length (merged_list (state_of k.now) a b) ≤ 8) (merged_list (state_of k.now) a b) }
{
    let from = tcap_at(k, a);
    let to = tcap_at(k, b);
    merge(&from.qualities, &to.qualities)
}

/// Moves ticks from one temporal capability to another: the amount leaves the one's budget and joins the other's. What would
/// not fit a budget is lost.
pub(crate) fn move_ticks(k: &mut SeqKernel, a: FrameNo, b: FrameNo, amount: u32)
    ensures { a ≢ b → (tcap_at (state_of k.old) b).budget + amount < 2 ^ 32 → Represents k.new (moved (state_of k.old) a b amount) }
{
    let from = tcap_at(k, a);
    let to = tcap_at(k, b);
    let less = TcapFields {
        budget: from.budget.saturating_sub(amount),
        ..from
    };
    let more = TcapFields {
        budget: to.budget.saturating_add(amount),
        ..to
    };
    let less = with_tcap(k.frame(a), less);
    let more = with_tcap(k.frame(b), more);
    k.set_frame(a, less);
    k.set_frame(b, more);
}

/// Moves ticks from one temporal capability to another, and gives the other the merged list, where it has at most 8 schedulers.
pub(crate) fn delegate_ticks(k: &mut SeqKernel, a: FrameNo, b: FrameNo, amount: u32)
    ensures { a ≢ b → (tcap_at (state_of k.old) b).budget + amount < 2 ^ 32 → length (merged_list (state_of k.old) a b) ≤ 8
        → Represents k.new (with_qualities (moved (state_of k.old) a b amount) b (merged_list (state_of k.old) a b)) }
{
    let list = merged_for(k, a, b);
    let from = tcap_at(k, a);
    let to = tcap_at(k, b);
    let less = TcapFields {
        budget: from.budget.saturating_sub(amount),
        ..from
    };
    let more = TcapFields {
        budget: to.budget.saturating_add(amount),
        qualities: list.unwrap_or(to.qualities),
    };
    let less = with_tcap(k.frame(a), less);
    let more = with_tcap(k.frame(b), more);
    k.set_frame(a, less);
    k.set_frame(b, more);
}

/// The answer of a test.
pub(crate) fn preemption(preempts: bool) -> Value
    ensures { result ≡ preemption preempts }
{
    if preempts {
        Value::Preempts
    } else {
        Value::Stays
    }
}
