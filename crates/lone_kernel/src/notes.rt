//! The decisions that are noted.

ghost use Rattle.std.specs.Prelude.{◌≡◌, ◌≢◌, ◌<◌, ◌≤◌, ◌++◌, None, Some, vec_len, vec_capacity};
ghost use Rattle.boot_words.specs.kernel_history.specs.Trace.{decision_at};
ghost use Rattle.flight_laws.specs.core_invariant.specs.Events.{decided_in};

use call_steps::Absorbed;
use spk_nums::{CoreNo, Decision, Reply};

/// Notes the decision that a step has told, if it has told one.
#[inline(always)]
pub(crate) fn note(decisions: &mut Vec<Decision>, absorbed: &Absorbed, core: CoreNo, index: u32)
    requires { decided_in absorbed.now ≢ None → vec_len decisions.old < vec_capacity decisions.old }
    ensures items { decisions.new.items ≡ decisions.old.items ++ decision_at (decided_in absorbed.now) core index }
    ensures room { vec_capacity decisions.old ≤ vec_capacity decisions.new }
{
    match absorbed {
        Absorbed::Going | Absorbed::Returned(_) => {}
        Absorbed::Decided(reply) => {
            let reply = *reply;
            note_reply(decisions, &reply, core, index)
        }
    }
}

/// Notes a decision. Room for it was made at the start, so this takes no memory.
#[inline(never)]
pub(crate) fn note_reply(decisions: &mut Vec<Decision>, reply: &Reply, core: CoreNo, index: u32)
    requires { vec_len decisions.old < vec_capacity decisions.old }
    ensures items { decisions.new.items ≡ decisions.old.items ++ decision_at (Some reply.now) core index }
    ensures room { vec_capacity decisions.old ≤ vec_capacity decisions.new }
{
    let decision = Decision {
        core,
        index,
        reply: *reply,
    };
    decisions.push_reserved(decision);
}
