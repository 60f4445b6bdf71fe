//! Where a call on two temporal capabilities stands that the step machine goes on with.
//!
//! Each function writes one stage, and is never inlined: what makes room for a stage clears it at its entry, and a call whose words are all
//! those expected writes none.

ghost use Rattle.std.specs.Prelude.{◌≡◌, ◌<◌, [], None, Some};
ghost use Rattle.spk_nums.specs.declared.replies.Reply.TheVariants.{Ok, Same};
ghost use Rattle.straight_looks.specs.Standing.{going, stands};
ghost use Rattle.straight_looks.specs.step_starts.specs.act_states.specs.declared.work.Act.TheVariants as act_of;
ghost use Rattle.straight_looks.specs.step_starts.specs.act_states.specs.declared.work.Tail.TheVariants as tail;
ghost use Rattle.straight_looks.specs.step_starts.specs.act_states.specs.declared.work.Work.TheVariants as work;
ghost use Rattle.straight_looks.specs.step_starts.specs.call_stages.specs.Cores.{own_decided};
ghost use Rattle.straight_looks.specs.step_starts.specs.call_stages.specs.Fits.{IsOwn};
ghost use Rattle.straight_looks.specs.step_starts.specs.call_stages.specs.declared.stages.Stage.TheVariants.{Decided, Undecided};

use act_counts::act_states::call_plans::Caps;
use act_counts::act_states::stage_pins::AcquiredCounts;
use act_counts::act_states::stage_tcap::Pair;
use act_counts::act_states::{Act, Own, Tail};
use call_stages::{ActiveCall, Stage};
use spk_nums::{Call, Reply, Value};
use straight_looks::rest_acting;

/// After so many steps a call makes this pair's next step.
#[inline(never)]
pub(crate) fn rest_sharing(
    active: &mut Option<ActiveCall>,
    call: &Call,
    steps: u32,
    pair: &Pair,
    found: &Caps,
)
    ensures { active.new ≡ Some (going call.now steps (Undecided (work.Act (act_of.Share pair.now))) found.now []) }
{
    let pair = *pair;
    rest_acting(active, call, steps, &Act::Share { pair }, found);
}

/// After so many steps a call is decided with this value, and has still to store what the pair says.
#[inline(never)]
pub(crate) fn rest_storing(
    own: &mut Own,
    active: &mut Option<ActiveCall>,
    call: &Call,
    steps: u32,
    value: Value,
    pair: &Pair,
    found: &Caps,
)
    requires own { IsOwn own.old }
    requires room { own.old.made < own.old.limit }
    ensures own { own.new ≡ own_decided own.old (Ok value) }
    ensures call { active.new ≡ Some (going call.now steps (Decided (Ok value) None (tail.Share pair.now)) found.now []) }
{
    let pair = *pair;
    let reply = Reply::Ok(value);
    rest_decided(active, call, steps, &reply, &Tail::Share { pair }, found);
    own.made += 1;
}

/// A call whose two names have led to one object is refused, after its names.
#[inline(never)]
pub(crate) fn rest_same(own: &mut Own, active: &mut Option<ActiveCall>, call: &Call, found: &Caps)
    requires own { IsOwn own.old }
    requires room { own.old.made < own.old.limit }
    ensures own { own.new ≡ own_decided own.old Same }
    ensures call { active.new ≡ Some (going call.now 7 (Decided Same None tail.Nothing) found.now []) }
{
    rest_decided(active, call, 7, &Reply::Same, &Tail::Nothing, found);
    own.made += 1;
}

// After so many steps a call is decided with this reply, and has this still to store.
fn rest_decided(
    active: &mut Option<ActiveCall>,
    call: &Call,
    steps: u32,
    reply: &Reply,
    tail: &Tail,
    found: &Caps,
)
    ensures { active.new ≡ Some (going call.now steps (Decided reply.now None tail.now) found.now []) }
{
    *active = Some(ActiveCall {
        steps,
        stage: Stage::Decided {
            reply: *reply,
            drawn: None,
            tail: *tail,
        },
        found: *found,
        read: None,
        counts: AcquiredCounts::none(),
        call: *call,
    });
}
