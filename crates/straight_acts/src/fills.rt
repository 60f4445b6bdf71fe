//! The filling of a free place.

ghost use Rattle.std.specs.Prelude.{◌≡◌, ◌<◌, ◌∷◌, []};
ghost use Rattle.straight_acts.specs.Acting.{counts};
ghost use Rattle.straight_looks.specs.Outcomes.{ended_so};
ghost use Rattle.straight_looks.specs.Standing.{acts, stands};
ghost use Rattle.straight_looks.specs.step_starts.specs.act_states.specs.Acts.{filling, next_work};
ghost use Rattle.straight_looks.specs.step_starts.specs.act_states.specs.declared.work.Act.TheVariants as act_of;
ghost use Rattle.straight_looks.specs.step_starts.specs.act_states.specs.declared.work.Work.TheVariants as work;
ghost use Rattle.straight_looks.specs.step_starts.specs.call_stages.specs.Fits.{IsCore, IsOwn};
ghost use Rattle.straight_looks.specs.step_starts.specs.call_stages.specs.declared.stages.Stage.TheVariants.{Undecided};

use crate::counts::{Acquiring, acquire};
use crate::rests::rest_acting_counted;
use act_counts::act_states::call_plans::Caps;
use act_counts::act_states::stage_look::Found;
use act_counts::act_states::stage_pins::Acquired;
use act_counts::act_states::{Act, Fill, Own};
use act_counts::cap_due;
use call_stages::ActiveCall;
use make_acts::fill_op;
use spk_nums::{Call, Cap, Value};
use straight_looks::{Went, Words, exit, rest_acting};

/// A free place is filled, after the count of the capability's frame is acquired if it has one.
#[inline(always)]
#[tactic(auto, using(crate::proofs::Sets::fillings))]
pub fn fill_free<W: Words>(
    own: &mut Own,
    active: &mut Option<ActiveCall>,
    call: &Call,
    steps: u32,
    place: &Found,
    cap: &Cap,
    caps: &Caps,
    words: &mut W,
) -> Went
    requires own { IsOwn own.old }
    requires room { own.old.made < own.old.limit }
    requires few { steps < 900 }
    requires fits { IsCore (W.core words.old) }
    requires begins { W.core words.old
        ≡ stands own.old call.now steps (Undecided (next_work own.old.core 0 (filling cap.now place.now))) caps.now }
    ensures { ended_so own.new active.old active.new (W.core words.new) (W.last words.new) result }
{
    let fill = Fill {
        node: place.node,
        entry: place.entry,
        word: place.word,
        cap: *cap,
    };
    let act = Act::Fill { fill };
    match cap_due(cap, 1, 0) {
        None => fill_bare(own, active, call, steps, &fill, &act, caps, words),
        Some(due) => {
            match acquire(
                own, active, call, steps, due.frame, due.change, &act, caps, words,
            ) {
                Acquiring::Falls { found } => Went::Falls { found },
                Acquiring::Holds { count } => fill_counted(
                    own,
                    active,
                    call,
                    steps + 2,
                    &fill,
                    &act,
                    &count,
                    caps,
                    words,
                ),
            }
        }
    }
}

// The place is filled, with no count.
#[inline(always)]
#[tactic(auto, using(crate::proofs::Sets::bare_fillings))]
fn fill_bare<W: Words>(
    own: &mut Own,
    active: &mut Option<ActiveCall>,
    call: &Call,
    steps: u32,
    fill: &Fill,
    act: &Act,
    caps: &Caps,
    words: &mut W,
) -> Went
    requires own { IsOwn own.old }
    requires room { own.old.made < own.old.limit }
    requires few { steps < 1000 }
    requires act { act.now ≡ act_of.Fill fill.now }
    requires fits { IsCore (W.core words.old) }
    requires stands { W.core words.old ≡ acts own.old call.now steps (act_of.Fill fill.now) caps.now }
    ensures { ended_so own.new active.old active.new (W.core words.new) (W.last words.new) result }
{
    let found = words.make(fill_op(fill, &own.layout));
    if found == fill.word {
        Went::Returned {
            reply: exit(own, Value::Nothing, words),
        }
    } else {
        rest_acting(active, call, steps, act, caps);
        Went::Falls { found }
    }
}

/// The place is filled, and the count that was acquired is committed.
#[inline(always)]
#[tactic(auto, using(crate::proofs::Sets::counted_fillings))]
pub fn fill_counted<W: Words>(
    own: &mut Own,
    active: &mut Option<ActiveCall>,
    call: &Call,
    steps: u32,
    fill: &Fill,
    act: &Act,
    count: &Acquired,
    caps: &Caps,
    words: &mut W,
) -> Went
    requires own { IsOwn own.old }
    requires room { own.old.made < own.old.limit }
    requires few { steps < 1000 }
    requires act { act.now ≡ act_of.Fill fill.now }
    requires fits { IsCore (W.core words.old) }
    requires stands { W.core words.old
        ≡ counts own.old call.now steps (Undecided (work.Act (act_of.Fill fill.now))) caps.now count.now }
    ensures { ended_so own.new active.old active.new (W.core words.new) (W.last words.new) result }
{
    let found = words.make(fill_op(fill, &own.layout));
    if found == fill.word {
        let settle = count.commit(true, None);
        words.make(settle.next(&own.layout));
        Went::Returned {
            reply: exit(own, Value::Nothing, words),
        }
    } else {
        rest_acting_counted(active, call, steps, act, caps, count);
        Went::Falls { found }
    }
}
