//! A removal.

ghost use Rattle.std.specs.Prelude.{◌≡◌, ◌<◌, ◌≤◌, []};
ghost use Rattle.straight_acts.specs.Acting.{Removes, RemovesUnder, counts};
ghost use Rattle.straight_looks.specs.Outcomes.{ended_so, went_so};
ghost use Rattle.straight_looks.specs.Standing.{acts, looks, stands};
ghost use Rattle.straight_looks.specs.step_starts.specs.act_states.specs.Acts.{next_work, removing};
ghost use Rattle.straight_looks.specs.step_starts.specs.act_states.specs.declared.work.Work.TheVariants as work;
ghost use Rattle.straight_looks.specs.step_starts.specs.call_stages.specs.Fits.{IsCore, IsOwn};
ghost use Rattle.straight_looks.specs.step_starts.specs.call_stages.specs.declared.stages.Stage.TheVariants.{Enter, Undecided};
ghost use Rattle.straight_looks.specs.step_starts.specs.stage_look.specs.declared.look.Look.TheVariants.{AtRoot};

use crate::counts::{Acquiring, acquire};
use crate::rests::rest_acting_counted;
use act_counts::act_states::call_plans::{Caps, Name, Wanted};
use act_counts::act_states::stage_look::{Found, Look};
use act_counts::act_states::stage_pins::Acquired;
use act_counts::act_states::stage_quiet::{Close, drawn};
use act_counts::act_states::{Act, Own};
use act_counts::cap_due;
use call_stages::ActiveCall;
use spk_nums::{Call, Cap, CapId, FrameNo, Kind, Rights, Value};
use straight_looks::{
    Asked, Followed, Named, Went, Words, ask, exit, follow, held_at, name, rest_acting,
    rest_looking,
};

/// Makes a removal straight through.
#[inline(never)]
#[tactic(auto, using(crate::proofs::Sets::removings))]
pub fn remove<W: Words>(
    own: &mut Own,
    active: &mut Option<ActiveCall>,
    call: &Call,
    words: &mut W,
) -> Went
    requires own { IsOwn own.old }
    requires room { own.old.made < own.old.limit }
    requires begins { W.core words.old ≡ stands own.old call.now 0 Enter [] }
    ensures { went_so own.old own.new active.old active.new (W.core words.old) (W.core words.new) (W.last words.new) result }
{
    let Call::Remove { t, b } = *call else {
        return Went::Plainly;
    };
    if 4095 < t.number() || 4095 < b.number() {
        return Went::Plainly;
    }
    remove_under(own, active, call, t, Kind::Table, b, words)
}

/// Makes an unmapping straight through.
#[inline(never)]
#[tactic(auto, using(crate::proofs::Sets::unmappings))]
pub fn unmap<W: Words>(
    own: &mut Own,
    active: &mut Option<ActiveCall>,
    call: &Call,
    words: &mut W,
) -> Went
    requires own { IsOwn own.old }
    requires room { own.old.made < own.old.limit }
    requires begins { W.core words.old ≡ stands own.old call.now 0 Enter [] }
    ensures { went_so own.old own.new active.old active.new (W.core words.old) (W.core words.new) (W.last words.new) result }
{
    let Call::Unmap { p, v } = *call else {
        return Went::Plainly;
    };
    if 4095 < p.number() || 4095 < v.number() {
        return Went::Plainly;
    }
    remove_under(
        own,
        active,
        call,
        p,
        Kind::Pages,
        CapId::new(v.number()),
        words,
    )
}

// What stands under a number of a root of this kind is removed.
#[inline(always)]
#[tactic(auto, using(crate::proofs::Sets::removals_under))]
fn remove_under<W: Words>(
    own: &mut Own,
    active: &mut Option<ActiveCall>,
    call: &Call,
    root: CapId,
    kind: Kind,
    number: CapId,
    words: &mut W,
) -> Went
    requires own { IsOwn own.old }
    requires room { own.old.made < own.old.limit }
    requires root { root ≤ 4095 }
    requires number { number ≤ 4095 }
    requires removes { RemovesUnder own.old call.now root kind number }
    requires begins { W.core words.old ≡ stands own.old call.now 0 Enter [] }
    ensures { ended_so own.new active.old active.new (W.core words.new) (W.last words.new) result }
{
    match ask(own, active, call, words) {
        Asked::Falls { found } => Went::Falls { found },
        Asked::Lives => {
            let of_kind = Name {
                number: root,
                wanted: Wanted::Only { kind },
                needs: Rights::USE,
            };
            let mut caps = Caps::none();
            match name(own, active, call, 3, &of_kind, &caps, words) {
                Named::Falls { found } => Went::Falls { found },
                Named::Finds { cap } => {
                    caps.push(cap);
                    remove_at(own, active, call, cap.frame(), number, &caps, words)
                }
            }
        }
    }
}

// What stands under a number of this root is removed.
#[inline(always)]
#[tactic(auto, using(crate::proofs::Sets::removals_at))]
fn remove_at<W: Words>(
    own: &mut Own,
    active: &mut Option<ActiveCall>,
    call: &Call,
    root: FrameNo,
    number: CapId,
    caps: &Caps,
    words: &mut W,
) -> Went
    requires own { IsOwn own.old }
    requires room { own.old.made < own.old.limit }
    requires number { number ≤ 4095 }
    requires removes { Removes own.old call.now caps.now }
    requires fits { IsCore (W.core words.old) }
    requires stands { W.core words.old ≡ looks own.old call.now 5 (AtRoot root number) caps.now }
    ensures { ended_so own.new active.old active.new (W.core words.new) (W.last words.new) result }
{
    let place = Look::place(root, number);
    match follow(own, active, call, 5, place, caps, words) {
        Followed::Falls { found } => Went::Falls { found },
        Followed::Leads { look } => {
            let found = words.make(look.next(&own.layout));
            match held_at(own, &look, found) {
                None => {
                    rest_looking(active, call, 6, look, caps);
                    Went::Falls { found }
                }
                Some(held) => {
                    remove_held(own, active, call, 7, &held.place, &held.cap, caps, words)
                }
            }
        }
    }
}

/// What a place holds is removed, after the count of its frame is acquired if it has one.
#[inline(always)]
#[tactic(auto, using(crate::proofs::Sets::removals_held))]
pub fn remove_held<W: Words>(
    own: &mut Own,
    active: &mut Option<ActiveCall>,
    call: &Call,
    steps: u32,
    place: &Found,
    cap: &Cap,
    caps: &Caps,
    words: &mut W,
) -> Went
    requires own { IsOwn own.old }
    requires room { own.old.made < own.old.limit }
    requires few { steps < 900 }
    requires fits { IsCore (W.core words.old) }
    requires begins { W.core words.old
        ≡ stands own.old call.now steps (Undecided (next_work own.old.core 0 (removing own.old.core cap.now place.now))) caps.now }
    ensures { ended_so own.new active.old active.new (W.core words.new) (W.last words.new) result }
{
    let act = Act::Remove {
        close: Close::new(place.node, place.entry, place.word, own.core),
        cap: *cap,
    };
    match cap_due(cap, -1, 0) {
        None => remove_bare(own, active, call, steps, place, cap, &act, caps, words),
        Some(due) => {
            match acquire(
                own, active, call, steps, due.frame, due.change, &act, caps, words,
            ) {
                Acquiring::Falls { found } => Went::Falls { found },
                Acquiring::Holds { count } => remove_counted(
                    own,
                    active,
                    call,
                    steps + 2,
                    place,
                    cap,
                    &act,
                    &count,
                    caps,
                    words,
                ),
            }
        }
    }
}

// What a place holds is removed, with no count: it is marked, a stamp is drawn, and the entry is stored that quiesces since it.
#[inline(always)]
#[tactic(auto, using(crate::proofs::Sets::bare_removals))]
fn remove_bare<W: Words>(
    own: &mut Own,
    active: &mut Option<ActiveCall>,
    call: &Call,
    steps: u32,
    place: &Found,
    cap: &Cap,
    act: &Act,
    caps: &Caps,
    words: &mut W,
) -> Went
    requires own { IsOwn own.old }
    requires room { own.old.made < own.old.limit }
    requires few { steps < 1000 }
    requires act { act.now ≡ removing own.old.core cap.now place.now }
    requires fits { IsCore (W.core words.old) }
    requires stands { W.core words.old ≡ acts own.old call.now steps (removing own.old.core cap.now place.now) caps.now }
    ensures { ended_so own.new active.old active.new (W.core words.new) (W.last words.new) result }
{
    let (node, entry) = (place.node, place.entry);
    let close = Close::new(node, entry, place.word, own.core);
    let found = words.make(close.next(&own.layout));
    if found == place.word {
        let draw = Close::AtDraw { node, entry };
        let stamp = drawn(words.make(draw.next(&own.layout)));
        let store = Close::AtStore { node, entry, stamp };
        words.make(store.next(&own.layout));
        Went::Returned {
            reply: exit(own, Value::Nothing, words),
        }
    } else {
        rest_acting(active, call, steps, act, caps);
        Went::Falls { found }
    }
}

// The same, and the count that was acquired is committed.
#[inline(always)]
#[tactic(auto, using(crate::proofs::Sets::counted_removals))]
fn remove_counted<W: Words>(
    own: &mut Own,
    active: &mut Option<ActiveCall>,
    call: &Call,
    steps: u32,
    place: &Found,
    cap: &Cap,
    act: &Act,
    count: &Acquired,
    caps: &Caps,
    words: &mut W,
) -> Went
    requires own { IsOwn own.old }
    requires room { own.old.made < own.old.limit }
    requires few { steps < 1000 }
    requires act { act.now ≡ removing own.old.core cap.now place.now }
    requires fits { IsCore (W.core words.old) }
    requires stands { W.core words.old
        ≡ counts own.old call.now steps (Undecided (work.Act (removing own.old.core cap.now place.now))) caps.now count.now }
    ensures { ended_so own.new active.old active.new (W.core words.new) (W.last words.new) result }
{
    let (node, entry) = (place.node, place.entry);
    let close = Close::new(node, entry, place.word, own.core);
    let found = words.make(close.next(&own.layout));
    if found == place.word {
        let draw = Close::AtDraw { node, entry };
        let stamp = drawn(words.make(draw.next(&own.layout)));
        let store = Close::AtStore { node, entry, stamp };
        words.make(store.next(&own.layout));
        let settle = count.commit(true, Some(stamp));
        words.make(settle.next(&own.layout));
        Went::Returned {
            reply: exit(own, Value::Nothing, words),
        }
    } else {
        rest_acting_counted(active, call, steps, act, caps, count);
        Went::Falls { found }
    }
}
