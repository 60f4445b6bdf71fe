//! The growing and the shrinking of a root.

ghost use Rattle.std.specs.Prelude.{◌≡◌, ◌<◌, [], IfSome, Some};
ghost use Rattle.straight_acts.specs.Acting.{Removes};
ghost use Rattle.straight_looks.specs.Outcomes.{ended_so, went_so};
ghost use Rattle.straight_looks.specs.Standing.{Holds, looks, stands};
ghost use Rattle.straight_looks.specs.step_starts.specs.act_states.specs.Acts.{is_pages};
ghost use Rattle.straight_looks.specs.step_starts.specs.call_stages.specs.Fits.{IsCore, IsOwn};
ghost use Rattle.straight_looks.specs.step_starts.specs.call_stages.specs.declared.stages.Stage.TheVariants.{Enter};
ghost use Rattle.straight_looks.specs.step_starts.specs.entry_words.specs.declared.entry.Entry.TheVariants.{Held};
ghost use Rattle.straight_looks.specs.step_starts.specs.stage_look.specs.Lookup.{LookFits};
ghost use Rattle.straight_maps.specs.Mapping.{FillsWith};

use crate::ends::Placed;
use crate::fills::fill_place;
use crate::places::place_here;
use act_counts::act_states::Own;
use act_counts::act_states::call_plans::{Caps, Name, Nth, Wanted};
use act_counts::act_states::entry_words::Entry;
use act_counts::act_states::stage_look::Look;
use call_stages::ActiveCall;
use spk_nums::{Call, Cap, Kind, Rights, StageEnd};
use straight_acts::remove_held;
use straight_looks::{Asked, HeldAt, Named, Went, Words, ask, name, rest_looking};

/// Makes a growing straight through.
#[inline(never)]
#[tactic(auto, using(crate::proofs::Sets::growing))]
pub fn grow<W: Words>(
    own: &mut Own,
    active: &mut Option<ActiveCall>,
    call: &Call,
    words: &mut W,
) -> Went
    requires own { IsOwn own.old }
    requires room { own.old.made < own.old.limit }
    requires begins { W.core words.old ≡ stands own.old call.now 0 Enter [] }
    ensures { went_so own.old own.new active.old active.new (W.core words.old) (W.core words.new) (W.last words.new) result }
{
    let Call::Grow { t, i, l } = *call else {
        return Went::Plainly;
    };
    if 4095 < t.number() || 4095 < l.number() || 63 < i.number() {
        return Went::Plainly;
    }
    match ask(own, active, call, words) {
        Asked::Falls { found } => return Went::Falls { found },
        Asked::Lives => {}
    }
    let mut caps = Caps::none();
    let any_root = Name {
        number: t,
        wanted: Wanted::Root,
        needs: Rights::USE,
    };
    let root = match name(own, active, call, 3, &any_root, &caps, words) {
        Named::Falls { found } => return Went::Falls { found },
        Named::Finds { cap } => cap,
    };
    caps.push(root);
    let its_leaf = Name {
        number: l,
        wanted: Wanted::LeafOf { root: Nth::First },
        needs: Rights::USE,
    };
    let leaf = match name(own, active, call, 5, &its_leaf, &caps, words) {
        Named::Falls { found } => return Went::Falls { found },
        Named::Finds { cap } => cap,
    };
    caps.push(leaf);
    let look = Look::root(root.frame(), i);
    let link = Cap::new(Kind::Link, leaf.frame(), 0);
    grow_at(
        own,
        active,
        call,
        look,
        &link,
        is_pages(&root),
        &caps,
        words,
    )
}

// Whether a capability is of the root of a page table.
#[inline(always)]
fn is_pages(root: &Cap) -> bool
    ensures { result ≡ is_pages (Some root.now) }
{
    matches!(root.kind(), Kind::Pages)
}

// The root's entry is loaded, and filled with this link.
#[inline(always)]
#[tactic(auto, using(crate::proofs::Sets::filling))]
fn grow_at<W: Words>(
    own: &mut Own,
    active: &mut Option<ActiveCall>,
    call: &Call,
    look: Look,
    link: &Cap,
    page: bool,
    caps: &Caps,
    words: &mut W,
) -> Went
    requires own { IsOwn own.old }
    requires room { own.old.made < own.old.limit }
    requires fills { FillsWith own.old call.now caps.now link.now page }
    requires fits { IsCore (W.core words.old) }
    requires stands { W.core words.old ≡ looks own.old call.now 7 look caps.now }
    ensures { ended_so own.new active.old active.new (W.core words.new) (W.last words.new) result }
{
    match place_here(own, active, call, 7, look, caps, words) {
        Placed::Falls { found } => Went::Falls { found },
        Placed::At { place } => {
            fill_place(own, active, call, 8, &place, link, page, caps, words)
        }
    }
}

/// Makes a shrinking straight through.
#[inline(never)]
#[tactic(auto, using(crate::proofs::Sets::growing))]
pub fn shrink<W: Words>(
    own: &mut Own,
    active: &mut Option<ActiveCall>,
    call: &Call,
    words: &mut W,
) -> Went
    requires own { IsOwn own.old }
    requires room { own.old.made < own.old.limit }
    requires begins { W.core words.old ≡ stands own.old call.now 0 Enter [] }
    ensures { went_so own.old own.new active.old active.new (W.core words.old) (W.core words.new) (W.last words.new) result }
{
    let Call::Shrink { t, i } = *call else {
        return Went::Plainly;
    };
    if 4095 < t.number() || 63 < i.number() {
        return Went::Plainly;
    }
    match ask(own, active, call, words) {
        Asked::Falls { found } => return Went::Falls { found },
        Asked::Lives => {}
    }
    let mut caps = Caps::none();
    let any_root = Name {
        number: t,
        wanted: Wanted::Root,
        needs: Rights::USE,
    };
    let root = match name(own, active, call, 3, &any_root, &caps, words) {
        Named::Falls { found } => return Went::Falls { found },
        Named::Finds { cap } => cap,
    };
    caps.push(root);
    let look = Look::root(root.frame(), i);
    shrink_at(own, active, call, look, &caps, words)
}

// The root's entry is loaded, and what it holds removed.
#[inline(always)]
#[tactic(auto, using(crate::proofs::Sets::removing))]
fn shrink_at<W: Words>(
    own: &mut Own,
    active: &mut Option<ActiveCall>,
    call: &Call,
    look: Look,
    caps: &Caps,
    words: &mut W,
) -> Went
    requires own { IsOwn own.old }
    requires room { own.old.made < own.old.limit }
    requires removes { Removes own.old call.now caps.now }
    requires fits { IsCore (W.core words.old) }
    requires stands { W.core words.old ≡ looks own.old call.now 5 look caps.now }
    ensures { ended_so own.new active.old active.new (W.core words.new) (W.last words.new) result }
{
    let found = words.make(look.next(&own.layout));
    match held_in(own, look, found) {
        None => {
            rest_looking(active, call, 5, look, caps);
            Went::Falls { found }
        }
        Some(held) => remove_held(own, active, call, 6, &held.place, &held.cap, caps, words),
    }
}

// The place at which a look-up stands, where the word found there shows a capability.
#[inline(always)]
#[tactic(auto, using(crate::proofs::Sets::holding))]
fn held_in(own: &Own, look: Look, word: u64) -> Option<HeldAt>
    requires { LookFits own.now.layout look }
    ensures { IfSome result (λ h. Holds own.now look word h.place h.cap) }
{
    let mut look = look;
    match look.take(&own.layout, word) {
        StageEnd::Done(place) => match cap_in(place.value) {
            None => None,
            Some(cap) => Some(HeldAt { place, cap }),
        },
        _ => None,
    }
}

// The capability that an entry holds, if it holds one.
#[inline(always)]
fn cap_in(value: Entry) -> Option<Cap>
    ensures { IfSome result (λ k. value ≡ Held k) }
{
    match value {
        Entry::Held(cap) => Some(cap),
        _ => None,
    }
}
