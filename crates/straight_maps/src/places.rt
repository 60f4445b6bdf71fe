//! The look-up of a place that is to be free.

ghost use Rattle.std.specs.Prelude.{◌≡◌, ◌<◌, ◌+◌, IfSome, IsTrue};
ghost use Rattle.straight_acts.specs.Acting.{IsFree};
ghost use Rattle.straight_looks.specs.Standing.{looks};
ghost use Rattle.straight_looks.specs.step_starts.specs.call_stages.specs.Fits.{IsCore};
ghost use Rattle.straight_maps.specs.Mapping.{HasFree, IsFreeAt, IsFreeIn, ShowsFree};
ghost use Rattle.straight_maps.specs.Outcomes.{placed_so};

use crate::ends::Placed;
use act_counts::act_states::Own;
use act_counts::act_states::call_plans::Caps;
use act_counts::act_states::entry_words::Entry;
use act_counts::act_states::stage_look::{Found, Look};
use call_stages::ActiveCall;
use spk_nums::{Call, EntryNo, FrameNo};
use straight_looks::{Followed, Words, follow, rest_looking};

/// The place of a call that is to be free is looked up, and shows that it holds nothing.
#[inline(always)]
#[tactic(auto, using(crate::proofs::Sets::placing))]
pub(crate) fn place<W: Words>(
    own: &Own,
    active: &mut Option<ActiveCall>,
    call: &Call,
    steps: u32,
    look: Look,
    caps: &Caps,
    words: &mut W,
) -> Placed
    requires few { steps < 900 }
    requires free { HasFree call.now caps.now }
    requires fits { IsCore (W.core words.old) }
    requires stands { W.core words.old ≡ looks own.now call.now steps look caps.now }
    ensures { placed_so own.now call.now (steps + 1) caps.now active.old active.new (W.core words.new) (W.last words.new) result }
{
    match follow(own, active, call, steps, look, caps, words) {
        Followed::Falls { found } => Placed::Falls { found },
        Followed::Leads { look } => place_here(own, active, call, steps + 1, look, caps, words),
    }
}

/// The word of the place at which a look-up stands is loaded, and shows that it holds nothing.
#[inline(always)]
#[tactic(auto, using(crate::proofs::Sets::placing))]
pub(crate) fn place_here<W: Words>(
    own: &Own,
    active: &mut Option<ActiveCall>,
    call: &Call,
    steps: u32,
    look: Look,
    caps: &Caps,
    words: &mut W,
) -> Placed
    requires few { steps < 1000 }
    requires free { HasFree call.now caps.now }
    requires fits { IsCore (W.core words.old) }
    requires stands { W.core words.old ≡ looks own.now call.now steps look caps.now }
    ensures { placed_so own.now call.now steps caps.now active.old active.new (W.core words.new) (W.last words.new) result }
{
    let found = words.make(look.next(&own.layout));
    match free_at(look, found) {
        None => {
            rest_looking(active, call, steps, look, caps);
            Placed::Falls { found }
        }
        Some(place) => Placed::At { place },
    }
}

// The place at which a look-up stands, where the word found there shows that it holds nothing.
#[inline(always)]
fn free_at(look: Look, word: u64) -> Option<Found>
    ensures { IfSome result (λ place. IsFreeAt look word place) }
{
    match look {
        Look::AtLeaf { leaf, number } => free_in(leaf, EntryNo::new(number.number() % 64), word),
        Look::AtEntry { root, entry } => free_in(root, entry, word),
        Look::AtRoot { .. } => None,
    }
}

// An entry of a node, where the word found there shows that it holds nothing.
#[inline(always)]
#[tactic(auto, using(crate::proofs::Sets::showing))]
fn free_in(node: FrameNo, entry: EntryNo, word: u64) -> Option<Found>
    ensures { IfSome result (λ place. IsFreeIn node entry word place) }
{
    match free_shown(word) {
        None => None,
        Some(value) => Some(Found {
            node,
            entry,
            word,
            value,
        }),
    }
}

// What a word shows that is one of a place that holds nothing.
#[inline(always)]
#[tactic(auto, using(crate::proofs::Sets::showing))]
fn free_shown(word: u64) -> Option<Entry>
    ensures { IfSome result (λ value. ShowsFree word value) }
{
    match Entry::unpack(word) {
        None => None,
        Some(entry) => { if is_free(&entry) { Some(entry) } else { None } }
    }
}

// Whether an entry holds nothing.
#[inline(always)]
fn is_free(entry: &Entry) -> bool
    ensures { IsTrue result → IsFree entry.now }
{
    match *entry {
        Entry::Free => true,
        Entry::Quiescing { .. } => true,
        _ => false,
    }
}
