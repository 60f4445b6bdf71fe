//! What the word of a place shows, where that is what a straight call expects.

ghost use Rattle.std.specs.Prelude.{◌≡◌, nat_le, IfSome, IsTrue, Some, []};
ghost use Rattle.step_starts.specs.act_states.specs.Lookups.{met_name};
ghost use Rattle.step_starts.specs.act_states.specs.declared.lookups.Met.TheVariants.{Finds};
ghost use Rattle.step_starts.specs.call_plans.specs.After.{with_found};
ghost use Rattle.step_starts.specs.call_plans.specs.GoesBy.{want_of};
ghost use Rattle.step_starts.specs.entry_words.specs.declared.entry.Entry.TheVariants.{Held};
ghost use Rattle.step_starts.specs.stage_look.specs.Shown.{end_of_frames, entry_within, held_if, shown_in};
ghost use Rattle.straight_looks.specs.Standing.{Holds};

use spk_nums::{Cap, EntryNo, Kind};
use step_lands::act_states::Own;
use step_lands::act_states::call_plans::{Caps, Name};
use step_lands::act_states::entry_words::Entry;
use step_lands::act_states::stage_look::{Found, Look};

/// A place that holds a capability.
#[derive(Clone, Copy)]
pub struct HeldAt {
    /// The place.
    pub place: Found,
    /// What it holds.
    pub cap: Cap,
}

/// The place of a look-up that stands at a leaf, where the word found there shows a capability.
#[inline(always)]
#[tactic(auto, using(crate::proofs::Sets::showing))]
pub fn held_at(own: &Own, look: &Look, word: u64) -> Option<HeldAt>
    ensures { IfSome result (λ h. Holds own.now look.now word h.place h.cap) }
{
    match *look {
        Look::AtLeaf { leaf, number } => match cap_shown(own.layout.frames(), word) {
            None => None,
            Some(cap) => Some(HeldAt {
                place: Found {
                    node: leaf,
                    entry: EntryNo::new(number.number() % 64),
                    word,
                    value: Entry::Held(cap),
                },
                cap,
            }),
        },
        _ => None,
    }
}

// The capability that a word shows on a machine of so many frames, if it shows one.
#[inline(always)]
#[tactic(auto, using(crate::proofs::Sets::showing))]
fn cap_shown(frames: u16, word: u64) -> Option<Cap>
    ensures { IfSome result (λ k. shown_in frames word ≡ Some (Held k)) }
{
    match Entry::unpack(word) {
        None => None,
        Some(entry) => cap_within(frames, entry),
    }
}

// The capability that an entry holds, if it holds one that names no frame past the machine's.
#[inline(always)]
fn cap_within(frames: u16, entry: Entry) -> Option<Cap>
    ensures { IfSome result (λ k. entry_within frames (Some entry) ≡ Some (Held k)) }
{
    match entry {
        Entry::Held(cap) => cap_if(is_within(frames, cap), cap),
        _ => None,
    }
}

// The capability, where it is shown.
#[inline(always)]
fn cap_if(shown: bool, cap: Cap) -> Option<Cap>
    ensures { IfSome result (λ k. held_if shown cap ≡ Some (Held k)) }
{
    if shown { Some(cap) } else { None }
}

// Whether a capability names no frame past the machine's.
#[inline(always)]
fn is_within(frames: u16, cap: Cap) -> bool
    ensures { result ≡ nat_le (end_of_frames cap.kind cap.frame cap.arg) frames }
{
    let first = u32::from(cap.frame().number());
    match cap.kind() {
        Kind::Range => first + cap.arg() <= u32::from(frames),
        _ => first + 1 <= u32::from(frames),
    }
}

/// Whether a capability is one that a name wants, where the earlier names have led to these.
#[inline(always)]
#[tactic(auto, using(crate::proofs::Sets::showing))]
pub(crate) fn is_wanted(caps: &Caps, name: &Name, cap: &Cap) -> bool
    ensures { IsTrue result → met_name (want_of (with_found [] caps.now) name.now) (Held cap.now) ≡ Finds cap.now }
{
    caps.is_wanted(name.wanted, cap.kind()) && cap.rights().has(name.needs)
}
