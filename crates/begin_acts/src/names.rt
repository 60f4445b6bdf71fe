//! What a name has led to, and the frame to which an earlier name has led.
//!
//! **Refusals.** A name is refused where nothing is held at its place, then where what is held is of a kind that is not wanted, then where
//! that lacks a right that is needed.

ghost use Rattle.act_counts.specs.act_states.specs.Lookups.{met_cap, met_name};
ghost use Rattle.act_counts.specs.call_plans.specs.After.{with_found};
ghost use Rattle.act_counts.specs.call_plans.specs.GoesBy.{earlier, want_of};
ghost use Rattle.std.specs.Prelude.{[], ◌≡◌};

use act_counts::act_states::call_plans::{Caps, Name, Nth};
use act_counts::act_states::entry_words::Entry;
use act_counts::act_states::{Met, Refusal};
use spk_nums::{Cap, FrameNo};

/// The frame to which an earlier name has led, or frame 0.
#[inline]
#[tactic(auto, using(crate::proofs::Frames::some_frame, crate::proofs::Frames::no_frame))]
pub fn frame_of(found: &Caps, at: Nth) -> FrameNo
    ensures { result ≡ (earlier (with_found [] found.now) at).frame }
{
    match found.get(at) {
        Some(cap) => cap.frame(),
        None => FrameNo::new(0),
    }
}

// What a name has led to, where its place holds this capability.
#[inline]
fn met_cap(found: &Caps, name: &Name, cap: Cap) -> Met
    ensures { result ≡ met_cap (want_of (with_found [] found.now) name.now) cap }
{
    if found.is_wanted(name.wanted, cap.kind()) {
        if cap.rights().has(name.needs) {
            Met::Finds { cap }
        } else {
            Met::Refused {
                refusal: Refusal::NoRight,
            }
        }
    } else {
        Met::Refused {
            refusal: Refusal::WrongCap,
        }
    }
}

/// What a name has led to, where its place shows this entry.
#[inline]
pub fn met_name(found: &Caps, name: &Name, entry: &Entry) -> Met
    ensures { result ≡ met_name (want_of (with_found [] found.now) name.now) entry.now }
{
    match *entry {
        Entry::Free => Met::Refused {
            refusal: Refusal::Empty,
        },
        Entry::Held(cap) => met_cap(found, name, cap),
        Entry::Closing { by } => Met::Refused {
            refusal: Refusal::Busy(by),
        },
        Entry::Quiescing { stamp: _ } => Met::Refused {
            refusal: Refusal::Empty,
        },
    }
}
