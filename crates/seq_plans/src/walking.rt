//! What a call looks up by its plan.

ghost use Rattle.std.specs.Prelude.{◌≡◌, ◌<◌, Option};
ghost use Rattle.seq_state.specs.kernel_rules.specs.Access.{held_in};
ghost use Rattle.call_plans.specs.GoesBy.{wants, want_of, earlier, place_of_spot};
ghost use Rattle.seq_state.specs.Parts.{place_held};
ghost use Rattle.seq_state.specs.Maps.{state_of};
ghost use Rattle.seq_plans.specs.Reaches.{named_of, target_of};
ghost use Rattle.seq_plans.specs.Walks.{names_in, nothing, before, if_wanted, led, led_by, slot_by, held_by, looked};

use crate::reaching::{Aim, Reach, own, own_page, place_at, reached_by, usable_by};
use call_plans::{Name, Nth, Plan, Spot, Target as PlanTarget, Wanted};
use seq_lookups::Slot;
use seq_state::{Place, SeqKernel};
use spk_nums::{Cap, CoreNo, Kind};

/// What a call has looked up: the capability to which each of its names leads, the slot of its target, and what that holds,
/// each None where there is no such name or target, or it leads to nothing that is wanted.
#[derive(Clone, Copy)]
pub struct Looked {
    /// The capability to which the first name leads.
    pub first: Option<Cap>,
    /// That of the second name.
    pub second: Option<Cap>,
    /// That of the third name.
    pub third: Option<Cap>,
    /// That of the fourth name.
    pub fourth: Option<Cap>,
    /// The slot of the target, or of the touched page.
    pub at: Option<Slot>,
    /// What that holds, where the call asks for it.
    pub held: Option<Cap>,
}

/// The number of a kind, in their order.
fn is_kind(wanted: Kind, kind: Kind) -> bool
    ensures { result ≡ only wanted kind }
{
    wanted == kind
}

/// Whether a leaf of this kind is what a root takes; any, where no root was found.
fn is_leaf_for(root: Option<Cap>, kind: Kind) -> bool
    ensures { result ≡ leaf_for (named_of root) kind }
{
    match root {
        None => true,
        Some(cap) => match cap.kind() {
            Kind::Table => is_kind(Kind::Leaf, kind),
            _ => is_kind(Kind::Pleaf, kind),
        },
    }
}

impl Looked {
    /// Nothing.
    pub(crate) fn nothing() -> Looked
        ensures { result ≡ nothing }
    {
        Looked {
            first: None,
            second: None,
            third: None,
            fourth: None,
            at: None,
            held: None,
        }
    }

    /// What the name at this place leads to.
    pub(crate) fn get(&self, nth: Nth) -> Option<Cap>
        ensures { named_of result ≡ earlier (names_in self.now) nth }
    {
        match nth {
            Nth::First => self.first,
            Nth::Second => self.second,
            Nth::Third => self.third,
            Nth::Fourth => self.fourth,
        }
    }

    /// What the names before this one lead to.
    pub(crate) fn before(&self, nth: Nth) -> Looked
        ensures { result ≡ before self.now nth }
    {
        match nth {
            Nth::First => Looked::nothing(),
            Nth::Second => Looked {
                first: self.first,
                ..Looked::nothing()
            },
            Nth::Third => Looked {
                first: self.first,
                second: self.second,
                ..Looked::nothing()
            },
            Nth::Fourth => Looked {
                first: self.first,
                second: self.second,
                third: self.third,
                ..Looked::nothing()
            },
        }
    }

    /// Whether a capability of this kind is wanted, where the names have led to these.
    pub(crate) fn wants(&self, wanted: Wanted, kind: Kind) -> bool
        ensures { result ≡ wants (names_in self.now) wanted kind }
    {
        match wanted {
            Wanted::Any => true,
            Wanted::Only { kind: only } => is_kind(only, kind),
            Wanted::Root => is_kind(Kind::Table, kind) || is_kind(Kind::Pages, kind),
            Wanted::LeafOf { root } => is_leaf_for(self.get(root), kind),
        }
    }

    /// The target of a spot.
    pub(crate) fn aim(&self, spot: Spot) -> Aim
        ensures { target_of result ≡ place_of_spot (names_in self.now) spot }
    {
        match spot {
            Spot::Under { root, number } => Aim::Under {
                root: self.get(root),
                number,
            },
            Spot::InRoot { root, entry } => Aim::InRoot {
                root: self.get(root),
                index: entry,
            },
        }
    }
}

/// The capability, where it is such as a name wants.
fn if_wanted(name: &Name, looked: &Looked, cap: Cap) -> Option<Cap>
    ensures { result ≡ if_wanted (want_of (names_in looked.now) name.now) cap }
{
    if looked.wants(name.wanted, cap.kind()) && cap.rights().has(name.needs) {
        Some(cap)
    } else {
        None
    }
}

/// What is wanted of what a core finds at a slot.
fn led_at(
    k: &SeqKernel,
    core: CoreNo,
    reach: Reach,
    name: &Name,
    looked: &Looked,
    at: Slot,
) -> Option<Cap>
    ensures { result ≡ option_and_then (if_wanted (want_of (names_in looked.now) name.now)) (usable_by reach (state_of k.now) core at) }
{
    match usable_by(k, core, reach, at) {
        None => None,
        Some(cap) => if_wanted(name, looked, cap),
    }
}

/// The capability to which a name leads a core, where it is such as is wanted and the names before it have led to these.
fn led(k: &SeqKernel, core: CoreNo, reach: Reach, name: &Name, looked: &Looked) -> Option<Cap>
    requires { core < (state_of k.now).limits.cores }
    ensures { result ≡ led reach (state_of k.now) core name.now.number (want_of (names_in looked.now) name.now) }
{
    match reached_by(k, core, reach, &own(k, core, name.number)) {
        None => None,
        Some(at) => led_at(k, core, reach, name, looked, at),
    }
}

/// That of the name at this place, if there are so many.
fn led_by(
    k: &SeqKernel,
    core: CoreNo,
    reach: Reach,
    plan: &Plan,
    nth: Nth,
    looked: &Looked,
) -> Option<Cap>
    requires { core < (state_of k.now).limits.cores }
    ensures { result ≡ led_by reach (state_of k.now) core looked.now (at_place plan.now.names nth) }
{
    match plan.names.get(nth) {
        None => None,
        Some(name) => led(k, core, reach, &name, looked),
    }
}

/// The slot of a target.
fn slot_by(
    k: &SeqKernel,
    core: CoreNo,
    reach: Reach,
    target: &PlanTarget,
    looked: &Looked,
) -> Option<Slot>
    requires { core < (state_of k.now).limits.cores }
    ensures { result ≡ slot_by reach (state_of k.now) core (names_in looked.now) target.now }
{
    match *target {
        PlanTarget::Nowhere => None,
        PlanTarget::Free { spot } => reached_by(k, core, reach, &looked.aim(spot)),
        PlanTarget::Held { spot } => reached_by(k, core, reach, &looked.aim(spot)),
        PlanTarget::Own { page } => reached_by(k, core, reach, &own_page(k, core, page)),
    }
}

/// What a place holds.
pub(crate) fn held_in(place: Place) -> Option<Cap>
    ensures { result ≡ held_in (place_held place) }
{
    match place {
        Place::Free => None,
        Place::Holds(cap) => Some(cap),
        Place::Quiescing(_) => None,
    }
}

/// What the place of a slot holds, if there is a slot.
fn held_at(k: &SeqKernel, at: Option<Slot>) -> Option<Cap>
    ensures { result ≡ option_and_then (λ at. held_in (place_at (state_of k.now) at)) at }
{
    match at {
        None => None,
        Some(at) => held_in(place_at(k, at)),
    }
}

/// What the target holds, where the call asks for it.
fn held_by(k: &SeqKernel, target: &PlanTarget, at: Option<Slot>) -> Option<Cap>
    ensures { result ≡ held_by (state_of k.now) target.now at }
{
    match *target {
        PlanTarget::Nowhere => None,
        PlanTarget::Free { spot: _ } => None,
        PlanTarget::Held { spot: _ } => held_at(k, at),
        PlanTarget::Own { page: _ } => held_at(k, at),
    }
}

/// All that a core of the machine looks up by a plan: the capability to which each name leads, the slot of the target, and what
/// that holds. Nothing is judged of the target: whether it is free is the call's own question.
pub fn look_up(k: &SeqKernel, core: CoreNo, plan: &Plan, reach: Reach) -> Looked
    requires { core < (state_of k.now).limits.cores }
    ensures { result ≡ looked reach (state_of k.now) core plan.now }
{
    let mut looked = Looked::nothing();
    looked.first = led_by(k, core, reach, plan, Nth::First, &looked);
    looked.second = led_by(k, core, reach, plan, Nth::Second, &looked);
    looked.third = led_by(k, core, reach, plan, Nth::Third, &looked);
    looked.fourth = led_by(k, core, reach, plan, Nth::Fourth, &looked);
    looked.at = slot_by(k, core, reach, &plan.target, &looked);
    looked.held = held_by(k, &plan.target, looked.at);
    looked
}

ghost use Rattle.std.specs.Option.{option_and_then};
ghost use Rattle.seq_state.specs.kernel_rules.specs.Access.{only, place_at};
ghost use Rattle.seq_state.specs.kernel_rules.specs.CapabilityCalls.{leaf_for};
ghost use Rattle.call_plans.specs.Plans.{at_place};
ghost use Rattle.seq_plans.specs.Reaches.{usable_by};
