//! Whether the look-ups of a call may be refused.
//!
//! A refusal may come of each name, and of the target, wherever its own cause stands, whatever the other look-ups find.

ghost use Rattle.std.specs.Prelude.{◌≡◌, ◌<◌, ◌≤◌, ◌⊎◌, IsTrue, IsFalse, is_some};
ghost use Rattle.seq_state.specs.kernel_rules.specs.Access.{root_at, has_no_slot, holds_link, Under};
ghost use Rattle.seq_state.specs.kernel_rules.specs.Rules.{ReachesNone, ReachesHeld, ReachesOther, ReachesLacking, NameMay, VacantMay, HeldMay, MappedMay};
ghost use Rattle.seq_state.specs.kernel_rules.specs.MemoryCalls.{translation_of};
ghost use Rattle.seq_state.specs.kernel_rules.specs.State.{comp_of};
ghost use Rattle.call_plans.specs.GoesBy.{want_of};
ghost use Rattle.seq_state.specs.Parts.{place_held};
ghost use Rattle.seq_state.specs.Maps.{state_of};
ghost use Rattle.seq_plans.specs.Reaches.{target_of};
ghost use Rattle.seq_plans.specs.Walks.{names_in};
ghost use Rattle.seq_plans.specs.Refusals.{Decides, NthMay, TargetMay, LooksMay};

use crate::caching::translation_of;
use crate::causes::{may_be_unflushed, may_wait};
use crate::reaching::{Aim, Reach, own, own_page, place_at, reached_by};
use crate::walking::{Looked, held_in};
use call_plans::{Name, Nth, Plan, Target};
use seq_lookups::{Slot, comp_of, usable};
use seq_state::{Place, SeqKernel};
use spk_nums::{Cap, CoreNo, EntryNo, FrameNo, Kind, PageNo, Reply};

/// Whether a place holds a link.
fn holds_link(place: Place) -> bool
    ensures { result ≡ holds_link (place_held place) }
{
    match place {
        Place::Free => false,
        Place::Holds(cap) => cap.kind() == Kind::Link,
        Place::Quiescing(_) => false,
    }
}

/// Whether the root entry that leads to a number, up to 4,095, holds a link.
fn links(k: &SeqKernel, root: FrameNo, number: u16) -> bool
    requires { number ≤ 4095 }
    ensures { result ≡ holds_link (place_at (state_of k.now) (root_slot root number)) }
{
    holds_link(place_at(k, Slot::new(root, EntryNo::new(number / 64))))
}

/// Whether a number has no slot in the table of this root, if that was found.
fn has_none_under(k: &SeqKernel, root: &Option<Cap>, number: u16) -> bool
    ensures { result ≡ has_no_slot (state_of k.now) (Under (named_of root.now) number) }
{
    if number > 4095 {
        return true;
    }
    match root {
        None => false,
        Some(cap) => !links(k, cap.frame(), number),
    }
}

/// Whether a target has no slot: its number is too large, or the root entry holds no link.
fn has_no_slot(k: &SeqKernel, aim: &Aim) -> bool
    ensures { result ≡ has_no_slot (state_of k.now) (target_of aim.now) }
{
    match aim {
        Aim::Under { root, number } => has_none_under(k, root, *number),
        Aim::InRoot { root: _, index } => index.number() > 63,
    }
}

/// Whether a place holds something.
fn is_held(k: &SeqKernel, at: Slot) -> bool
    ensures { result ≡ is_some (held_in (place_at (state_of k.now) at)) }
{
    held_in(place_at(k, at)).is_some()
}

/// Whether a core reaches a slot whose place holds nothing.
fn reaches_none(k: &SeqKernel, core: CoreNo, aim: &Aim) -> bool
    ensures { Decides result (ReachesNone (state_of k.now) core (target_of aim.now)) }
{
    match reached_by(k, core, Reach::Own, aim) {
        None => false,
        Some(at) => !is_held(k, at),
    }
}

/// Whether a core reaches a slot whose place holds something.
fn reaches_held(k: &SeqKernel, core: CoreNo, aim: &Aim) -> bool
    ensures { Decides result (ReachesHeld (state_of k.now) core (target_of aim.now)) }
{
    match reached_by(k, core, Reach::Own, aim) {
        None => false,
        Some(at) => is_held(k, at),
    }
}

/// What a core may use at the slot that it reaches.
fn reaches(k: &SeqKernel, core: CoreNo, aim: &Aim) -> Option<Cap>
    ensures { result ≡ option_and_then (usable (state_of k.now) core) (reached (state_of k.now) core (target_of aim.now)) }
{
    match reached_by(k, core, Reach::Own, aim) {
        None => None,
        Some(at) => usable(k, core, at),
    }
}

/// Whether a core may use a capability there of a kind that is not wanted.
fn reaches_other(k: &SeqKernel, core: CoreNo, aim: &Aim, name: &Name, looked: &Looked) -> bool
    ensures { Decides result (ReachesOther (state_of k.now) core (target_of aim.now) (want_of (names_in looked.now) name.now)) }
{
    match reaches(k, core, aim) {
        None => false,
        Some(cap) => !looked.wants(name.wanted, cap.kind()),
    }
}

/// Whether a core may use a capability there of a wanted kind that lacks a right that is needed.
fn reaches_lacking(k: &SeqKernel, core: CoreNo, aim: &Aim, name: &Name, looked: &Looked) -> bool
    ensures { Decides result (ReachesLacking (state_of k.now) core (target_of aim.now) (want_of (names_in looked.now) name.now)) }
{
    match reaches(k, core, aim) {
        None => false,
        Some(cap) => looked.wants(name.wanted, cap.kind()) & !cap.rights().has(name.needs),
    }
}

/// Whether a name may be refused, where the names before it have led to these.
fn name_may(k: &SeqKernel, core: CoreNo, name: &Name, looked: &Looked, refusal: &Reply) -> bool
    requires { core < (state_of k.now).limits.cores }
    ensures { Decides result
        (NameMay (state_of k.now) core name.now.number (want_of (names_in looked.now) name.now) refusal.now) }
{
    let aim = own(k, core, name.number);
    match refusal {
        Reply::NoSlot => has_no_slot(k, &aim),
        Reply::Empty => reaches_none(k, core, &aim),
        Reply::WrongCap => reaches_other(k, core, &aim, name, looked),
        Reply::NoRight => reaches_lacking(k, core, &aim, name, looked),
        _ => false,
    }
}

/// Whether the name at this place may be refused, if there are so many.
fn nth_may(
    k: &SeqKernel,
    core: CoreNo,
    plan: &Plan,
    looked: &Looked,
    nth: Nth,
    refusal: &Reply,
) -> bool
    requires { core < (state_of k.now).limits.cores }
    ensures { Decides result (NthMay (state_of k.now) core plan.now looked.now nth refusal.now) }
{
    match plan.names.get(nth) {
        None => false,
        Some(name) => name_may(k, core, &name, &looked.before(nth), refusal),
    }
}

/// Whether another core may still be in the grace period of the place that a core reaches.
fn place_may_wait(k: &SeqKernel, core: CoreNo, aim: &Aim, other: CoreNo) -> bool
    ensures { Decides result (IsSomeAnd (reached (state_of k.now) core (target_of aim.now))
        λ at. MayWait (state_of k.now) core (PlaceOf at.node at.index) other) }
{
    match reached_by(k, core, Reach::Own, aim) {
        None => false,
        Some(at) => may_wait(k, core, at.thing(), other),
    }
}

/// Whether a core may not have flushed in the grace period of the place that a core reaches.
fn place_may_be_unflushed(k: &SeqKernel, core: CoreNo, aim: &Aim, other: CoreNo) -> bool
    ensures { Decides result (IsSomeAnd (reached (state_of k.now) core (target_of aim.now))
        λ at. MayBeUnflushed (state_of k.now) (PlaceOf at.node at.index) other) }
{
    match reached_by(k, core, Reach::Own, aim) {
        None => false,
        Some(at) => may_be_unflushed(k, at.thing(), other),
    }
}

/// Whether a target that is to be free may be refused.
fn vacant_may(k: &SeqKernel, core: CoreNo, aim: &Aim, refusal: &Reply) -> bool
    ensures { Decides result (VacantMay (state_of k.now) core (target_of aim.now) refusal.now) }
{
    match *refusal {
        Reply::NoSlot => has_no_slot(k, aim),
        Reply::Occupied => reaches_held(k, core, aim),
        Reply::Quiescing(other) => place_may_wait(k, core, aim, other),
        Reply::Unflushed(other) => place_may_be_unflushed(k, core, aim, other),
        _ => false,
    }
}

/// Whether a target that is to be held may be refused.
fn held_may(k: &SeqKernel, core: CoreNo, aim: &Aim, refusal: &Reply) -> bool
    ensures { Decides result (HeldMay (state_of k.now) core (target_of aim.now) refusal.now) }
{
    match refusal {
        Reply::NoSlot => has_no_slot(k, aim),
        Reply::Empty => reaches_none(k, core, aim),
        _ => false,
    }
}

/// Whether the page of the component that a core works in is not mapped: its root entry holds no link, or its place no mapping.
fn may_fault(k: &SeqKernel, core: CoreNo, page: PageNo) -> bool
    requires { core < (state_of k.now).limits.cores }
    ensures { Decides result (MappedMay (state_of k.now) core (comp_of (state_of k.now) core).pages page Fault) }
{
    if page.number() > 4095 {
        return false;
    }
    let aim = own_page(k, core, page);
    let unlinked = !links(k, comp_of(k, core).pages, page.number());
    let unheld = reaches_none(k, core, &aim);
    unlinked || unheld
}

/// Whether a page of the component that a core works in may be refused.
fn mapped_may(k: &SeqKernel, core: CoreNo, page: PageNo, refusal: &Reply) -> bool
    requires { core < (state_of k.now).limits.cores }
    ensures { Decides result (MappedMay (state_of k.now) core (comp_of (state_of k.now) core).pages page refusal.now) }
{
    match refusal {
        Reply::NoSlot => page.number() > 4095,
        Reply::Fault => may_fault(k, core, page),
        _ => false,
    }
}

/// Whether the translation of a page of the component that a core works in is cached.
fn is_cached(k: &SeqKernel, core: CoreNo, page: PageNo) -> bool
    requires { core < (state_of k.now).limits.cores }
    ensures { result ≡ is_some (translation_of ((state_of k.now).core core).cached (comp_of (state_of k.now) core).pages page) }
{
    let pages = comp_of(k, core).pages;
    translation_of(&k.core(core).cached, pages, page).is_some()
}

/// Whether the target may be refused, where the names have led to these.
fn target_may(
    k: &SeqKernel,
    core: CoreNo,
    target: &Target,
    looked: &Looked,
    refusal: &Reply,
) -> bool
    requires { core < (state_of k.now).limits.cores }
    ensures { Decides result (TargetMay (state_of k.now) core target.now (names_in looked.now) refusal.now) }
{
    match *target {
        Target::Nowhere => false,
        Target::Free { spot } => vacant_may(k, core, &looked.aim(spot), refusal),
        Target::Held { spot } => held_may(k, core, &looked.aim(spot), refusal),
        Target::Own { page } => !is_cached(k, core, page) & mapped_may(k, core, page, refusal),
    }
}

/// Whether one of the look-ups of a plan may be refused so, for a core of the machine that has looked this up by its own reach:
/// a name or the target, whatever the other look-ups find.
pub fn looks_may(k: &SeqKernel, core: CoreNo, plan: &Plan, looked: &Looked, refusal: &Reply) -> bool
    requires { core < (state_of k.now).limits.cores }
    ensures { Decides result (LooksMay (state_of k.now) core plan.now looked.now refusal.now) }
{
    let first = nth_may(k, core, plan, looked, Nth::First, refusal);
    let second = nth_may(k, core, plan, looked, Nth::Second, refusal);
    let third = nth_may(k, core, plan, looked, Nth::Third, refusal);
    let fourth = nth_may(k, core, plan, looked, Nth::Fourth, refusal);
    let target = target_may(k, core, &plan.target, looked, refusal);
    first | (second | (third | (fourth | target)))
}

ghost use Rattle.std.specs.Prelude.{IsSomeAnd};
ghost use Rattle.std.specs.Option.{option_and_then};
ghost use Rattle.spk_nums.specs.declared.replies.Reply.TheVariants.{Fault};
ghost use Rattle.seq_state.specs.kernel_rules.specs.State.{PlaceOf};
ghost use Rattle.seq_state.specs.kernel_rules.specs.Access.{place_at, held_in, root_slot, usable, reached};
ghost use Rattle.seq_state.specs.kernel_rules.specs.GracePeriods.{MayWait, MayBeUnflushed};
ghost use Rattle.seq_plans.specs.Reaches.{named_of};
