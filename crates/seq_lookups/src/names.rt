//! What a call names, and the targets that it asks for.

ghost use Rattle.std.specs.Prelude.{◌≡◌, ◌<◌};
ghost use Rattle.seq_state.specs.kernel_rules.specs.Access.{held_in, only, usable, reached};
ghost use Rattle.seq_state.specs.kernel_rules.specs.Rules.{with_rights, named, vacant, not_vacant, held, mapped, of_kind, and_then, or_refuse};
ghost use Rattle.seq_state.specs.Parts.{place_held, thing_of};
ghost use Rattle.seq_state.specs.Maps.{state_of};
ghost use Rattle.seq_lookups.specs.Judged.{judged, wants, want_of};
ghost use Rattle.seq_lookups.specs.Places.{target_of};

use crate::objects::comp_of;
use crate::slots::{Slot, Target, place_at, reached, usable};
use crate::waiting::{flushes_of, waits_of};
use seq_state::spk_nums::{Cap, CapId, CoreNo, FrameNo, Kind, PageNo, Reply, Rights};
use seq_state::{Place, SeqKernel, Thing};

/// The kinds of capability that a name may lead to.
#[derive(Clone, Copy, PartialEq, Eq, Debug)]
pub enum Wanted {
    /// Any.
    Any,
    /// This one.
    Only(Kind),
    /// The root of a table of capabilities or of pages.
    Root,
}

/// Whether a kind is this one.
fn is_only(wanted: Kind, kind: Kind) -> bool
    ensures { result ≡ only wanted kind }
{
    wanted == kind
}

/// Whether a kind is wanted.
fn is_wanted(wanted: Wanted, kind: Kind) -> bool
    ensures { result ≡ wants wanted kind }
{
    match wanted {
        Wanted::Any => true,
        Wanted::Only(one) => is_only(one, kind),
        Wanted::Root => is_only(Kind::Table, kind) || is_only(Kind::Pages, kind),
    }
}

/// The capability, where it has the rights that are needed.
fn with_rights(needs: Rights, cap: Cap) -> Result<Cap, Reply>
    ensures { judged result ≡ with_rights needs.0 cap }
{
    if cap.rights().has(needs) {
        Ok(cap)
    } else {
        Err(Reply::NoRight)
    }
}

/// The capability, where its kind is wanted and it has the rights that are needed.
fn of_kind(wanted: Wanted, needs: Rights, cap: Cap) -> Result<Cap, Reply>
    ensures { judged result ≡ of_kind (want_of wanted needs) cap }
{
    if is_wanted(wanted, cap.kind()) {
        with_rights(needs, cap)
    } else {
        Err(Reply::WrongCap)
    }
}

/// The slot that a target leads to, or the refusal where there is none.
fn slot_or(k: &SeqKernel, core: CoreNo, target: Target, refusal: Reply) -> Result<Slot, Reply>
    ensures { judged result ≡ or_refuse (reached (state_of k.now) core (target_of target)) refusal }
{
    match reached(k, core, target) {
        Some(at) => Ok(at),
        None => Err(refusal),
    }
}

/// What a core may use at a slot, of a wanted kind and with the rights that are needed.
fn named_at(
    k: &SeqKernel,
    core: CoreNo,
    at: Slot,
    wanted: Wanted,
    needs: Rights,
) -> Result<Cap, Reply>
    ensures { judged result ≡ and_then (or_refuse (usable (state_of k.now) core at) Empty) (of_kind (want_of wanted needs)) }
{
    match usable(k, core, at) {
        Some(cap) => of_kind(wanted, needs, cap),
        None => Err(Reply::Empty),
    }
}

/// The capability that a core names: `no-slot` where it reaches no slot under the number in the table of the component that
/// it works in, `empty` where it may use nothing there, `wrong-cap` where the kind is not wanted, `no-right` where a right that
/// is needed is lacking.
pub fn named_for(
    k: &SeqKernel,
    core: CoreNo,
    name: CapId,
    wanted: Wanted,
    needs: Rights,
) -> Result<Cap, Reply>
    requires { core < (state_of k.now).limits.cores }
    ensures { judged result ≡ named (state_of k.now) core name (want_of wanted needs) }
{
    let target = Target::Under {
        root: comp_of(k, core).table,
        number: name.number(),
    };
    match slot_or(k, core, target, Reply::NoSlot) {
        Ok(at) => named_at(k, core, at, wanted, needs),
        Err(refusal) => Err(refusal),
    }
}

/// Why a core may not fill a place.
fn not_vacant(k: &SeqKernel, core: CoreNo, at: Slot, place: Place) -> Option<Reply>
    ensures { result ≡ not_vacant (state_of k.now) core (PlaceOf at.node at.index) (place_held place) }
{
    match place {
        Place::Free => None,
        Place::Holds(_) => Some(Reply::Occupied),
        Place::Quiescing(_) => match waits_of(k, core, at.thing()) {
            Some(refusal) => Some(refusal),
            None => flushes_of(k, at.thing()),
        },
    }
}

/// The target that a core may fill: `no-slot` where it reaches none, `occupied` where it is held, `quiescing` where another
/// core waits in its grace period, `unflushed` where a core has not flushed since.
pub fn vacant(k: &SeqKernel, core: CoreNo, target: Target) -> Result<Slot, Reply>
    ensures { judged result ≡ vacant (state_of k.now) core (target_of target) }
{
    match slot_or(k, core, target, Reply::NoSlot) {
        Ok(at) => match not_vacant(k, core, at, place_at(k, at)) {
            None => Ok(at),
            Some(refusal) => Err(refusal),
        },
        Err(refusal) => Err(refusal),
    }
}

/// What a place holds.
fn held_in(place: Place) -> Option<Cap>
    ensures { result ≡ held_in (place_held place) }
{
    match place {
        Place::Free => None,
        Place::Holds(cap) => Some(cap),
        Place::Quiescing(_) => None,
    }
}

/// The target that a core reaches, with what it holds: `no-slot` where it reaches none, `empty` where it holds nothing.
pub fn held(k: &SeqKernel, core: CoreNo, target: Target) -> Result<(Slot, Cap), Reply>
    ensures { judged result ≡ held (state_of k.now) core (target_of target) }
{
    match slot_or(k, core, target, Reply::NoSlot) {
        Ok(at) => match held_in(place_at(k, at)) {
            Some(cap) => Ok((at, cap)),
            None => Err(Reply::Empty),
        },
        Err(refusal) => Err(refusal),
    }
}

/// The mapping of a page by its root: `no-slot` where the page is past 4,095, `fault` where the core reaches no slot or the
/// slot holds nothing.
pub fn mapped(k: &SeqKernel, core: CoreNo, root: FrameNo, page: PageNo) -> Result<Cap, Reply>
    ensures { judged result ≡ mapped (state_of k.now) core root page }
{
    if page.number() > 4095 {
        return Err(Reply::NoSlot);
    }
    let target = Target::Under {
        root,
        number: page.number(),
    };
    match slot_or(k, core, target, Reply::Fault) {
        Ok(at) => match held_in(place_at(k, at)) {
            Some(cap) => Ok(cap),
            None => Err(Reply::Fault),
        },
        Err(refusal) => Err(refusal),
    }
}

ghost use Rattle.seq_state.specs.kernel_rules.specs.State.{PlaceOf};
ghost use Rattle.seq_state.specs.spk_nums.specs.declared.replies.Reply.TheVariants.{Empty};
