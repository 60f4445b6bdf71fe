//! What a call finds by its plan, or its first refusal.
//!
//! A call that is made, and not only judged, stops at the first of its look-ups that is refused. So each name that is reached here
//! has found those before it, and nothing is looked up twice.

ghost use Rattle.std.specs.Prelude.{◌≡◌, ◌<◌};
ghost use Rattle.seq_state.specs.kernel_rules.specs.Access.{found};
ghost use Rattle.seq_state.specs.kernel_rules.specs.CapabilityCalls.{leaf_for};
ghost use Rattle.seq_state.specs.kernel_rules.specs.Rules.{vacant, held};
ghost use Rattle.call_plans.specs.GoesBy.{wants};
ghost use Rattle.call_plans.specs.Plans.{at_place};
ghost use Rattle.seq_state.specs.Maps.{state_of};
ghost use Rattle.seq_lookups.specs.Judged.{judged, wants as kinds_of};
ghost use Rattle.seq_plans.specs.Reaches.{named_of, target_of};
ghost use Rattle.seq_plans.specs.Walks.{names_in};
ghost use Rattle.seq_plans.specs.Resolving.{named_by, aimed_by, from_fourth, from_third, from_second, resolved};

use crate::caching::translation_of;
use crate::reaching::Aim;
use crate::walking::Looked;
use call_plans::{Nth, Plan, Spot, Target as PlanTarget, Wanted as PlanWanted};
use seq_lookups::{Slot, Target, Wanted, comp_of, held, mapped, named_for, vacant};
use seq_state::SeqKernel;
use spk_nums::{Cap, CoreNo, Kind, PageNo, Reply};

/// The leaf that a root takes: of a table a leaf of one, else a leaf of page tables; any, where no root was found.
fn leaf_for(root: Option<Cap>) -> Wanted
    ensures { kinds_of result ≡ leaf_for (named_of root) }
{
    match root {
        None => Wanted::Any,
        Some(cap) => match cap.kind() {
            Kind::Table => Wanted::Only(Kind::Leaf),
            _ => Wanted::Only(Kind::Pleaf),
        },
    }
}

/// The kinds that a name wants, where the names before it have led to these.
fn kinds_for(wanted: PlanWanted, looked: &Looked) -> Wanted
    ensures { kinds_of result ≡ wants (names_in looked.now) wanted }
{
    match wanted {
        PlanWanted::Any => Wanted::Any,
        PlanWanted::Only { kind } => Wanted::Only(kind),
        PlanWanted::Root => Wanted::Root,
        PlanWanted::LeafOf { root } => leaf_for(looked.get(root)),
    }
}

/// The capability to which the name at this place leads, if there are so many names, or its refusal.
fn named_by(
    k: &SeqKernel,
    core: CoreNo,
    plan: &Plan,
    nth: Nth,
    looked: &Looked,
) -> Result<Option<Cap>, Reply>
    requires { core < (state_of k.now).limits.cores }
    ensures { judged result ≡ named_by (state_of k.now) core looked.now (at_place plan.now.names nth) }
{
    match plan.names.get(nth) {
        None => Ok(None),
        Some(name) => {
            let kinds = kinds_for(name.wanted, looked);
            match named_for(k, core, name.number, kinds, name.needs) {
                Ok(cap) => Ok(Some(cap)),
                Err(refusal) => Err(refusal),
            }
        }
    }
}

/// The slot of a target that is to be free, or its refusal.
fn vacant_at(k: &SeqKernel, core: CoreNo, aim: &Aim) -> Result<Slot, Reply>
    ensures { judged result ≡ vacant (state_of k.now) core (target_of aim.now) }
{
    match *aim {
        Aim::Under { root, number } => match root {
            None => Err(Reply::NoSlot),
            Some(cap) => {
                let root = cap.frame();
                vacant(k, core, Target::Under { root, number })
            }
        },
        Aim::InRoot { root, index } => match root {
            None => Err(Reply::NoSlot),
            Some(cap) => {
                let root = cap.frame();
                vacant(k, core, Target::InRoot { root, index })
            }
        },
    }
}

/// The slot of a target that is to be held, and what it holds, or its refusal.
fn held_at(k: &SeqKernel, core: CoreNo, aim: &Aim) -> Result<(Slot, Cap), Reply>
    ensures { judged result ≡ held (state_of k.now) core (target_of aim.now) }
{
    match *aim {
        Aim::Under { root, number } => match root {
            None => Err(Reply::NoSlot),
            Some(cap) => {
                let root = cap.frame();
                held(k, core, Target::Under { root, number })
            }
        },
        Aim::InRoot { root, index } => match root {
            None => Err(Reply::NoSlot),
            Some(cap) => {
                let root = cap.frame();
                held(k, core, Target::InRoot { root, index })
            }
        },
    }
}

/// What was found, and the slot of a target that is to be free.
fn with_vacant(k: &SeqKernel, core: CoreNo, spot: Spot, looked: Looked) -> Result<Looked, Reply>
    ensures { judged result ≡ aimed_by (state_of k.now) core (Free spot) looked }
{
    match vacant_at(k, core, &looked.aim(spot)) {
        Ok(at) => Ok(Looked {
            at: Some(at),
            ..looked
        }),
        Err(refusal) => Err(refusal),
    }
}

/// What was found, the slot of a target that is to be held, and what that holds.
fn with_held(k: &SeqKernel, core: CoreNo, spot: Spot, looked: Looked) -> Result<Looked, Reply>
    ensures { judged result ≡ aimed_by (state_of k.now) core (Held spot) looked }
{
    match held_at(k, core, &looked.aim(spot)) {
        Ok((at, cap)) => Ok(Looked {
            at: Some(at),
            held: Some(cap),
            ..looked
        }),
        Err(refusal) => Err(refusal),
    }
}

/// What was found, and what a page of the caller's own pages maps, where its translation is not cached.
fn with_page(k: &SeqKernel, core: CoreNo, page: PageNo, looked: Looked) -> Result<Looked, Reply>
    requires { core < (state_of k.now).limits.cores }
    ensures { judged result ≡ aimed_by (state_of k.now) core (Own page) looked }
{
    let pages = comp_of(k, core).pages;
    if translation_of(&k.core(core).cached, pages, page).is_some() {
        return Ok(looked);
    }
    match mapped(k, core, pages, page) {
        Ok(cap) => Ok(Looked {
            held: Some(cap),
            ..looked
        }),
        Err(refusal) => Err(refusal),
    }
}

/// What was found, and the target.
fn aimed_by(
    k: &SeqKernel,
    core: CoreNo,
    target: &PlanTarget,
    looked: Looked,
) -> Result<Looked, Reply>
    requires { core < (state_of k.now).limits.cores }
    ensures { judged result ≡ aimed_by (state_of k.now) core target.now looked }
{
    match *target {
        PlanTarget::Nowhere => Ok(looked),
        PlanTarget::Free { spot } => with_vacant(k, core, spot, looked),
        PlanTarget::Held { spot } => with_held(k, core, spot, looked),
        PlanTarget::Own { page } => with_page(k, core, page, looked),
    }
}

/// What is found from the fourth name on.
fn from_fourth(k: &SeqKernel, core: CoreNo, plan: &Plan, looked: Looked) -> Result<Looked, Reply>
    requires { core < (state_of k.now).limits.cores }
    ensures { judged result ≡ from_fourth (state_of k.now) core plan.now looked }
{
    match named_by(k, core, plan, Nth::Fourth, &looked) {
        Ok(fourth) => aimed_by(k, core, &plan.target, Looked { fourth, ..looked }),
        Err(refusal) => Err(refusal),
    }
}

/// What is found from the third name on.
fn from_third(k: &SeqKernel, core: CoreNo, plan: &Plan, looked: Looked) -> Result<Looked, Reply>
    requires { core < (state_of k.now).limits.cores }
    ensures { judged result ≡ from_third (state_of k.now) core plan.now looked }
{
    match named_by(k, core, plan, Nth::Third, &looked) {
        Ok(third) => from_fourth(k, core, plan, Looked { third, ..looked }),
        Err(refusal) => Err(refusal),
    }
}

/// What is found from the second name on.
fn from_second(k: &SeqKernel, core: CoreNo, plan: &Plan, looked: Looked) -> Result<Looked, Reply>
    requires { core < (state_of k.now).limits.cores }
    ensures { judged result ≡ from_second (state_of k.now) core plan.now looked }
{
    match named_by(k, core, plan, Nth::Second, &looked) {
        Ok(second) => from_third(k, core, plan, Looked { second, ..looked }),
        Err(refusal) => Err(refusal),
    }
}

/// All that a core of the machine finds by a plan, by its own reach, or the first refusal of the plan's look-ups in their order: of
/// a name `no-slot`, `empty`, `wrong-cap` or `no-right`; of a target that is to be free `no-slot`, `occupied`, `quiescing` or
/// `unflushed`; of one that is to be held `no-slot` or `empty`; of a page `no-slot` or `fault`, where its translation is not cached.
pub fn resolve(k: &SeqKernel, core: CoreNo, plan: &Plan) -> Result<Looked, Reply>
    requires { core < (state_of k.now).limits.cores }
    ensures { judged result ≡ resolved (state_of k.now) core plan.now }
{
    let none = Looked::nothing();
    match named_by(k, core, plan, Nth::First, &none) {
        Ok(first) => from_second(k, core, plan, Looked { first, ..none }),
        Err(refusal) => Err(refusal),
    }
}

ghost use Rattle.call_plans.specs.declared.plans.Target.TheVariants.{Free, Held, Own};
