//! What a call asks first, and what it looks up next, told from the call itself.
//!
//! Both are what the call's plan says. A call in progress keeps no plan, and the plan is not made for the calls that are made most.

ghost use Rattle.std.specs.Prelude.{◌≡◌, List, [], ◌∷◌};
ghost use Rattle.step_starts.specs.spk_nums.specs.declared.kinds.Kind.TheVariants.{Tcap};
ghost use Rattle.step_starts.specs.kernel_rules.specs.Access.{Named};
ghost use Rattle.step_starts.specs.call_plans.specs.PlanOf.{any_cap, of_kind, plan_for};
ghost use Rattle.step_starts.specs.call_plans.specs.After.{names_after, next_in, next_of, next_target, with_found};
ghost use Rattle.step_starts.specs.call_plans.specs.Found.{said};
ghost use Rattle.step_starts.specs.call_plans.specs.declared.plans.Spot.TheVariants.{Under};
ghost use Rattle.step_starts.specs.call_plans.specs.declared.plans.Nth.TheVariants.{First};
ghost use Rattle.step_starts.specs.call_plans.specs.declared.plans.Target.TheVariants.{Free, Held, Nowhere};

use spk_nums::{Call, CapId, Kind, Rights};
use step_lands::act_states::call_plans::{Caps, Name, Next, Nth, Spot, Target, Wanted, plan_of};

/// Whether a call asks first that its core's component lives, as its plan says.
#[inline]
#[tactic(auto, using(crate::proofs::Nexts::living))]
pub fn is_living(call: &Call) -> bool
    ensures { result ≡ (plan_for call.now).living }
{
    match *call {
        Call::Flush | Call::Ret | Call::Tick { n: _ } => false,
        _ => true,
    }
}

/// What a call looks up next by its plan, where its first names have led to these.
#[inline(always)]
pub fn next_of(call: &Call, found: &Caps) -> Next
    ensures { said (with_found [] found.now) result ≡ next_of (plan_for call.now) found.now }
{
    match *call {
        Call::Look { a } => one(found, any_cap(Rights::none(), a), Target::Nowhere),
        Call::Copy { a, t, b, rights: _ } => two(
            found,
            any_cap(Rights::COPY, a),
            of_kind(Kind::Table, t),
            free_under(Nth::Second, b.number()),
        ),
        Call::Remove { t, b } => one(found, of_kind(Kind::Table, t), held_under(b.number())),
        Call::Map {
            p,
            v,
            r,
            f: _,
            w: _,
        } => two(
            found,
            of_kind(Kind::Pages, p),
            of_kind(Kind::Range, r),
            free_under(Nth::First, v.number()),
        ),
        Call::Unmap { p, v } => one(found, of_kind(Kind::Pages, p), held_under(v.number())),
        Call::Touch { v } => none(found, Target::Own { page: v }),
        Call::Flush => none(found, Target::Nowhere),
        Call::Call { g } => one(found, of_kind(Kind::Gate, g), Target::Nowhere),
        Call::Ret => none(found, Target::Nowhere),
        Call::Switch { h, q } => two(
            found,
            of_kind(Kind::Thread, h),
            of_kind(Kind::Tcap, q),
            Target::Nowhere,
        ),
        Call::Tick { n: _ } => none(found, Target::Nowhere),
        Call::Transfer { a, b, m: _ } => two_tcaps(found, a, b),
        Call::Delegate { a, b, m: _ } => two_tcaps(found, a, b),
        Call::Test { a, b } => two_tcaps(found, a, b),
        _ => by_plan(call, found),
    }
}

// What the plan of a call says, made for this.
#[inline(never)]
fn by_plan(call: &Call, found: &Caps) -> Next
    ensures { said (with_found [] found.now) result ≡ next_of (plan_for call.now) found.now }
{
    plan_of(call).next(found)
}

// What is looked up after the names.
#[inline(always)]
fn after_names(target: Target) -> Next
    ensures { (caps : List Named) → said caps result ≡ next_target caps target }
{
    match target {
        Target::Nowhere => Next::Nothing,
        Target::Free { spot } => Next::Free { spot },
        Target::Held { spot } => Next::Held { spot },
        Target::Own { page } => Next::Own { page },
    }
}

// With no name.
#[inline(always)]
#[tactic(auto, using(crate::proofs::Nexts::none_next))]
fn none(found: &Caps, target: Target) -> Next
    ensures { said (with_found [] found.now) result ≡ next_in (with_found [] found.now) (names_after [] found.now) target }
{
    let _found = found;
    after_names(target)
}

// With one name.
#[inline(always)]
#[tactic(auto, using(crate::proofs::Nexts::first_next, crate::proofs::Nexts::one_next))]
fn one(found: &Caps, a: Name, target: Target) -> Next
    ensures { said (with_found [] found.now) result ≡ next_in (with_found [] found.now) (names_after (a ∷ []) found.now) target }
{
    if found.count() == 0 {
        Next::Name { name: a }
    } else {
        after_names(target)
    }
}

// With two names.
#[inline(always)]
#[tactic(auto, using(crate::proofs::Nexts::first_next, crate::proofs::Nexts::second_next, crate::proofs::Nexts::two_next))]
fn two(found: &Caps, a: Name, b: Name, target: Target) -> Next
    ensures { said (with_found [] found.now) result ≡ next_in (with_found [] found.now) (names_after (a ∷ b ∷ []) found.now) target }
{
    let at = found.count();
    if at == 0 {
        Next::Name { name: a }
    } else if at == 1 {
        Next::Name { name: b }
    } else {
        after_names(target)
    }
}

// With two temporal capabilities.
#[inline(always)]
fn two_tcaps(found: &Caps, a: CapId, b: CapId) -> Next
    ensures { said (with_found [] found.now) result
        ≡ next_in (with_found [] found.now) (names_after (of_kind Tcap a ∷ of_kind Tcap b ∷ []) found.now) Nowhere }
{
    two(
        found,
        of_kind(Kind::Tcap, a),
        of_kind(Kind::Tcap, b),
        Target::Nowhere,
    )
}

// A target that is to be free, under this number of the table to which a name leads.
#[inline(always)]
fn free_under(root: Nth, number: u16) -> Target
    ensures { result ≡ Free (Under root number) }
{
    Target::Free {
        spot: Spot::Under { root, number },
    }
}

// A target that is to be held, under this number of the table to which the first name leads.
#[inline(always)]
fn held_under(number: u16) -> Target
    ensures { result ≡ Held (Under First number) }
{
    Target::Held {
        spot: Spot::Under {
            root: Nth::First,
            number,
        },
    }
}

// A name that is to lead to any capability, and needs these rights of it.
#[inline(always)]
fn any_cap(needs: Rights, number: CapId) -> Name
    ensures { result ≡ any_cap needs.0 number }
{
    Name {
        number,
        wanted: Wanted::Any,
        needs,
    }
}

// A name that is to lead to a capability of this kind, to be used.
#[inline(always)]
fn of_kind(kind: Kind, number: CapId) -> Name
    ensures { result ≡ of_kind kind number }
{
    Name {
        number,
        wanted: Wanted::Only { kind },
        needs: Rights::USE,
    }
}
