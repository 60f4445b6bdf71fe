//! The plan of each call.

ghost use Rattle.std.specs.Prelude.{◌≡◌, ℕ};
ghost use Rattle.kernel_invariant.specs.spk_nums.specs.declared.kinds.Kind.TheVariants.{Tcap};
ghost use Rattle.kernel_invariant.specs.kernel_rules.specs.State.{State};
ghost use Rattle.kernel_invariant.specs.kernel_rules.specs.Life.{asks_life};
ghost use Rattle.kernel_invariant.specs.kernel_rules.specs.CallRelation.{rule_of};
ghost use Rattle.call_plans.specs.PlanOf.{any_cap, a_root, of_kind, fills, removes, names_alone, of_core};
ghost use Rattle.call_plans.specs.PlanOf.{on_two_tcaps, plan_of_retype, plan_of_make, plan_for, a_leaf, a_whole};
ghost use Rattle.call_plans.specs.GoesBy.{GoesBy, own_pages};

use crate::plans::{Decides, Name, Names, Nth, Plan, Spot, Target, Wanted};
use kernel_invariant::spk_nums::{Call, CapId, FrameKind, Kind, Make, Rights};

/// The plan of a call. It asks that the component of its core lives exactly where the call asks for life. The call's rule goes by it in
/// every state: it looks up these names in this order and then this target, and asks nothing else of what they lead to before its own
/// causes.
#[tactic(auto, using(crate::proofs::CallsGoBy::calls_go, crate::proofs::Lives::lives))]
pub fn plan_of(call: &Call) -> Plan
    ensures plan { result ≡ plan_for call.now }
    ensures living { result.living ≡ asks_life call.now }
    ensures goes { (s : State) (c : ℕ) → GoesBy (own_pages s c) result (rule_of s c call.now) }
{
    match *call {
        Call::Look { a } => names_alone(
            Names::one(any_cap(Rights::none(), a)),
            0,
            Decides::LeafEntry,
        ),
        Call::Copy { a, t, b, rights: _ } => fills(
            Names::two(any_cap(Rights::COPY, a), of_kind(Kind::Table, t)),
            Nth::Second,
            b.number(),
            1,
        ),
        Call::Remove { t, b } => removes(of_kind(Kind::Table, t), under_first(b.number())),
        Call::Grow { t, i, l } => Plan {
            living: true,
            names: Names::two(a_root(t), a_leaf(l)),
            target: Target::Free {
                spot: Spot::InRoot {
                    root: Nth::First,
                    entry: i,
                },
            },
            pins: 1,
            decides: Decides::Target,
        },
        Call::Shrink { t, i } => removes(
            a_root(t),
            Spot::InRoot {
                root: Nth::First,
                entry: i,
            },
        ),
        Call::Retype { r, f: _, k } => plan_of_retype(k, r),
        Call::Make {
            what,
            range,
            frame: _,
            table,
            slot,
        } => plan_of_make(what, range, table, slot),
        Call::Map {
            p,
            v,
            r,
            f: _,
            w: _,
        } => fills(
            Names::two(of_kind(Kind::Pages, p), of_kind(Kind::Range, r)),
            Nth::First,
            v.number(),
            1,
        ),
        Call::Unmap { p, v } => removes(of_kind(Kind::Pages, p), under_first(v.number())),
        Call::Touch { v } => Plan {
            living: true,
            names: Names::none(),
            target: Target::Own { page: v },
            pins: 0,
            decides: Decides::Translation,
        },
        Call::Flush => of_core(0, Decides::Clock),
        Call::Gate { c, t, b } => fills(
            Names::two(of_kind(Kind::Comp, c), of_kind(Kind::Table, t)),
            Nth::Second,
            b.number(),
            1,
        ),
        Call::Kill { c } => names_alone(Names::one(of_kind(Kind::Comp, c)), 1, Decides::Draw),
        Call::Call { g } => names_alone(Names::one(of_kind(Kind::Gate, g)), 1, Decides::LiveWord),
        Call::Ret => of_core(1, Decides::Draw),
        Call::Switch { h, q } => names_alone(
            Names::two(of_kind(Kind::Thread, h), of_kind(Kind::Tcap, q)),
            4,
            Decides::Draw,
        ),
        Call::Tick { n: _ } => of_core(0, Decides::Head),
        Call::Transfer { a, b, m: _ } => on_two_tcaps(a, b, Decides::HeadB),
        Call::Delegate { a, b, m: _ } => on_two_tcaps(a, b, Decides::HeadB),
        Call::Test { a, b } => on_two_tcaps(a, b, Decides::HeadBAgain),
        Call::Part {
            r,
            f: _,
            n: _,
            t,
            b,
        } => fills(
            Names::two(a_whole(r), of_kind(Kind::Table, t)),
            Nth::Second,
            b.number(),
            0,
        ),
        Call::Replenish { a, m: _ } => {
            names_alone(Names::one(of_kind(Kind::Tcap, a)), 0, Decides::Head)
        }
    }
}

// The plan of a `retype`: back to untyped it acquires the counts of the object's own references.
fn plan_of_retype(kind: FrameKind, range: CapId) -> Plan
    ensures { result ≡ plan_of_retype kind range }
{
    let names = Names::one(of_kind(Kind::Range, range));
    match kind {
        FrameKind::Untyped => names_alone(names, 2, Decides::Draw),
        FrameKind::User | FrameKind::Kernel => names_alone(names, 0, Decides::FrameWord),
    }
}

// The plan of a `make`: it acquires the count of the frame, and those of what the object is to refer to.
fn plan_of_make(what: Make, range: CapId, table: CapId, slot: CapId) -> Plan
    ensures { result ≡ plan_of_make what range table slot }
{
    let r = of_kind(Kind::Range, range);
    let t = of_kind(Kind::Table, table);
    match what {
        Make::Thread { comp } => fills(
            Names::three(r, t, of_kind(Kind::Comp, comp)),
            Nth::Second,
            slot.number(),
            2,
        ),
        Make::Comp {
            table,
            pages,
            live: _,
        } => fills(
            Names::four(
                r,
                t,
                of_kind(Kind::Table, table),
                of_kind(Kind::Pages, pages),
            ),
            Nth::Second,
            slot.number(),
            3,
        ),
        _ => fills(Names::two(r, t), Nth::Second, slot.number(), 1),
    }
}

// A name that is to lead to any capability, and needs these rights of it.
fn any_cap(needs: Rights, number: CapId) -> Name
    ensures { result ≡ any_cap needs.0 number }
{
    Name {
        number,
        wanted: Wanted::Any,
        needs,
    }
}

// A name that is to lead to a root, to be used.
fn a_root(number: CapId) -> Name
    ensures { result ≡ a_root number }
{
    Name {
        number,
        wanted: Wanted::Root,
        needs: Rights::USE,
    }
}

// A name that is to lead to a leaf of the kind that the first name's root takes, to be used.
fn a_leaf(number: CapId) -> Name
    ensures { result ≡ a_leaf number }
{
    Name {
        number,
        wanted: Wanted::LeafOf { root: Nth::First },
        needs: Rights::USE,
    }
}

// A name that is to lead to a range of which a part is handed out, and needs both rights of it.
fn a_whole(number: CapId) -> Name
    ensures { result ≡ a_whole number }
{
    Name {
        number,
        wanted: Wanted::Only { kind: Kind::Range },
        needs: Rights::both(),
    }
}

// A name that is to lead to a capability of this kind, to be used.
fn of_kind(kind: Kind, number: CapId) -> Name
    ensures { result ≡ of_kind kind number }
{
    Name {
        number,
        wanted: Wanted::Only { kind },
        needs: Rights::USE,
    }
}

// The place of this number in the table to which the first name leads.
fn under_first(number: u16) -> Spot
    ensures { result ≡ Under First number }
{
    Spot::Under {
        root: Nth::First,
        number,
    }
}

// A call with these names that fills the free place of this number in the table to which a name leads.
fn fills(names: Names, root: Nth, number: u16, pins: u8) -> Plan
    ensures { result ≡ fills names root number pins }
{
    Plan {
        living: true,
        names,
        target: Target::Free {
            spot: Spot::Under { root, number },
        },
        pins,
        decides: Decides::Target,
    }
}

// A call that removes what is held at its target.
fn removes(name: Name, spot: Spot) -> Plan
    ensures { result ≡ removes name spot }
{
    Plan {
        living: true,
        names: Names::one(name),
        target: Target::Held { spot },
        pins: 1,
        decides: Decides::Draw,
    }
}

// A call with these names and no target.
fn names_alone(names: Names, pins: u8, decides: Decides) -> Plan
    ensures { result ≡ names_alone names pins decides }
{
    Plan {
        living: true,
        names,
        target: Target::Nowhere,
        pins,
        decides,
    }
}

// A call on the core or its thread, which looks nothing up and asks of no component that it lives.
fn of_core(pins: u8, decides: Decides) -> Plan
    ensures { result ≡ of_core pins decides }
{
    Plan {
        living: false,
        names: Names::none(),
        target: Target::Nowhere,
        pins,
        decides,
    }
}

// A call on two temporal capabilities.
fn on_two_tcaps(a: CapId, b: CapId, decides: Decides) -> Plan
    ensures { result ≡ on_two_tcaps a b decides }
{
    names_alone(
        Names::two(of_kind(Kind::Tcap, a), of_kind(Kind::Tcap, b)),
        0,
        decides,
    )
}

ghost use Rattle.call_plans.specs.declared.plans.Nth.TheVariants.{First};
ghost use Rattle.call_plans.specs.declared.plans.Spot.TheVariants.{Under};
