//! How many own steps a call makes at most.

ghost use Rattle.std.specs.Prelude.{◌≡◌, ◌≤◌};
ghost use Rattle.kernel_invariant.specs.spk_nums.specs.Bounds.{bound_of};
ghost use Rattle.call_plans.specs.Bounds.{living_steps, spot_steps, target_steps, look_steps, retype_steps, make_steps, act_steps};

use crate::calls::plan_of;
use crate::plans::{Plan, Spot, Target};
use kernel_invariant::spk_nums::{Call, FrameKind, Make};

/// The most own steps of a call on a machine of so many cores, 1 to 8: three for entry and exit, those by which it asks whether its
/// component lives, those of its look-ups, and those of its act.
#[tactic(auto, using(crate::proofs::StepsOfPlans::bound_is))]
pub fn bound(call: &Call, cores: u8) -> u32
    requires { cores ≤ 8 }
    ensures { result ≡ bound_of call.now cores }
{
    let plan = plan_of(call);
    3 + living_steps(plan.living) + look_steps(&plan) + act_steps(call, u32::from(cores))
}

/// The steps by which a call asks whether its component lives, where it does.
pub fn living_steps(living: bool) -> u32
    ensures exact { result ≡ living_steps living }
    ensures most { result ≤ 2 }
{
    if living { 2 } else { 0 }
}

/// The steps of the look-ups of a plan: two a name, and those of its target; at most 10.
pub fn look_steps(plan: &Plan) -> u32
    ensures exact { result ≡ look_steps plan.now.names plan.now.target }
    ensures most { result ≤ 10 }
{
    2 * u32::from(plan.names.count()) + target_steps(plan.target)
}

fn target_steps(target: Target) -> u32
    ensures exact { result ≡ target_steps target }
    ensures most { result ≤ 2 }
{
    match target {
        Target::Nowhere => 0,
        Target::Free { spot } | Target::Held { spot } => spot_steps(spot),
        Target::Own { page: _ } => 2,
    }
}

fn spot_steps(spot: Spot) -> u32
    ensures exact { result ≡ spot_steps spot }
    ensures most { result ≤ 2 }
{
    match spot {
        Spot::Under { root: _, number: _ } => 2,
        Spot::InRoot { root: _, entry: _ } => 1,
    }
}

/// The most steps of the act of a call on a machine of so many cores, at most 8: from the last step of its look-ups, or from
/// its entry, to the last store before its exit.
pub fn act_steps(call: &Call, cores: u32) -> u32
    requires { cores ≤ 8 }
    ensures exact { result ≡ act_steps call.now cores }
    ensures most { result ≤ 107 }
{
    match *call {
        Call::Look { a: _ } | Call::Touch { v: _ } => 0,
        Call::Copy {
            a: _,
            t: _,
            b: _,
            rights: _,
        } => 3 + cores,
        Call::Remove { t: _, b: _ } | Call::Shrink { t: _, i: _ } | Call::Unmap { p: _, v: _ } => 6,
        Call::Grow { t: _, i: _, l: _ } => 3 + 2 * cores,
        Call::Retype { r: _, f: _, k } => retype_steps(k, cores),
        Call::Make {
            what,
            range: _,
            frame: _,
            table: _,
            slot: _,
        } => make_steps(what, cores),
        Call::Map {
            p: _,
            v: _,
            r: _,
            f: _,
            w: _,
        } => 4 + 2 * cores,
        Call::Flush | Call::Tick { n: _ } => 2,
        Call::Gate { c: _, t: _, b: _ } => 4 + cores,
        Call::Kill { c: _ } => 8,
        Call::Call { g: _ } | Call::Ret => 9,
        Call::Switch { h: _, q: _ }
        | Call::Transfer { a: _, b: _, m: _ }
        | Call::Test { a: _, b: _ } => 21,
        Call::Delegate { a: _, b: _, m: _ } => 30,
        Call::Part {
            r: _,
            f: _,
            n: _,
            t: _,
            b: _,
        } => cores,
        Call::Replenish { a: _, m: _ } => 10,
    }
}

fn retype_steps(kind: FrameKind, cores: u32) -> u32
    requires { cores ≤ 8 }
    ensures exact { result ≡ retype_steps kind cores }
    ensures most { result ≤ 107 }
{
    match kind {
        FrameKind::Untyped => 67 + 5 * cores,
        FrameKind::User | FrameKind::Kernel => 2,
    }
}

fn make_steps(what: Make, cores: u32) -> u32
    requires { cores ≤ 8 }
    ensures exact { result ≡ make_steps what cores }
    ensures most { result ≤ 78 }
{
    match what {
        Make::Thread { comp: _ } => 26 + cores,
        Make::Tcap {
            sched: _,
            quality: _,
        } => 15 + cores,
        Make::Comp {
            table: _,
            pages: _,
            live: _,
        } => 17 + 2 * cores,
        _ => 70 + cores,
    }
}
