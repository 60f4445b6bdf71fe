//! Deciding a call with a given reply.

ghost use Rattle.std.specs.Prelude.{◌≡◌, ◌<◌, ◌≤◌, ◌-◌, ◌^◌, IsOk, IfOk};
ghost use Rattle.spk_nums.specs.CallLimits.{InLimits};
ghost use Rattle.plain_kernel.specs.kernel_rules.specs.Life.{lives};
ghost use Rattle.plain_kernel.specs.kernel_rules.specs.Rules.{RuleMay};
ghost use Rattle.plain_kernel.specs.kernel_rules.specs.CallRelation.{counted, owed_by, MayBeDead};
ghost use Rattle.plain_kernel.specs.seq_state.specs.Maps.{state_of};
ghost use Rattle.plain_kernel.specs.seq_state.specs.Representation.{Represents};
ghost use Rattle.plain_kernel.specs.seq_lookups.specs.Ranges.{IsInRange};
ghost use Rattle.plain_kernel.specs.seq_plans.specs.Walks.{left_of, causes_of};
ghost use Rattle.plain_kernel.specs.seq_plans.specs.OwnCauses.{causes_in, AreFitCauses, judged_rule};
ghost use Rattle.plain_kernel.specs.seq_plans.specs.Refusals.{Decides};
ghost use Rattle.call_judge.specs.Judged.{IsOfSort, JudgesExactly};

use crate::carrying::carry_out;
use call_plans::plan_of;
use plain_kernel::{Family, acts, are_spent, family_of};
use seq_lookups::{comp_of, is_live_in};
use seq_plans::{Causes, Looked, Reach, look_up, looks_may, one_may};
use seq_state::{Core, SeqKernel};
use spk_nums::{Call, CoreNo, Memory, Reply, Value};
use std::alloc::Global;

/// What a reply says of its call.
#[derive(Clone, Copy)]
pub enum Sort {
    /// The core has made all its calls.
    Spent,
    /// It was carried out, and answers this.
    Carried(Value),
    /// It lost a race, or found another core's mark.
    Lost,
    /// It was refused by its rule.
    Refused,
}

/// What a reply says of its call.
fn sort_of(reply: &Reply) -> Sort
    ensures { IsOfSort result reply.now }
{
    match *reply {
        Reply::Ok(value) => Sort::Carried(value),
        Reply::Raced => Sort::Lost,
        Reply::Busy(_) => Sort::Lost,
        Reply::CallsSpent => Sort::Spent,
        _ => Sort::Refused,
    }
}

/// Counts one more call of a core.
fn count(k: &mut SeqKernel, core: CoreNo)
    requires { core < (state_of k.old).limits.cores }
    ensures { ((state_of k.old).core core).counted < 2 ^ 40 - 1 → Represents k.new (counted (state_of k.old) core) }
{
    let now = *k.core(core);
    let next = Core {
        counted: now.counted.saturating_add(1),
        ..now
    };
    k.set_core(core, next);
}

/// The ticks of a `tick` that is not carried out are owed; any other call leaves all as it was.
fn owe(k: &mut SeqKernel, core: CoreNo, call: &Call)
    requires { core < (state_of k.old).limits.cores }
    ensures exact { IsInRange (state_of k.old) core call.now → Represents k.new (owed_by (state_of k.old) core call.now) }
    ensures limits { (state_of k.new).limits ≡ (state_of k.old).limits }
{
    if let Call::Tick { n } = *call {
        let now = *k.core(core);
        let next = Core {
            owed: now.owed.saturating_add(u64::from(n)),
            ..now
        };
        k.set_core(core, next);
    }
}

/// Whether the component in which a core works lives.
fn lives(k: &SeqKernel, core: CoreNo) -> bool
    requires { core < (state_of k.now).limits.cores }
    ensures { result ≡ lives (state_of k.now) core }
{
    let comp = comp_of(k, core);
    is_live_in(&k.number(comp.number), u32::from(comp.epoch))
}

/// Whether a call may be refused with `dead` before all else: it asks that its core may act, and the core's component does not live.
fn may_be_dead(k: &SeqKernel, core: CoreNo, call: &Call) -> bool
    requires { core < (state_of k.now).limits.cores }
    ensures { Decides result (MayBeDead (state_of k.now) core call.now) }
{
    let plan = plan_of(call);
    let alive = lives(k, core);
    plan.living & !alive
}

/// The own causes of a call of a core that has looked this up, by its family.
fn causes(k: &SeqKernel, core: CoreNo, call: &Call, looked: &Looked) -> Causes
    requires core { core < (state_of k.now).limits.cores }
    ensures exact { causes_in result ≡ causes_of (left_of (judged_rule (state_of k.now) core call.now) looked.now) }
    ensures fit { AreFitCauses (causes_in result) }
{
    match family_of(call) {
        Family::Caps => seq_caps::causes(k, core, call, looked),
        Family::Memory => seq_memory::causes(k, core, call, looked),
        Family::Time => seq_time::causes(k, core, call, looked),
    }
}

/// Whether the rule of a call may refuse it so: by one of its look-ups, or by an own cause, whatever else does.
fn rule_may(k: &SeqKernel, core: CoreNo, call: &Call, refusal: &Reply) -> bool
    requires { core < (state_of k.now).limits.cores }
    ensures { Decides result (RuleMay (state_of k.now) core (judged_rule (state_of k.now) core call.now) refusal.now) }
{
    let plan = plan_of(call);
    let looked = look_up(k, core, &plan, Reach::Own);
    let own = causes(k, core, call, &looked);
    let at_looks = looks_may(k, core, &plan, &looked, refusal);
    let by_own = one_may(k, core, &own, refusal);
    at_looks | by_own
}

/// Whether a call may be refused with `dead`: before all else, or by its rule.
fn dead_may(k: &SeqKernel, core: CoreNo, call: &Call) -> bool
    requires { core < (state_of k.now).limits.cores }
    ensures { Decides result (MayRefuse (state_of k.now) core call.now Dead) }
{
    let first = may_be_dead(k, core, call);
    let by_rule = rule_may(k, core, call, &Reply::Dead);
    first | by_rule
}

/// Whether a call may be refused so.
fn may_refuse(k: &SeqKernel, core: CoreNo, call: &Call, refusal: &Reply) -> bool
    requires { core < (state_of k.now).limits.cores }
    ensures { Decides result (MayRefuse (state_of k.now) core call.now refusal.now) }
{
    match *refusal {
        Reply::Dead => dead_may(k, core, call),
        _ => rule_may(k, core, call, refusal),
    }
}

/// Carries a call out with this value where its core may make it and it comes to that; else all is as before.
fn carry_out_acting(
    alloc: Global,
    k: &mut SeqKernel,
    core: CoreNo,
    call: &Call,
    value: &Value,
) -> Result<bool, Memory>
    requires limits { InLimits call.now }
    requires core { core < (state_of k.old).limits.cores }
    ensures answers { IsOk result }
    ensures exact { IsInRange (state_of k.old) core call.now → RefusesPlainly (change_of (state_of k.old) core call.now)
        → IfOk result (λ b. CarriesOutActing (state_of k.old) core call.now value.now b k.new) }
{
    if !acts(k, core, call) {
        return Ok(false);
    }
    let carried = carry_out(alloc, k, core, call, value)?;
    Ok(carried)
}

/// Decides a call of a core whose calls are not spent; does not count it.
fn decide_as(
    alloc: Global,
    k: &mut SeqKernel,
    core: CoreNo,
    call: &Call,
    reply: &Reply,
) -> Result<bool, Memory>
    requires limits { InLimits call.now }
    requires core { core < (state_of k.old).limits.cores }
    ensures answers { IsOk result }
    ensures exact { IsInRange (state_of k.old) core call.now → RefusesPlainly (change_of (state_of k.old) core call.now)
        → IfOk result (λ b. DecidesAs (state_of k.old) core call.now reply.now b k.new) }
{
    match sort_of(reply) {
        Sort::Spent => Ok(false),
        Sort::Carried(value) => carry_out_acting(alloc, k, core, call, &value),
        Sort::Lost => {
            owe(k, core, call);
            Ok(true)
        }
        Sort::Refused => Ok(may_refuse(k, core, call, reply)),
    }
}

/// Whether a reply is `calls-spent`.
fn says_spent(reply: &Reply) -> bool
    ensures { Decides result (reply.now ≡ CallsSpent) }
{
    matches!(*reply, Reply::CallsSpent)
}

/// Counts a call of a core, where it is one of the machine's.
fn count_decided(k: &mut SeqKernel, core: CoreNo)
    ensures { core < (state_of k.old).limits.cores → ((state_of k.old).core core).counted < 2 ^ 40 - 1
        → Represents k.new (counted (state_of k.old) core) }
{
    if core.number() < k.cores() {
        count(k, core);
    }
}

/// Whether a call of a core that is in it, its numbers within their limits, may be decided with this reply: `calls-spent` exactly
/// where the core has made as many calls as its limit; else `ok` with a value where the core may make the call and it is carried out
/// with that value, `raced` and `busy` always, `dead` also where the call asks for life and the core's component does not live, and
/// any other refusal where its own cause stands, whatever else does. Where it may, the call is decided so: its change is made, or
/// the ticks of a `tick` are owed, and it is counted. Where it may not, all is as before. No memory is taken.
pub fn decide_by(
    alloc: Global,
    k: &mut SeqKernel,
    core: CoreNo,
    call: &Call,
    reply: &Reply,
) -> Result<bool, Memory>
    requires limits { InLimits call.now }
    requires core { core < (state_of k.old).limits.cores }
    ensures answers { IsOk result }
    ensures exact { IfOk result (λ b. JudgesExactly k.old core call.now reply.now b k.new) }
{
    let spent = are_spent(k, core);
    if says_spent(reply) {
        return Ok(spent);
    }
    if spent {
        return Ok(false);
    }
    let decided = decide_as(alloc, k, core, call, reply)?;
    if decided {
        count_decided(k, core);
        return Ok(true);
    }
    Ok(false)
}

ghost use Rattle.spk_nums.specs.declared.replies.Reply.TheVariants.{CallsSpent, Dead};
ghost use Rattle.plain_kernel.specs.kernel_rules.specs.CallRelation.{change_of};
ghost use Rattle.call_judge.specs.Judged.{RefusesPlainly, CarriesOutActing, MayRefuse, DecidesAs};
