//! Charging ticks, and giving them back.

ghost use Rattle.std.specs.Prelude.{◌≡◌, ◌<◌, ◌≤◌, ◌+◌, ◌^◌};
ghost use Rattle.seq_lookups.specs.seq_state.specs.kernel_rules.specs.Rules.{outcome};
ghost use Rattle.seq_lookups.specs.seq_state.specs.kernel_rules.specs.TimeCalls.{tick_rule};
ghost use Rattle.seq_lookups.specs.seq_state.specs.kernel_rules.specs.Edits.{charge, with_budget, tcap_at, charging, given_back};
ghost use Rattle.seq_lookups.specs.seq_state.specs.kernel_rules.specs.State.{outstanding};
ghost use Rattle.seq_lookups.specs.seq_state.specs.Maps.{state_of};
ghost use Rattle.seq_lookups.specs.seq_state.specs.Representation.{Represents};
ghost use Rattle.seq_lookups.specs.Carried.{IsCarriedOut};
ghost use Rattle.seq_lookups.specs.Ranges.{TicksFit};

use crate::budgets::with_tcap;
use seq_lookups::seq_state::{Core, SeqKernel, TcapFields};
use seq_lookups::spk_nums::{CoreNo, FrameNo, Value};
use seq_lookups::tcap_at;

/// Gives a temporal capability another budget.
fn set_budget(k: &mut SeqKernel, frame: FrameNo, budget: u32)
    ensures { Represents k.new (with_budget (state_of k.old) frame budget) }
{
    let tcap = TcapFields {
        budget,
        ..tcap_at(k, frame)
    };
    let value = with_tcap(k.frame(frame), tcap);
    k.set_frame(frame, value);
}

/// The ticks that are charged of those due: as far as the current temporal capability has budget.
fn charged(k: &SeqKernel, core: CoreNo, due: u64) -> u32
    requires { core < (state_of k.now).limits.cores }
    ensures value { result ≡ charge (state_of k.now) core due }
    ensures most { result ≤ (tcap_at (state_of k.now) ((state_of k.now).core core).tcap).budget }
    ensures due { result ≤ due }
{
    let budget = tcap_at(k, k.core(core).tcap).budget;
    if due < u64::from(budget) {
        due as u32
    } else {
        budget
    }
}

/// Charges so many of the ticks that are due: they leave the current temporal capability's budget and are spent, and the rest
/// stays owed.
fn charge(k: &mut SeqKernel, core: CoreNo, due: u64, charged: u32)
    requires core { core < (state_of k.old).limits.cores }
    requires budget { charged ≤ (tcap_at (state_of k.old) ((state_of k.old).core core).tcap).budget }
    requires due { charged ≤ due }
    ensures { ((state_of k.old).core core).spent + charged < 2 ^ 64 → Represents k.new (charging (state_of k.old) core due charged) }
{
    let now = *k.core(core);
    let budget = tcap_at(k, now.tcap).budget - charged;
    let next = Core {
        spent: now.spent.saturating_add(u64::from(charged)),
        owed: due - u64::from(charged),
        ..now
    };
    set_budget(k, now.tcap, budget);
    k.set_core(core, next);
}

/// `tick N` charges the N ticks and those owed to the current temporal capability, and answers how many it charged.
pub(crate) fn tick(k: &mut SeqKernel, core: CoreNo, ticks: u32) -> Value
    requires { core < (state_of k.old).limits.cores }
    ensures { TicksFit (state_of k.old) core ticks
        → IsCarriedOut (state_of k.old) (outcome (state_of k.old) core (tick_rule (state_of k.old) core ticks)) (Ok result) k.new }
{
    let due = u64::from(ticks).saturating_add(k.core(core).owed);
    let charged = charged(k, core, due);
    charge(k, core, due, charged);
    Value::Amount(charged)
}

/// The ticks that a core has spent and has not had back.
pub(crate) fn left_back(k: &SeqKernel, core: CoreNo) -> u64
    requires { core < (state_of k.now).limits.cores }
    ensures { result ≡ outstanding ((state_of k.now).core core) }
{
    let now = k.core(core);
    now.spent.saturating_sub(now.back)
}

/// Gives back to a temporal capability so many of the ticks that the core has spent.
pub(crate) fn give_back(k: &mut SeqKernel, core: CoreNo, tcap: FrameNo, amount: u32)
    requires { core < (state_of k.old).limits.cores }
    ensures { (tcap_at (state_of k.old) tcap).budget + amount < 2 ^ 32 → ((state_of k.old).core core).back + amount < 2 ^ 64
        → Represents k.new (given_back (state_of k.old) core tcap amount) }
{
    let now = *k.core(core);
    let budget = tcap_at(k, tcap).budget.saturating_add(amount);
    let next = Core {
        back: now.back.saturating_add(u64::from(amount)),
        ..now
    };
    set_budget(k, tcap, budget);
    k.set_core(core, next);
}

ghost use Rattle.seq_lookups.specs.spk_nums.specs.declared.replies.Reply.TheVariants.{Ok};
