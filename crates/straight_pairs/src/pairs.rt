//! The steps of a call on two temporal capabilities.

ghost use Rattle.std.specs.Prelude.{◌≡◌, ◌<◌};
ghost use Rattle.spk_nums.specs.declared.replies.Reply.TheVariants.{Ok};
ghost use Rattle.straight_looks.specs.Outcomes.{ended_so};
ghost use Rattle.straight_looks.specs.step_starts.specs.call_stages.specs.Fits.{IsOwn};
ghost use Rattle.straight_pairs.specs.Sharing.{IsDeciding, IsSharing, next_so, shared_so, store_so, stored_so};

use crate::rests::{rest_sharing, rest_storing};
use crate::takes::{decides, goes_on, next_store};
use act_counts::act_states::Own;
use act_counts::act_states::call_plans::Caps;
use act_counts::act_states::stage_tcap::{Pair, PairAt};
use call_stages::ActiveCall;
use spk_nums::{Call, StageEnd, Value};
use straight_looks::{Went, Words, exit};

/// How one step more of a pair went.
#[derive(Clone, Copy)]
pub(crate) enum Next {
    /// The call goes on.
    Goes,
    /// It is decided with this value, and has still to store what the pair says.
    Decides { value: Value },
    /// The pair is the one before the step, which has told this word.
    Falls { found: u64 },
}

/// How the steps of a pair went, up to the one that decides.
#[derive(Clone, Copy)]
pub(crate) enum Shared {
    /// The call stands after so many steps.
    Stands { steps: u32 },
    /// It is decided with this value after so many steps, and has still to store what the pair says.
    Decides { steps: u32, value: Value },
    /// After so many steps the pair was this one, and the step made then has told this word.
    Falls { steps: u32, found: u64 },
}

/// The steps of a pair are made, up to the one that decides; then what is still to be stored is stored, and the call returns.
#[inline(always)]
#[tactic(auto, using(crate::proofs::Sets::sharing_pair))]
pub(crate) fn share_pair<W: Words>(
    own: &mut Own,
    active: &mut Option<ActiveCall>,
    call: &Call,
    pair: &mut Pair,
    caps: &Caps,
    words: &mut W,
) -> Went
    requires own { IsOwn own.old }
    requires room { own.old.made < own.old.limit }
    requires shares { IsSharing own.old call.now 7 caps.now pair.old (W.core words.old) }
    ensures { ended_so own.new active.old active.new (W.core words.new) (W.last words.new) result }
{
    match share_all(own, call, pair, caps, words) {
        Shared::Stands { steps } => {
            rest_sharing(active, call, steps, pair, caps);
            Went::Stands
        }
        Shared::Falls { steps, found } => {
            rest_sharing(active, call, steps, pair, caps);
            Went::Falls { found }
        }
        Shared::Decides { steps, value } => {
            store_pair(own, active, call, steps, pair, &value, caps, words)
        }
    }
}

// The steps of a pair, up to the one that decides.
#[inline(always)]
fn share_all<W: Words>(
    own: &Own,
    call: &Call,
    pair: &mut Pair,
    caps: &Caps,
    words: &mut W,
) -> Shared
    requires shares { IsSharing own.now call.now 7 caps.now pair.old (W.core words.old) }
    ensures { shared_so own.now call.now caps.now pair.new (W.core words.new) (W.last words.new) result }
{
    let mut steps = 7;
    'sharing: while steps < 40 {
        match share_next(own, call, steps, pair, caps, words) {
            Next::Goes => steps += 1,
            Next::Decides { value } => {
                return Shared::Decides {
                    steps: steps + 1,
                    value,
                };
            }
            Next::Falls { found } => return Shared::Falls { steps, found },
        }
    }
    Shared::Stands { steps }
}

// One step more of a pair. A step that refuses leaves the pair as it was.
#[inline(always)]
#[tactic(auto, using(crate::proofs::Sets::next))]
fn share_next<W: Words>(
    own: &Own,
    _call: &Call,
    _steps: u32,
    pair: &mut Pair,
    _caps: &Caps,
    words: &mut W,
) -> Next
    requires shares { IsSharing own.now _call.now _steps _caps.now pair.old (W.core words.old) }
    ensures { next_so own.now _call.now _steps _caps.now pair.new (W.core words.new) (W.last words.new) result }
{
    let found = words.make(pair.next(&own.layout));
    if goes_on(pair, &own.layout, found) {
        return Next::Goes;
    }
    match decides(pair, &own.layout, found) {
        Some(value) => Next::Decides { value },
        None => Next::Falls { found },
    }
}

// What is still to be stored of a pair is stored, and the call returns.
#[inline(always)]
#[tactic(auto, using(crate::proofs::Sets::storing_pair))]
fn store_pair<W: Words>(
    own: &mut Own,
    active: &mut Option<ActiveCall>,
    call: &Call,
    steps: u32,
    pair: &mut Pair,
    value: &Value,
    caps: &Caps,
    words: &mut W,
) -> Went
    requires own { IsOwn own.old }
    requires room { own.old.made < own.old.limit }
    requires few { steps < 100 }
    requires decides { IsDeciding own.old call.now steps caps.now value.now pair.old (W.core words.old) }
    ensures { ended_so own.new active.old active.new (W.core words.new) (W.last words.new) result }
{
    match store_all(own, call, steps, pair, value, caps, words) {
        None => Went::Returned {
            reply: exit(own, *value, words),
        },
        Some(steps) => {
            rest_storing(own, active, call, steps, *value, pair, caps);
            Went::Stands
        }
    }
}

// The stores of a pair that is decided; None where all are made, else the steps after which the call stands.
#[inline(always)]
fn store_all<W: Words>(
    own: &Own,
    call: &Call,
    steps: u32,
    pair: &mut Pair,
    value: &Value,
    caps: &Caps,
    words: &mut W,
) -> Option<u32>
    requires few { steps < 100 }
    requires decides { IsDeciding own.now call.now steps caps.now value.now pair.old (W.core words.old) }
    ensures { stored_so own.now call.now caps.now value.now pair.new (W.core words.new) result }
{
    let mut steps = steps;
    'storing: while steps < 110 {
        if store_next(own, call, steps, pair, value, caps, words) {
            return None;
        }
        steps += 1;
    }
    Some(steps)
}

// The next store of a pair that is decided; true where it is the last.
#[inline(always)]
#[tactic(auto, using(crate::proofs::Sets::store))]
fn store_next<W: Words>(
    own: &Own,
    _call: &Call,
    _steps: u32,
    pair: &mut Pair,
    _value: &Value,
    _caps: &Caps,
    words: &mut W,
) -> bool
    requires decides { IsDeciding own.now _call.now _steps _caps.now _value.now pair.old (W.core words.old) }
    ensures { store_so own.now _call.now _steps _caps.now _value.now pair.new (W.core words.new) result }
{
    let found = words.make(pair.next(&own.layout));
    let at = pair.at;
    match at {
        PairAt::StoreList { entry } => {
            pair.at = next_store(entry);
            false
        }
        PairAt::StoreB => {
            pair.at = PairAt::StoreA {
                moved: true,
                value: Value::Nothing,
            };
            false
        }
        PairAt::StoreA { moved: _, value: _ } => true,
        _ => match pair.take(&own.layout, found) {
            StageEnd::Going => false,
            StageEnd::Decided(_) => true,
            StageEnd::Done(_) => true,
            StageEnd::Refuse(_) => true,
        },
    }
}
