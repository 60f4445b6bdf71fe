//! Whole calls: a call is made straight through as far as its words are those expected, and step by step from there.

ghost use Rattle.std.specs.Prelude.{◌≡◌, IsSome, None, [], false};
ghost use Rattle.spk_nums.specs.CallLimits.{InLimits};
ghost use Rattle.step_looks.specs.call_stages.specs.Cores.{absorbed, begun, told_of_step};
ghost use Rattle.step_looks.specs.call_stages.specs.Fits.{IsOwn};
ghost use Rattle.step_looks.specs.call_stages.specs.declared.stages.Absorbed.TheVariants.{Returned};
ghost use Rattle.step_looks.specs.call_stages.specs.declared.stages.Stage.TheVariants.{Enter};
ghost use Rattle.straight_acts.specs.straight_looks.specs.Outcomes.{went_so};
ghost use Rattle.straight_acts.specs.straight_looks.specs.Standing.{stands};
ghost use Rattle.call_steps.specs.Straight.{HasGone};

use crate::core_state::CoreState;
use crate::names::to_names;
use spk_nums::{Call, Reply};
use step_lands::act_states::Own;
use step_lands::call_stages::{Absorbed, ActiveCall};
use straight_acts::{Went, Words, copy, look, remove, unmap};
use straight_entries::{enter, leave};
use straight_maps::{grow, map, shrink};
use straight_own::{flush, tick, touch};
use straight_pairs::share;

impl CoreState {
    /// Makes a call to its return, and answers its reply. The core is in no call, and the call is in its limits. The core of the words is
    /// the one that has begun the call; afterwards it is this one, and it has told the reply last.
    #[inline(always)]
    pub fn whole<W: Words>(&mut self, call: &Call, words: &mut W) -> Reply
        requires between { self.old.active ≡ None }
        requires limits { InLimits call.now }
        requires begins { W.core words.old ≡ begun self.old call.now }
        ensures state { self.new ≡ W.core words.new }
        ensures between { self.new.active ≡ None }
        ensures told { W.last words.new ≡ Returned result }
    {
        let went = self.go_straight(call, words);
        match went {
            Went::Returned { reply } => reply,
            _ => self.rest(call, &went, words),
        }
    }

    /// Makes a call straight through as far as its words are those expected, and says how far it went: the first half of `whole`, for who
    /// uses the reply where it lies.
    #[inline(always)]
    pub fn go_straight<W: Words>(&mut self, call: &Call, words: &mut W) -> Went
        requires between { self.old.active ≡ None }
        requires limits { InLimits call.now }
        requires begins { W.core words.old ≡ begun self.old call.now }
        ensures { HasGone call.now self.new (W.core words.new) (W.last words.new) result }
    {
        straight(&mut self.own, &mut self.active, call, words)
    }

    /// Goes on with a call that went so far, to its return, and answers its reply: the second half of `whole`.
    #[inline(never)]
    pub fn rest<W: Words>(&mut self, call: &Call, went: &Went, words: &mut W) -> Reply
        requires limits { InLimits call.now }
        requires went { HasGone call.now self.old (W.core words.old) (W.last words.old) went.now }
        ensures state { self.new ≡ W.core words.new }
        ensures between { self.new.active ≡ None }
        ensures told { W.last words.new ≡ Returned result }
    {
        match *went {
            Went::Returned { reply } => reply,
            Went::Falls { found } => self.fall(found, words),
            Went::Stands => self.finish(words),
            Went::Plainly => {
                self.begin(*call);
                self.finish(words)
            }
        }
    }

    // The call takes the word that its step has told, and makes its further steps.
    #[tactic(auto, using(crate::proofs::Wholes::absorbing))]
    fn fall<W: Words>(&mut self, found: u64, words: &mut W) -> Reply
        requires in_call { IsSome self.old.active }
        requires core { W.core words.old ≡ absorbed self.old found }
        requires last { W.last words.old ≡ told_of_step self.old found }
        ensures state { self.new ≡ W.core words.new }
        ensures between { self.new.active ≡ None }
        ensures told { W.last words.new ≡ Returned result }
    {
        let mut told = Absorbed::Going;
        self.absorb_to(found, &mut told);
        match told {
            Absorbed::Returned(reply) => reply,
            _ => self.finish(words),
        }
    }

    // Makes the steps of the call that is begun, to its return. Each leaves the call fewer steps.
    #[tactic(auto, using(crate::proofs::Wholes::absorbing))]
    fn finish<W: Words>(&mut self, words: &mut W) -> Reply
        requires in_call { IsSome self.old.active }
        requires same { self.old ≡ W.core words.old }
        ensures state { self.new ≡ W.core words.new }
        ensures between { self.new.active ≡ None }
        ensures told { W.last words.new ≡ Returned result }
    {
        'going: loop {
            let op = self.next_op(self.layout());
            let found = words.make(op);
            let mut told = Absorbed::Going;
            self.absorb_to(found, &mut told);
            if let Absorbed::Returned(reply) = told {
                return reply;
            }
        }
    }
}

// A call is made straight through, as far as its words are those expected.
#[inline(always)]
fn straight<W: Words>(
    own: &mut Own,
    active: &mut Option<ActiveCall>,
    call: &Call,
    words: &mut W,
) -> Went
    requires own { IsOwn own.old }
    requires begins { W.core words.old ≡ stands own.old call.now 0 Enter [] }
    ensures { went_so own.old own.new active.old active.new (W.core words.old) (W.core words.new) (W.last words.new) result }
{
    if own.limit <= own.made {
        return Went::Plainly;
    }
    match call {
        Call::Look { .. } => look(own, active, call, words),
        Call::Copy { .. } => copy(own, active, call, words),
        Call::Remove { .. } => remove(own, active, call, words),
        Call::Unmap { .. } => unmap(own, active, call, words),
        Call::Map { .. } => map(own, active, call, words),
        Call::Grow { .. } => grow(own, active, call, words),
        Call::Shrink { .. } => shrink(own, active, call, words),
        Call::Call { .. } => enter(own, active, call, words),
        Call::Ret => leave(own, active, call, words),
        Call::Touch { .. } => touch(own, active, call, words),
        Call::Tick { .. } => tick(own, active, call, words),
        Call::Flush => flush(own, active, call, words),
        Call::Transfer { .. } | Call::Delegate { .. } | Call::Test { .. } => share(
            own, active, call, words,
        ),
        _ => to_names(own, active, call, words),
    }
}
