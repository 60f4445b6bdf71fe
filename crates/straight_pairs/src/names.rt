//! The two names of a call on temporal capabilities.

ghost use Rattle.std.specs.Prelude.{◌≡◌, ◌<◌, ◌≤◌, ◌==◌, [], IfSome};
ghost use Rattle.straight_looks.specs.Outcomes.{ended_so, went_so};
ghost use Rattle.straight_looks.specs.Standing.{going, onward, stands};
ghost use Rattle.straight_looks.specs.step_starts.specs.act_states.specs.Shares.{shares_if};
ghost use Rattle.straight_looks.specs.step_starts.specs.call_stages.specs.Fits.{IsCore, IsOwn};
ghost use Rattle.straight_looks.specs.step_starts.specs.call_stages.specs.Steps.{next_by};
ghost use Rattle.straight_looks.specs.step_starts.specs.call_stages.specs.declared.stages.Stage.TheVariants.{Enter};
ghost use Rattle.straight_pairs.specs.Sharing.{NamesTwo};

use crate::pairs::share_pair;
use crate::rests::rest_same;
use act_counts::act_states::Own;
use act_counts::act_states::call_plans::{Caps, Name, Wanted};
use act_counts::act_states::stage_tcap::{Pair, PairWork};
use call_stages::ActiveCall;
use spk_nums::{Call, Cap, CapId, Kind, Rights};
use straight_looks::{Asked, Named, Went, Words, ask, name};

/// Two temporal capabilities that a call names, and what it does with them.
#[derive(Clone, Copy)]
pub(crate) struct Two {
    /// The name of the one that is marked.
    pub(crate) a: CapId,
    /// That of the other.
    pub(crate) b: CapId,
    /// What is done with them.
    pub(crate) what: PairWork,
}

/// Makes a transfer, a delegation or a test of preemption straight through.
#[inline(never)]
#[tactic(auto, using(crate::proofs::Sets::sharing))]
pub fn share<W: Words>(
    own: &mut Own,
    active: &mut Option<ActiveCall>,
    call: &Call,
    words: &mut W,
) -> Went
    requires own { IsOwn own.old }
    requires room { own.old.made < own.old.limit }
    requires begins { W.core words.old ≡ stands own.old call.now 0 Enter [] }
    ensures { went_so own.old own.new active.old active.new (W.core words.old) (W.core words.new) (W.last words.new) result }
{
    match two_of(call) {
        None => Went::Plainly,
        Some(two) => {
            if 4095 < two.a.number() || 4095 < two.b.number() {
                return Went::Plainly;
            }
            match ask(own, active, call, words) {
                Asked::Falls { found } => Went::Falls { found },
                Asked::Lives => share_named(own, active, call, &two, words),
            }
        }
    }
}

// What a call names, where it names two temporal capabilities.
#[inline(always)]
#[tactic(auto, using(crate::proofs::Sets::naming_two))]
fn two_of(call: &Call) -> Option<Two>
    ensures { IfSome result (λ t. NamesTwo call.now t) }
{
    match *call {
        Call::Transfer { a, b, m } => Some(Two {
            a,
            b,
            what: PairWork::Transfer(m),
        }),
        Call::Delegate { a, b, m } => Some(Two {
            a,
            b,
            what: PairWork::Delegate(m),
        }),
        Call::Test { a, b } => Some(Two {
            a,
            b,
            what: PairWork::Test,
        }),
        _ => None,
    }
}

// The two names are looked up.
#[inline(always)]
#[tactic(auto, using(crate::proofs::Sets::naming))]
fn share_named<W: Words>(
    own: &mut Own,
    active: &mut Option<ActiveCall>,
    call: &Call,
    two: &Two,
    words: &mut W,
) -> Went
    requires own { IsOwn own.old }
    requires room { own.old.made < own.old.limit }
    requires first { two.now.a ≤ 4095 }
    requires second { two.now.b ≤ 4095 }
    requires names { NamesTwo call.now two.now }
    requires fits { IsCore (W.core words.old) }
    requires on { W.core words.old ≡ onward own.old call.now 2 [] }
    ensures { ended_so own.new active.old active.new (W.core words.new) (W.last words.new) result }
{
    let mut caps = Caps::none();
    let first = Name {
        number: two.a,
        wanted: Wanted::Only { kind: Kind::Tcap },
        needs: Rights::USE,
    };
    let a = match name(own, active, call, 3, &first, &caps, words) {
        Named::Falls { found } => return Went::Falls { found },
        Named::Finds { cap } => cap,
    };
    caps.push(a);
    let second = Name {
        number: two.b,
        wanted: Wanted::Only { kind: Kind::Tcap },
        needs: Rights::USE,
    };
    let b = match name(own, active, call, 5, &second, &caps, words) {
        Named::Falls { found } => return Went::Falls { found },
        Named::Finds { cap } => cap,
    };
    caps.push(b);
    share_found(own, active, call, two.what, &a, &b, &caps, words)
}

// They have led to these: where they are one object the call is refused, and written down as it stands then.
#[inline(always)]
#[tactic(auto, using(crate::proofs::Sets::beginning))]
fn share_found<W: Words>(
    own: &mut Own,
    active: &mut Option<ActiveCall>,
    call: &Call,
    what: PairWork,
    a: &Cap,
    b: &Cap,
    caps: &Caps,
    words: &mut W,
) -> Went
    requires own { IsOwn own.old }
    requires room { own.old.made < own.old.limit }
    requires begins { next_by own.old (going call.now 6 Enter caps.now [])
        ≡ shares_if (a.now.frame == b.now.frame) own.old.core what a.now.frame b.now.frame }
    requires fits { IsCore (W.core words.old) }
    requires on { W.core words.old ≡ onward own.old call.now 6 caps.now }
    ensures { ended_so own.new active.old active.new (W.core words.new) (W.last words.new) result }
{
    if a.frame() == b.frame() {
        rest_same(own, active, call, caps);
        Went::Stands
    } else {
        let mut pair = Pair::new(a.frame(), b.frame(), what, own.core);
        share_pair(own, active, call, &mut pair, caps, words)
    }
}
