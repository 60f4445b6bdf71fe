//! A touch.

ghost use Rattle.std.specs.Prelude.{◌≡◌, ◌<◌, [], IfSome, None, Some};
ghost use Rattle.straight_looks.specs.Outcomes.{ended_so, went_so};
ghost use Rattle.straight_looks.specs.Standing.{acts, going, stands};
ghost use Rattle.straight_looks.specs.step_starts.specs.act_states.specs.declared.work.Act.TheVariants as act_of;
ghost use Rattle.straight_looks.specs.step_starts.specs.act_states.specs.declared.work.Work.TheVariants as work;
ghost use Rattle.straight_looks.specs.step_starts.specs.call_stages.specs.Fits.{IsCore, IsOwn};
ghost use Rattle.straight_looks.specs.step_starts.specs.call_stages.specs.declared.stages.Stage.TheVariants.{Enter, Undecided};
ghost use Rattle.straight_own.specs.Touching.{IsTouching};

use act_counts::act_states::call_plans::Caps;
use act_counts::act_states::{Act, Own, OwnChange, Touching, Work, WorkStep};
use begin_acts::begin_touch;
use call_stages::ActiveCall;
use frame_acts::{mapping_of, translated};
use spk_nums::{Call, PageNo};
use straight_looks::{Asked, Went, Words, ask, exit, held_at, rest_acting};

/// Makes a touch straight through.
#[inline(never)]
#[tactic(auto, using(crate::proofs::Sets::touching))]
pub fn touch<W: Words>(
    own: &mut Own,
    active: &mut Option<ActiveCall>,
    call: &Call,
    words: &mut W,
) -> Went
    requires own { IsOwn own.old }
    requires room { own.old.made < own.old.limit }
    requires begins { W.core words.old ≡ stands own.old call.now 0 Enter [] }
    ensures { went_so own.old own.new active.old active.new (W.core words.old) (W.core words.new) (W.last words.new) result }
{
    let Call::Touch { v } = *call else {
        return Went::Plainly;
    };
    match touching_of(own, v) {
        None => Went::Plainly,
        Some(touching) => match ask(own, active, call, words) {
            Asked::Falls { found } => Went::Falls { found },
            Asked::Lives => touch_root(own, active, call, &touching, words),
        },
    }
}

// The touching of a page, where its number is one that a page may have.
#[inline(always)]
fn touching_of(own: &Own, page: PageNo) -> Option<Touching>
    ensures { IfSome result (λ m. IsTouching own.now page m) }
{
    match begin_touch(own, page) {
        WorkStep::Goes { work } => match work {
            Work::Act { act } => match act {
                Act::Touch { touching } => Some(touching),
                _ => None,
            },
            _ => None,
        },
        _ => None,
    }
}

// A translation that is cached is answered; else the root's link is followed.
#[inline(always)]
#[tactic(auto, using(crate::proofs::Sets::touching_root))]
fn touch_root<W: Words>(
    own: &mut Own,
    active: &mut Option<ActiveCall>,
    call: &Call,
    touching: &Touching,
    words: &mut W,
) -> Went
    requires own { IsOwn own.old }
    requires room { own.old.made < own.old.limit }
    requires fits { IsCore (W.core words.old) }
    requires stands { W.core words.old ≡ acts own.old call.now 3 (act_of.Touch touching.now) [] }
    ensures { ended_so own.new active.old active.new (W.core words.new) (W.last words.new) result }
{
    let mut look = touching.look;
    let found = words.make(look.next(&own.layout));
    match &touching.cached {
        Some(item) => Went::Returned {
            reply: exit(own, translated(item), words),
        },
        None => {
            if look.follows(&own.layout, found) {
                let touching = Touching { look, ..*touching };
                touch_page(own, active, call, &touching, words)
            } else {
                rest_touching(active, call, 3, touching);
                Went::Falls { found }
            }
        }
    }
}

// The mapping of the page is answered, and its translation cached.
#[inline(always)]
#[tactic(auto, using(crate::proofs::Sets::touching_page))]
fn touch_page<W: Words>(
    own: &mut Own,
    active: &mut Option<ActiveCall>,
    call: &Call,
    touching: &Touching,
    words: &mut W,
) -> Went
    requires own { IsOwn own.old }
    requires room { own.old.made < own.old.limit }
    requires uncached { touching.now.cached ≡ None }
    requires fits { IsCore (W.core words.old) }
    requires stands { W.core words.old ≡ acts own.old call.now 4 (act_of.Touch touching.now) [] }
    ensures { ended_so own.new active.old active.new (W.core words.new) (W.last words.new) result }
{
    let found = words.make(touching.look.next(&own.layout));
    match held_at(own, &touching.look, found) {
        None => {
            rest_touching(active, call, 4, touching);
            Went::Falls { found }
        }
        Some(held) => {
            let item = mapping_of(touching, &held.cap);
            own.change(&OwnChange::Caches { item });
            Went::Returned {
                reply: exit(own, translated(&item), words),
            }
        }
    }
}

// After so many steps it touches its page here.
#[inline(never)]
fn rest_touching(active: &mut Option<ActiveCall>, call: &Call, steps: u32, touching: &Touching)
    ensures { active.new ≡ Some (going call.now steps (Undecided (work.Act (act_of.Touch touching.now))) [] []) }
{
    let touching = *touching;
    rest_acting(active, call, steps, &Act::Touch { touching }, &Caps::none());
}
