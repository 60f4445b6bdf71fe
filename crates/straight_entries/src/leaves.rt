//! The leaving of a component.

ghost use Rattle.std.specs.Prelude.{◌≡◌, ◌<◌, [], None, Some};
ghost use Rattle.spk_nums.specs.declared.replies.Reply.TheVariants.{Ok};
ghost use Rattle.spk_nums.specs.declared.replies.Value.TheVariants.{Nothing};
ghost use Rattle.straight_entries.specs.Entering.{IsActing, IsStoring};
ghost use Rattle.straight_looks.specs.Outcomes.{ended_so, went_so};
ghost use Rattle.straight_looks.specs.Standing.{acts, stands};
ghost use Rattle.straight_looks.specs.step_starts.specs.act_states.specs.declared.work.Act.TheVariants as act_of;
ghost use Rattle.straight_looks.specs.step_starts.specs.act_states.specs.declared.work.Tail.TheVariants as tail;
ghost use Rattle.straight_looks.specs.step_starts.specs.call_stages.specs.Fits.{IsCore, IsOwn};
ghost use Rattle.straight_looks.specs.step_starts.specs.call_stages.specs.declared.stages.Absorbed.TheVariants.{Returned};
ghost use Rattle.straight_looks.specs.step_starts.specs.call_stages.specs.declared.stages.Stage.TheVariants.{Enter};
ghost use Rattle.straight_looks.specs.step_starts.specs.stage_thread.specs.declared.stack.Pop.TheVariants as pop_at;

use crate::rests::rest_leaving;
use act_counts::act_states::call_plans::Caps;
use act_counts::act_states::stage_pins::Acquired;
use act_counts::act_states::stage_quiet::drawn;
use act_counts::act_states::stage_thread::Pop;
use act_counts::act_states::{Act, Own, OwnChange, Returning, ReturningAt};
use act_counts::frame_in;
use call_stages::ActiveCall;
use spk_nums::{Call, FrameNo, Reply, Stamp, Value};
use straight_acts::{Acquiring, acquire};
use straight_looks::{Went, Words, entry_op, exit};
use thread_acts::{below_in, returning_op};

/// Leaves the core's component straight through.
#[inline(never)]
#[tactic(auto, using(crate::proofs::Sets::leaving))]
pub fn leave<W: Words>(
    own: &mut Own,
    active: &mut Option<ActiveCall>,
    call: &Call,
    words: &mut W,
) -> Went
    requires own { IsOwn own.old }
    requires room { own.old.made < own.old.limit }
    requires begins { W.core words.old ≡ stands own.old call.now 0 Enter [] }
    ensures { went_so own.old own.new active.old active.new (W.core words.old) (W.core words.new) (W.last words.new) result }
{
    let Call::Ret = *call else {
        return Went::Plainly;
    };
    if own.depth <= 1 {
        return Went::Plainly;
    }
    words.make(entry_op(own));
    let caps = Caps::none();
    let returning = Returning {
        top: own.comp,
        thread: own.thread,
        depth: own.depth,
        core: own.core,
        frames: own.layout.frames(),
        at: ReturningAt::LoadBelow,
    };
    leave_below(own, active, call, &returning, &caps, words)
}

// The component below the top of the stack is loaded.
#[inline(always)]
#[tactic(auto, using(crate::proofs::Sets::loading_below))]
fn leave_below<W: Words>(
    own: &mut Own,
    active: &mut Option<ActiveCall>,
    call: &Call,
    returning: &Returning,
    caps: &Caps,
    words: &mut W,
) -> Went
    requires own { IsOwn own.old }
    requires room { own.old.made < own.old.limit }
    requires at { returning.now.at ≡ ReturningAt.LoadBelow }
    requires core { returning.now.core ≡ own.old.core }
    requires fits { IsCore (W.core words.old) }
    requires stands { W.core words.old ≡ acts own.old call.now 1 (act_of.Return returning.now) caps.now }
    ensures { ended_so own.new active.old active.new (W.core words.new) (W.last words.new) result }
{
    let found = words.make(returning_op(returning, &own.layout));
    match below_in(returning.frames, found) {
        None => {
            rest_leaving(active, call, 1, returning, caps);
            Went::Falls { found }
        }
        Some(comp) => {
            let at = ReturningAt::LoadTable { comp };
            let returning = Returning { at, ..*returning };
            leave_table(own, active, call, &returning, comp, caps, words)
        }
    }
}

// Its table is loaded.
#[inline(always)]
#[tactic(auto, using(crate::proofs::Sets::loading_below_table))]
fn leave_table<W: Words>(
    own: &mut Own,
    active: &mut Option<ActiveCall>,
    call: &Call,
    returning: &Returning,
    comp: FrameNo,
    caps: &Caps,
    words: &mut W,
) -> Went
    requires own { IsOwn own.old }
    requires room { own.old.made < own.old.limit }
    requires at { returning.now.at ≡ ReturningAt.LoadTable comp }
    requires core { returning.now.core ≡ own.old.core }
    requires fits { IsCore (W.core words.old) }
    requires stands { W.core words.old ≡ acts own.old call.now 2 (act_of.Return returning.now) caps.now }
    ensures { ended_so own.new active.old active.new (W.core words.new) (W.last words.new) result }
{
    let found = words.make(returning_op(returning, &own.layout));
    match frame_in(returning.frames, found) {
        None => {
            rest_leaving(active, call, 2, returning, caps);
            Went::Falls { found }
        }
        Some(table) => {
            let at = ReturningAt::LoadPages { comp, table };
            let returning = Returning { at, ..*returning };
            leave_pages(own, active, call, &returning, comp, table, caps, words)
        }
    }
}

// Its pages are loaded, and the count of the top's frame acquired.
#[inline(always)]
#[tactic(auto, using(crate::proofs::Sets::loading_below_pages))]
fn leave_pages<W: Words>(
    own: &mut Own,
    active: &mut Option<ActiveCall>,
    call: &Call,
    returning: &Returning,
    comp: FrameNo,
    table: FrameNo,
    caps: &Caps,
    words: &mut W,
) -> Went
    requires own { IsOwn own.old }
    requires room { own.old.made < own.old.limit }
    requires at { returning.now.at ≡ ReturningAt.LoadPages comp table }
    requires core { returning.now.core ≡ own.old.core }
    requires fits { IsCore (W.core words.old) }
    requires stands { W.core words.old ≡ acts own.old call.now 3 (act_of.Return returning.now) caps.now }
    ensures { ended_so own.new active.old active.new (W.core words.new) (W.last words.new) result }
{
    let found = words.make(returning_op(returning, &own.layout));
    match frame_in(returning.frames, found) {
        None => {
            rest_leaving(active, call, 3, returning, caps);
            Went::Falls { found }
        }
        Some(pages) => {
            let at = ReturningAt::Draw { comp, table, pages };
            let returning = Returning { at, ..*returning };
            let act = Act::Return { returning };
            match acquire(own, active, call, 4, returning.top, -1, &act, caps, words) {
                Acquiring::Falls { found } => Went::Falls { found },
                Acquiring::Holds { count } => Went::Returned {
                    reply: leave_counted(own, &returning, comp, table, pages, &count, words),
                },
            }
        }
    }
}

// A stamp is drawn, which decides.
#[inline(always)]
#[tactic(auto, using(crate::proofs::Sets::drawing))]
fn leave_counted<W: Words>(
    own: &mut Own,
    returning: &Returning,
    comp: FrameNo,
    table: FrameNo,
    pages: FrameNo,
    count: &Acquired,
    words: &mut W,
) -> Reply
    requires room { own.old.made < own.old.limit }
    requires at { returning.now.at ≡ ReturningAt.Draw comp table pages }
    requires whole { IsCore (W.core words.old) }
    requires acts { IsActing own.old (act_of.Return returning.now) count.now (W.core words.old) }
    ensures reply { result ≡ Ok Nothing }
    ensures core { W.core words.new ≡ record { own = own.new; active = None } }
    ensures told { W.last words.new ≡ Returned result }
    ensures fits { IsCore (W.core words.new) }
{
    let stamp = drawn(words.make(returning_op(returning, &own.layout)));
    own.change(&OwnChange::Works {
        comp,
        table,
        pages,
        depth: returning.depth.saturating_sub(1),
    });
    pop(own, returning, stamp, count, words)
}

// The top is popped off the stack of the core's thread, and the count committed, with the stamp.
#[inline(always)]
#[tactic(auto, using(crate::proofs::Sets::popping))]
fn pop<W: Words>(
    own: &mut Own,
    returning: &Returning,
    stamp: Stamp,
    count: &Acquired,
    words: &mut W,
) -> Reply
    requires room { own.old.made < own.old.limit }
    requires whole { IsCore (W.core words.old) }
    requires stores { IsStoring own.old (tail.Pop (pop_at.AtThread returning.now.thread returning.now.core returning.now.depth))
        (Some stamp) count.now (W.core words.old) }
    ensures reply { result ≡ Ok Nothing }
    ensures core { W.core words.new ≡ record { own = own.new; active = None } }
    ensures told { W.last words.new ≡ Returned result }
    ensures fits { IsCore (W.core words.new) }
{
    let (thread, core, depth) = (returning.thread, returning.core, returning.depth);
    let down = Pop::new(thread, core, depth);
    words.make(down.next(&own.layout));
    let off = Pop::AtStack { thread, depth };
    words.make(off.next(&own.layout));
    let settle = count.commit(true, Some(stamp));
    words.make(settle.next(&own.layout));
    exit(own, Value::Nothing, words)
}
