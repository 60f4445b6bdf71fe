//! The entering of a component through a gate.

ghost use Rattle.std.specs.Prelude.{◌≡◌, ◌<◌, ◌+◌, ◌^◌, ◌-◌, [], None};
ghost use Rattle.spk_nums.specs.declared.replies.Reply.TheVariants.{Ok};
ghost use Rattle.spk_nums.specs.declared.replies.Value.TheVariants.{Nothing};
ghost use Rattle.straight_acts.specs.Acting.{counts};
ghost use Rattle.straight_entries.specs.Entering.{IsStoring, entering, is_live_at};
ghost use Rattle.straight_looks.specs.Outcomes.{ended_so, went_so};
ghost use Rattle.straight_looks.specs.Standing.{acts, stands};
ghost use Rattle.straight_looks.specs.step_starts.specs.act_states.specs.declared.work.Act.TheVariants as act_of;
ghost use Rattle.straight_looks.specs.step_starts.specs.act_states.specs.declared.work.Tail.TheVariants as tail;
ghost use Rattle.straight_looks.specs.step_starts.specs.act_states.specs.declared.work.Work.TheVariants as work;
ghost use Rattle.straight_looks.specs.step_starts.specs.call_stages.specs.Fits.{IsCore, IsOwn};
ghost use Rattle.straight_looks.specs.step_starts.specs.call_stages.specs.declared.stages.Absorbed.TheVariants.{Returned};
ghost use Rattle.straight_looks.specs.step_starts.specs.call_stages.specs.declared.stages.Stage.TheVariants.{Enter, Undecided};
ghost use Rattle.straight_looks.specs.step_starts.specs.frame_words.specs.Live.{live_of_word};
ghost use Rattle.straight_looks.specs.step_starts.specs.stage_thread.specs.declared.stack.Push.TheVariants as push_at;

use crate::rests::{rest_entering, rest_entering_counted};
use act_counts::act_states::call_plans::{Caps, Name, Wanted};
use act_counts::act_states::frame_words::{CompWord, LiveWord};
use act_counts::act_states::stage_pins::Acquired;
use act_counts::act_states::stage_thread::Push;
use act_counts::act_states::{Act, Invoking, InvokingAt, Own, OwnChange};
use act_counts::frame_in;
use call_stages::ActiveCall;
use spk_nums::{Call, Cap, FrameNo, Kind, Reply, Rights, Value, WordOp};
use straight_acts::{Acquiring, acquire};
use straight_looks::{Asked, Named, Went, Words, ask, exit, name};
use thread_acts::invoking_op;

/// Enters a component through a gate straight through.
#[inline(never)]
#[tactic(auto, using(crate::proofs::Sets::entering))]
pub fn enter<W: Words>(
    own: &mut Own,
    active: &mut Option<ActiveCall>,
    call: &Call,
    words: &mut W,
) -> Went
    requires own { IsOwn own.old }
    requires room { own.old.made < own.old.limit }
    requires begins { W.core words.old ≡ stands own.old call.now 0 Enter [] }
    ensures { went_so own.old own.new active.old active.new (W.core words.old) (W.core words.new) (W.last words.new) result }
{
    let Call::Call { g } = *call else {
        return Went::Plainly;
    };
    if 4095 < g.number() || 16 <= own.depth {
        return Went::Plainly;
    }
    match ask(own, active, call, words) {
        Asked::Falls { found } => Went::Falls { found },
        Asked::Lives => {
            let gate = Name {
                number: g,
                wanted: Wanted::Only { kind: Kind::Gate },
                needs: Rights::USE,
            };
            let mut caps = Caps::none();
            match name(own, active, call, 3, &gate, &caps, words) {
                Named::Falls { found } => Went::Falls { found },
                Named::Finds { cap } => {
                    caps.push(cap);
                    let invoking = begun(own, &cap);
                    enter_table(own, active, call, &invoking, &caps, words)
                }
            }
        }
    }
}

// The entering through this gate begins.
#[inline(always)]
fn begun(own: &Own, gate: &Cap) -> Invoking
    ensures { result ≡ entering own.now gate.now }
{
    Invoking {
        comp: gate.frame(),
        epoch: gate.arg(),
        thread: own.thread,
        depth: own.depth,
        core: own.core,
        frames: own.layout.frames(),
        at: InvokingAt::LoadTable,
    }
}

// The component's table is loaded.
#[inline(always)]
#[tactic(auto, using(crate::proofs::Sets::loading_table))]
fn enter_table<W: Words>(
    own: &mut Own,
    active: &mut Option<ActiveCall>,
    call: &Call,
    invoking: &Invoking,
    caps: &Caps,
    words: &mut W,
) -> Went
    requires own { IsOwn own.old }
    requires room { own.old.made < own.old.limit }
    requires at { invoking.now.at ≡ InvokingAt.LoadTable }
    requires core { invoking.now.core ≡ own.old.core }
    requires fits { IsCore (W.core words.old) }
    requires stands { W.core words.old ≡ acts own.old call.now 5 (act_of.Invoke invoking.now) caps.now }
    ensures { ended_so own.new active.old active.new (W.core words.new) (W.last words.new) result }
{
    let found = words.make(invoking_op(invoking, &own.layout));
    match frame_in(invoking.frames, found) {
        None => {
            rest_entering(active, call, 5, invoking, caps);
            Went::Falls { found }
        }
        Some(table) => {
            let at = InvokingAt::LoadPages { table };
            let invoking = Invoking { at, ..*invoking };
            enter_pages(own, active, call, &invoking, table, caps, words)
        }
    }
}

// Its pages are loaded.
#[inline(always)]
#[tactic(auto, using(crate::proofs::Sets::loading_pages))]
fn enter_pages<W: Words>(
    own: &mut Own,
    active: &mut Option<ActiveCall>,
    call: &Call,
    invoking: &Invoking,
    table: FrameNo,
    caps: &Caps,
    words: &mut W,
) -> Went
    requires own { IsOwn own.old }
    requires room { own.old.made < own.old.limit }
    requires at { invoking.now.at ≡ InvokingAt.LoadPages table }
    requires core { invoking.now.core ≡ own.old.core }
    requires fits { IsCore (W.core words.old) }
    requires stands { W.core words.old ≡ acts own.old call.now 6 (act_of.Invoke invoking.now) caps.now }
    ensures { ended_so own.new active.old active.new (W.core words.new) (W.last words.new) result }
{
    let found = words.make(invoking_op(invoking, &own.layout));
    match frame_in(invoking.frames, found) {
        None => {
            rest_entering(active, call, 6, invoking, caps);
            Went::Falls { found }
        }
        Some(pages) => {
            let at = InvokingAt::LoadComp { table, pages };
            let invoking = Invoking { at, ..*invoking };
            enter_life(own, active, call, &invoking, table, pages, caps, words)
        }
    }
}

// Its liveness number is loaded, and the count of its frame acquired.
#[inline(always)]
#[tactic(auto, using(crate::proofs::Sets::loading_life))]
fn enter_life<W: Words>(
    own: &mut Own,
    active: &mut Option<ActiveCall>,
    call: &Call,
    invoking: &Invoking,
    table: FrameNo,
    pages: FrameNo,
    caps: &Caps,
    words: &mut W,
) -> Went
    requires own { IsOwn own.old }
    requires room { own.old.made < own.old.limit }
    requires at { invoking.now.at ≡ InvokingAt.LoadComp table pages }
    requires core { invoking.now.core ≡ own.old.core }
    requires fits { IsCore (W.core words.old) }
    requires stands { W.core words.old ≡ acts own.old call.now 7 (act_of.Invoke invoking.now) caps.now }
    ensures { ended_so own.new active.old active.new (W.core words.new) (W.last words.new) result }
{
    let found = words.make(invoking_op(invoking, &own.layout));
    match CompWord::unpack(found) {
        None => {
            rest_entering(active, call, 7, invoking, caps);
            Went::Falls { found }
        }
        Some(life) => {
            let at = InvokingAt::LoadLive { table, pages, life };
            let invoking = Invoking { at, ..*invoking };
            let act = Act::Invoke { invoking };
            match acquire(own, active, call, 8, invoking.comp, 1, &act, caps, words) {
                Acquiring::Falls { found } => Went::Falls { found },
                Acquiring::Holds { count } => {
                    enter_live(
                        own, active, call, &invoking, table, pages, &life, &count, caps, words,
                    )
                }
            }
        }
    }
}

// The number's word is loaded, and the component entered where it lives in the gate's epoch.
#[inline(always)]
#[tactic(auto, using(crate::proofs::Sets::loading_live))]
fn enter_live<W: Words>(
    own: &mut Own,
    active: &mut Option<ActiveCall>,
    call: &Call,
    invoking: &Invoking,
    table: FrameNo,
    pages: FrameNo,
    life: &CompWord,
    count: &Acquired,
    caps: &Caps,
    words: &mut W,
) -> Went
    requires own { IsOwn own.old }
    requires room { own.old.made < own.old.limit }
    requires at { invoking.now.at ≡ InvokingAt.LoadLive table pages life.now }
    requires fits { IsCore (W.core words.old) }
    requires stands { W.core words.old
        ≡ counts own.old call.now 10 (Undecided (work.Act (act_of.Invoke invoking.now))) caps.now count.now }
    ensures { ended_so own.new active.old active.new (W.core words.new) (W.last words.new) result }
{
    let found = words.make(WordOp::Load {
        at: own.layout.live_at(life.number),
    });
    if lives(invoking.epoch, found) {
        own.change(&OwnChange::Works {
            comp: invoking.comp,
            table,
            pages,
            depth: invoking.depth.saturating_add(1),
        });
        Went::Returned {
            reply: push(own, invoking, count, words),
        }
    } else {
        rest_entering_counted(active, call, 10, invoking, caps, count);
        Went::Falls { found }
    }
}

// Whether the word of a liveness number is live in this epoch.
#[inline(always)]
fn lives(epoch: u32, found: u64) -> bool
    ensures { result ≡ is_live_at epoch (live_of_word found) }
{
    match LiveWord::unpack(found) {
        Some(
            LiveWord::Live {
                epoch: now,
                frame: _,
            },
        ) => u32::from(now) == epoch,
        _ => false,
    }
}

// The component is pushed onto the stack of the core's thread, and the count committed.
#[inline(always)]
#[tactic(auto, using(crate::proofs::Sets::pushing))]
fn push<W: Words>(own: &mut Own, invoking: &Invoking, count: &Acquired, words: &mut W) -> Reply
    requires room { own.old.made < own.old.limit }
    requires whole { IsCore (W.core words.old) }
    requires stores { IsStoring own.old
        (tail.Push (push_at.AtStack invoking.now.thread invoking.now.core invoking.now.depth invoking.now.comp))
        None count.now (W.core words.old) }
    ensures reply { result ≡ Ok Nothing }
    ensures core { W.core words.new ≡ record { own = own.new; active = None } }
    ensures told { W.last words.new ≡ Returned result }
    ensures fits { IsCore (W.core words.new) }
{
    let (thread, core, depth) = (invoking.thread, invoking.core, invoking.depth);
    let on = Push::new(thread, core, depth, invoking.comp);
    words.make(on.next(&own.layout));
    let up = Push::AtThread {
        thread,
        core,
        depth,
    };
    words.make(up.next(&own.layout));
    let settle = count.commit(true, None);
    words.make(settle.next(&own.layout));
    exit(own, Value::Nothing, words)
}
