//! The words that a decided call stores, each by its own definition, and what is then still to be stored.

ghost use Rattle.step_lands.specs.spk_nums.specs.WordSteps.{place_in};
ghost use Rattle.std.specs.Prelude.{◌<◌, ◌≡◌, ◌≤◌};
ghost use Rattle.step_lands.specs.act_states.specs.Kills.{dead_move};
ghost use Rattle.step_lands.specs.act_states.specs.Shares.{SharedFits, after_share, stores_more};
ghost use Rattle.step_lands.specs.act_states.specs.Switches.{idle_move, running_move};
ghost use Rattle.step_lands.specs.act_states.specs.Untypings.{ReleaseFits, release_after, release_move, thaw_left_by};
ghost use Rattle.step_lands.specs.frame_words.specs.Comp.{CompFits};
ghost use Rattle.step_lands.specs.stage_quiet.specs.Flushing.{flush_move};
ghost use Rattle.step_lands.specs.stage_quiet.specs.declared.flush_mark.FlushMark.TheVariants.{AtStore};
ghost use Rattle.step_lands.specs.stage_tcap.specs.Pairs.{pair_move};
ghost use Rattle.step_lands.specs.tcap_words.specs.Thread.{DepthFits};
ghost use Rattle.step_lands.specs.word_map.specs.Moves.{op_of};
ghost use Rattle.step_lands.specs.word_map.specs.Places.{size_of};

use spk_nums::{CoreNo, EntryNo, FrameNo, StageEnd, Stamp, Value, WordOp};
use step_lands::act_states::frame_words::{CompWord, LiveWord};
use step_lands::act_states::stage_quiet::FlushMark;
use step_lands::act_states::stage_sweep::Thaw;
use step_lands::act_states::stage_tcap::Pair;
use step_lands::act_states::tcap_words::ThreadWord;
use step_lands::act_states::word_map::Layout;
use step_lands::act_states::{Release, Tail};

/// The store of the word of a number that is dead since a stamp.
#[inline]
pub(crate) fn dead_op(life: &CompWord, stamp: Stamp, layout: &Layout) -> WordOp
    requires fits { CompFits life.now }
    requires drawn { 1 ≤ stamp }
    ensures step { result ≡ op_of layout.now (dead_move life.now stamp) }
    ensures below { place_in result < size_of layout.now }
{
    let word = LiveWord::Dead {
        epoch: life.epoch,
        stamp,
    };
    WordOp::Store {
        at: layout.live_at(life.number),
        word: word.pack(),
    }
}

/// The store of a core's last flush, which this stamp has. The core is below the layout's.
#[inline]
pub(crate) fn flushed_op(core: CoreNo, stamp: Stamp, layout: &Layout) -> WordOp
    requires { core < layout.now.cores }
    ensures step { result ≡ op_of layout.now (flush_move (AtStore core stamp)) }
    ensures below { place_in result < size_of layout.now }
{
    let mark = FlushMark::AtStore { core, stamp };
    mark.next(layout)
}

/// The store of a thread's word as running on a core. The thread is below the layout's frames, and the depth from 1 to 16.
#[inline]
pub(crate) fn running_op(thread: FrameNo, core: CoreNo, depth: u8, layout: &Layout) -> WordOp
    requires thread { thread < layout.now.frames }
    requires depth { DepthFits depth }
    ensures step { result ≡ op_of layout.now (running_move thread core depth) }
    ensures below { place_in result < size_of layout.now }
{
    let word = ThreadWord::Running { core, depth };
    WordOp::Store {
        at: layout.entry_at(thread, EntryNo::new(0)),
        word: word.pack(),
    }
}

/// The store of a thread's word as idle. The thread is below the layout's frames, and the depth from 1 to 16.
#[inline]
pub(crate) fn idle_op(thread: FrameNo, depth: u8, layout: &Layout) -> WordOp
    requires thread { thread < layout.now.frames }
    requires depth { DepthFits depth }
    ensures step { result ≡ op_of layout.now (idle_move thread depth) }
    ensures below { place_in result < size_of layout.now }
{
    let word = ThreadWord::Idle { depth };
    WordOp::Store {
        at: layout.entry_at(thread, EntryNo::new(0)),
        word: word.pack(),
    }
}

/// The next step of a release, a store. What it names is of the layout's machine.
#[inline]
pub(crate) fn release_op(release: &Release, layout: &Layout) -> WordOp
    requires { ReleaseFits layout.now release.now }
    ensures step { result ≡ op_of layout.now (release_move release.now) }
    ensures below { place_in result < size_of layout.now }
{
    match &release.thaw {
        None => WordOp::Store {
            at: layout.frame_at(release.frame),
            word: release.word,
        },
        Some(thaw) => thaw.next(layout),
    }
}

/// What of a release is still to be stored after its next step: after the frame's word nothing.
#[inline]
pub(crate) fn release_took(release: &Release, layout: &Layout, found: u64) -> Tail
    requires { ReleaseFits layout.now release.now }
    ensures { result ≡ release_after release.now }
{
    match &release.thaw {
        None => Tail::Nothing,
        Some(thaw) => {
            let mut thaw = *thaw;
            let end = thaw.take(layout, found);
            Tail::Release {
                release: Release {
                    frame: release.frame,
                    word: release.word,
                    thaw: thaw_left_by(&thaw, &end),
                },
            }
        }
    }
}

// The release of counters that goes on, if it does, after a step that leads to this.
#[inline]
fn thaw_left_by(thaw: &Thaw, end: &StageEnd<()>) -> Option<Thaw>
    ensures { result ≡ thaw_left_by thaw.now end.now }
{
    match end {
        StageEnd::Going => Some(*thaw),
        _ => None,
    }
}

/// The next store of a decided call on two temporal capabilities, which are below the layout's frames.
#[inline]
pub(crate) fn shared_op(pair: &Pair, layout: &Layout) -> WordOp
    requires { SharedFits layout.now pair.now }
    ensures step { result ≡ op_of layout.now (pair_move pair.now) }
    ensures below { place_in result < size_of layout.now }
{
    pair.next(layout)
}

/// What such a call has still to store after that store: after that of head A nothing.
#[inline]
pub(crate) fn shared_more(pair: &Pair, layout: &Layout, found: u64) -> Tail
    requires { SharedFits layout.now pair.now }
    ensures { result ≡ after_share pair.now found }
{
    let mut pair = *pair;
    let end = pair.take(layout, found);
    stores_more(pair, &end)
}

// What is still to be stored after a store, after which the call stands here.
#[inline]
fn stores_more(pair: Pair, end: &StageEnd<Value>) -> Tail
    ensures { result ≡ stores_more pair end.now }
{
    match end {
        StageEnd::Going => Tail::Share { pair },
        _ => Tail::Nothing,
    }
}
