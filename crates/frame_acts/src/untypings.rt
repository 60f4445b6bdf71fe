//! The act that makes a user frame or a kernel frame untyped again: nothing may use the frame, and its object is empty.
//!
//! **Marking.** The frame's word is loaded, and marked by a compare with the word found. While it is marked no other core retypes the
//! frame, makes an object in it or maps it.
//!
//! **Sweeping.** The frame's counters are frozen one after the other, so that no reference comes or goes, and summed; what released the
//! last of them is scanned for; and the object is looked at (`stage_sweep`). The stamp is drawn after that, so that no core which may still
//! use the frame is taken for one that entered later.
//!
//! **Deciding.** What the object itself names is released with it: a component's table and pages, a thread's component at the bottom of
//! its stack. These counts are acquired after the sweep. Then a stamp is drawn, which decides the call.
//!
//! **Releasing.** The counts are committed first. Then each frozen counter is stored: with no count where the call is carried out, and as
//! it was found where it is refused. The frame's word comes last: untyped, or as it was found. While it is marked no core finds a frame
//! whose counters are still frozen.

ghost use Rattle.act_counts.specs.act_states.specs.Acts.{drawn_untyped, meets_untyped, meets_untyping, sweeps_if, took_sweep};
ghost use Rattle.act_counts.specs.act_states.specs.Acts.{took_untyping};
ghost use Rattle.act_counts.specs.act_states.specs.Typings.{typed};
ghost use Rattle.act_counts.specs.act_states.specs.Untypings.{UntypingFits, held_by, is_drawing, release_of, untyping_move};
ghost use Rattle.act_counts.specs.act_states.specs.declared.work.WorkStep.TheVariants.{Refuses};
ghost use Rattle.act_counts.specs.frame_words.specs.Frame.{FrameFits, word_of_frame};
ghost use Rattle.act_counts.specs.stage_sweep.specs.Freeze.{swept_of};
ghost use Rattle.act_counts.specs.word_map.specs.Moves.{op_of};
ghost use Rattle.act_counts.specs.word_map.specs.Places.{size_of};
ghost use Rattle.act_counts.specs.spk_nums.specs.WordSteps.{place_in};
ghost use Rattle.act_counts.specs.spk_nums.specs.declared.kinds.FrameKind.TheVariants.{Untyped};
ghost use Rattle.std.specs.Prelude.{None, false, ◌<◌, ◌≡◌};

use act_counts::act_states::frame_words::FrameWord;
use act_counts::act_states::stage_quiet::drawn;
use act_counts::act_states::stage_sweep::{Sweep, Swept};
use act_counts::act_states::word_map::Layout;
use act_counts::act_states::{Act, Refusal, Tail, Untyping, UntypingAt, Work, WorkStep};
use act_counts::{next_work, refuse, release_of};
use spk_nums::{CoreNo, FrameKind, Obj, StageEnd, Stamp, Value, WordOp};

/// The next step of an untyping. What it names is of the layout's machine.
#[inline]
pub fn untyping_op(untyping: &Untyping, layout: &Layout) -> WordOp
    requires { UntypingFits layout.now untyping.now }
    ensures step { result ≡ op_of layout.now (untyping_move untyping.now) }
    ensures below { place_in result < size_of layout.now }
{
    match &untyping.at {
        UntypingAt::Load => WordOp::Load {
            at: layout.frame_at(untyping.frame),
        },
        UntypingAt::Mark { word, shown } => WordOp::Compare {
            at: layout.frame_at(untyping.frame),
            expected: *word,
            word: held_word(untyping.core, shown.kind, shown.object),
        },
        UntypingAt::Sweep { word: _, sweep } => sweep.next(layout),
        UntypingAt::Draw { word: _, swept: _ } => WordOp::Add {
            at: layout.clock_at(),
            by: 1,
        },
    }
}

/// What an untyping takes from the word that its step found: a frame that another core has marked is `busy`, one that is untyped already
/// `frame-kind`. A lost compare is `raced`. What the sweep refuses the call refuses: `busy` a counter that a core holds, `referenced` by
/// how many references stand, `quiescing` and `unflushed` where the frame may still be used, `not-empty` where its object holds something.
/// After the sweep the counts of the object's own references are acquired. The draw carries the call out, with the clock found as its
/// stamp.
#[inline(never)]
pub fn untyping_took(untyping: &Untyping, layout: &Layout, found: u64) -> WorkStep
    requires { UntypingFits layout.now untyping.now }
    ensures { result ≡ took_untyping layout.now untyping.now found }
{
    match &untyping.at {
        UntypingAt::Load => meets(untyping, found, FrameWord::unpack(found)),
        UntypingAt::Mark { word, shown } => marks(untyping, *word, *shown, found == *word),
        UntypingAt::Sweep { word, sweep } => {
            let mut sweep = *sweep;
            let end = sweep.take(layout, found);
            sweeps(untyping, *word, &sweep, &end)
        }
        UntypingAt::Draw { word: _, swept } => draws(untyping, swept, drawn(found)),
    }
}

/// Whether the next step of an untyping draws the stamp.
#[inline]
pub fn untyping_ready(untyping: &Untyping) -> bool
    ensures { result ≡ is_drawing untyping.now.at }
{
    matches!(untyping.at, UntypingAt::Draw { .. })
}

// The untyping that stands here.
#[inline]
fn untyping_at(untyping: &Untyping, at: &UntypingAt) -> Act
    ensures { result ≡ Act.Untype (record untyping.now { at = at.now }) }
{
    Act::Untype {
        untyping: Untyping {
            frame: untyping.frame,
            core: untyping.core,
            at: *at,
        },
    }
}

// What the load leads to, where the word shows this.
#[inline]
fn meets(untyping: &Untyping, word: u64, shown: Option<FrameWord>) -> WorkStep
    ensures { result ≡ meets_untyping untyping.now word shown }
{
    match shown {
        None => refuse(Refusal::Raced),
        Some(shown) => meets_frame(untyping, word, &shown),
    }
}

// What the load leads to, where the word shows a frame.
#[inline]
fn meets_frame(untyping: &Untyping, word: u64, shown: &FrameWord) -> WorkStep
    ensures { result ≡ meets_untyped untyping.now word shown.now shown.now.kind shown.now.mark }
{
    match (shown.mark, shown.kind) {
        (Some(by), _) => refuse(Refusal::Busy(by)),
        (None, FrameKind::Untyped) => refuse(Refusal::FrameKind),
        (None, _) => WorkStep::Goes {
            work: Work::Act {
                act: untyping_at(
                    untyping,
                    &UntypingAt::Mark {
                        word,
                        shown: *shown,
                    },
                ),
            },
        },
    }
}

// What the compare that marks the frame leads to: its sweep begins.
#[inline]
fn marks(untyping: &Untyping, word: u64, shown: FrameWord, equal: bool) -> WorkStep
    ensures { result ≡ sweeps_if untyping.now word shown equal }
{
    if equal {
        let sweep = Sweep::new(untyping.frame, shown, untyping.core);
        WorkStep::Goes {
            work: Work::Act {
                act: untyping_at(untyping, &UntypingAt::Sweep { word, sweep }),
            },
        }
    } else {
        refuse(Refusal::Raced)
    }
}

// What a step of the sweep leads to, which stands here after it.
#[inline]
fn sweeps(untyping: &Untyping, word: u64, sweep: &Sweep, end: &StageEnd<Swept>) -> WorkStep
    ensures { result ≡ took_sweep untyping.now word sweep.now end.now }
{
    match end {
        StageEnd::Going => WorkStep::Goes {
            work: Work::Act {
                act: untyping_at(
                    untyping,
                    &UntypingAt::Sweep {
                        word,
                        sweep: *sweep,
                    },
                ),
            },
        },
        StageEnd::Decided(reply) => gives_back(untyping, Refusal::of(reply), word, sweep),
        StageEnd::Done(swept) => {
            let act = untyping_at(
                untyping,
                &UntypingAt::Draw {
                    word,
                    swept: *swept,
                },
            );
            WorkStep::Goes {
                work: next_work(untyping.core, 0, &act),
            }
        }
        StageEnd::Refuse(reply) => gives_back(untyping, Refusal::of(reply), word, sweep),
    }
}

// A call whose sweep is refused stores what the sweep has frozen, and the frame's word, as they were found.
#[inline]
fn gives_back(untyping: &Untyping, refusal: Refusal, word: u64, sweep: &Sweep) -> WorkStep
    ensures { result ≡ Refuses refusal (Tail.Release (release_of untyping.now.frame word (swept_of sweep.now) false)) }
{
    WorkStep::Refuses {
        refusal,
        tail: Tail::Release {
            release: release_of(untyping.frame, word, &sweep.kept(), false),
        },
    }
}

// The call is carried out with this stamp: the counters are to be cleared, and the frame to be untyped.
#[inline]
fn draws(untyping: &Untyping, swept: &Swept, stamp: Stamp) -> WorkStep
    ensures { result ≡ drawn_untyped untyping.now.frame swept.now stamp }
{
    WorkStep::Answers {
        value: Value::Nothing,
        drawn: Some(stamp),
        tail: Tail::Release {
            release: release_of(untyping.frame, untyped_word(), swept, true),
        },
    }
}

// The word of a frame that is this, and that a core has marked.
#[inline]
fn held_word(core: CoreNo, kind: FrameKind, object: Obj) -> u64
    requires { FrameFits (record { kind = kind; object = object; mark = None }) }
    ensures { result ≡ word_of_frame (held_by core kind object) }
{
    let _number = core.number();
    let word = FrameWord {
        kind,
        object,
        mark: Some(core),
    };
    word.pack()
}

// The word of an untyped frame.
#[inline]
fn untyped_word() -> u64
    ensures { result ≡ word_of_frame (typed Untyped) }
{
    let word = FrameWord {
        kind: FrameKind::Untyped,
        object: Obj::Blank,
        mark: None,
    };
    word.pack()
}
