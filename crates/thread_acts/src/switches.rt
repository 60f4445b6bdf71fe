//! The act by which a core goes on as another thread, with a temporal capability.
//!
//! **Claiming.** The thread's word is loaded and claimed, by a compare with the idle word that was found: of two cores that would
//! switch to one thread one wins. No other core changes the words of a thread that is claimed, so the component at the top of its stack is
//! loaded then, and that component's table and pages.
//!
//! **Counts.** These are acquired: that of the thread, which the core comes to refer to, and that of the core's own thread, to which it
//! will refer no longer; then in the same way those of the two temporal capabilities. A core that keeps its temporal capability acquires no
//! count of it, and releases nothing there.
//!
//! **Leaving.** The word of the core's own thread is stored as claimed. No other core changes that of a running thread, so no compare is
//! needed. From here to its last store no core finds the thread idle, nor running where it does not run any more.
//!
//! **Going on.** A stamp is drawn, which decides: the references are released at the stamp. Then the thread's word is stored as running,
//! and that of the thread that was left as idle. A refused call stores as idle the thread that it has claimed.

ghost use Rattle.act_counts.specs.act_states.specs.Acts.{switch_pages, took_switching};
ghost use Rattle.act_counts.specs.act_states.specs.Switches.{SwitchingFits, is_switching, switch_goes, switch_table, switched};
ghost use Rattle.act_counts.specs.act_states.specs.Switches.{switching_move, took_claim};
ghost use Rattle.act_counts.specs.tcap_words.specs.Thread.{DepthFits, word_of_thread};
ghost use Rattle.act_counts.specs.tcap_words.specs.declared.thread_word.ThreadWord.TheVariants.{Claimed as claimed_thread};
ghost use Rattle.act_counts.specs.word_map.specs.Moves.{op_of};
ghost use Rattle.act_counts.specs.word_map.specs.Places.{size_of};
ghost use Rattle.act_counts.specs.spk_nums.specs.WordSteps.{place_in};
ghost use Rattle.std.specs.Prelude.{◌<◌, ◌≡◌};

use act_counts::act_states::stage_quiet::drawn;
use act_counts::act_states::stage_thread::{Claim, Claimed};
use act_counts::act_states::tcap_words::ThreadWord;
use act_counts::act_states::word_map::Layout;
use act_counts::act_states::{Act, OwnChange, Refusal, SwitchAt, Switching, Tail, Work, WorkStep};
use act_counts::{claim_undo, frame_in, idle_again, next_work};
use spk_nums::{CoreNo, EntryNo, FrameNo, Reply, StageEnd, Stamp, Value, WordOp};

/// The next step of a switch. What it names is of the layout's machine.
#[inline]
pub fn switching_op(switching: &Switching, layout: &Layout) -> WordOp
    requires { SwitchingFits layout.now switching.now }
    ensures step { result ≡ op_of layout.now (switching_move switching.now) }
    ensures below { place_in result < size_of layout.now }
{
    match switching.at {
        SwitchAt::Claim { claim } => claim.next(layout),
        SwitchAt::LoadTable { to } => WordOp::Load {
            at: layout.entry_at(to.comp, EntryNo::new(0)),
        },
        SwitchAt::LoadPages { to, table: _ } => WordOp::Load {
            at: layout.entry_at(to.comp, EntryNo::new(1)),
        },
        SwitchAt::Leave {
            to: _,
            table: _,
            pages: _,
        } => WordOp::Store {
            at: layout.entry_at(switching.old, EntryNo::new(0)),
            word: claimed_word(switching.core, switching.old_depth),
        },
        SwitchAt::Draw {
            to: _,
            table: _,
            pages: _,
        } => WordOp::Add {
            at: layout.clock_at(),
            by: 1,
        },
    }
}

/// What a switch takes from the word that its step found. A thread that runs is `running`, one that another core has claimed `busy`, and a
/// lost compare `raced`, as is a word that is none of its place. After the loads the counts are acquired. The draw carries the call out,
/// with the clock found as its stamp. What it names is of the layout's machine.
#[inline(never)]
pub fn switching_took(switching: &Switching, layout: &Layout, found: u64) -> WorkStep
    requires { SwitchingFits layout.now switching.now }
    ensures { result ≡ took_switching switching.now found }
{
    match switching.at {
        SwitchAt::Claim { claim } => {
            let mut claim = claim;
            let end = claim.take(layout, found);
            claims(switching, claim, &end)
        }
        SwitchAt::LoadTable { to } => meets_table(switching, to, frame_in(switching.frames, found)),
        SwitchAt::LoadPages { to, table } => {
            meets_pages(switching, to, table, frame_in(switching.frames, found))
        }
        SwitchAt::Leave { to, table, pages } => switch_goes(
            switching,
            SwitchAt::Draw { to, table, pages },
        ),
        SwitchAt::Draw { to, table, pages } => switched(switching, to, table, pages, drawn(found)),
    }
}

/// Whether the next step of a switch draws the stamp.
#[inline]
pub fn switching_ready(switching: &Switching) -> bool
    ensures { result ≡ is_switching switching.now.at }
{
    matches!(switching.at, SwitchAt::Draw { .. })
}

// The switch goes on here.
#[inline]
fn switch_goes(switching: &Switching, at: SwitchAt) -> WorkStep
    ensures { result ≡ switch_goes switching.now at }
{
    WorkStep::Goes {
        work: Work::Act {
            act: switching_at(switching, at),
        },
    }
}

// The switch that stands here.
#[inline]
fn switching_at(switching: &Switching, at: SwitchAt) -> Act
    ensures { result ≡ Act.Switch (record switching.now { at = at }) }
{
    Act::Switch {
        switching: Switching { at, ..*switching },
    }
}

// What a step of the claim leads to, which stands here after it.
#[inline]
fn claims(switching: &Switching, claim: Claim, end: &StageEnd<Claimed>) -> WorkStep
    ensures { result ≡ took_claim switching.now claim end.now }
{
    match end {
        StageEnd::Going => switch_goes(switching, SwitchAt::Claim { claim }),
        StageEnd::Decided(reply) => WorkStep::Refuses {
            refusal: Refusal::of(reply),
            tail: claim_undo(&claim),
        },
        StageEnd::Done(to) => switch_goes(switching, SwitchAt::LoadTable { to: *to }),
        StageEnd::Refuse(reply) => WorkStep::Refuses {
            refusal: Refusal::of(reply),
            tail: claim_undo(&claim),
        },
    }
}

// What the load of the table leads to, where it shows this.
#[inline]
fn meets_table(switching: &Switching, to: Claimed, shown: Option<FrameNo>) -> WorkStep
    ensures { result ≡ switch_table switching.now to shown }
{
    match shown {
        None => WorkStep::Refuses {
            refusal: Refusal::Raced,
            tail: idle_again(&to),
        },
        Some(table) => switch_goes(switching, SwitchAt::LoadPages { to, table }),
    }
}

// What the load of the pages leads to, where it shows this.
#[inline]
fn meets_pages(
    switching: &Switching,
    to: Claimed,
    table: FrameNo,
    shown: Option<FrameNo>,
) -> WorkStep
    ensures { result ≡ switch_pages switching.now to table shown }
{
    match shown {
        None => WorkStep::Refuses {
            refusal: Refusal::Raced,
            tail: idle_again(&to),
        },
        Some(pages) => {
            let act = switching_at(switching, SwitchAt::Leave { to, table, pages });
            WorkStep::Goes {
                work: next_work(switching.core, 0, &act),
            }
        }
    }
}

// The call is carried out: the core goes on as the thread, and the words of both threads are still to be stored.
#[inline]
fn switched(
    switching: &Switching,
    to: Claimed,
    table: FrameNo,
    pages: FrameNo,
    stamp: Stamp,
) -> WorkStep
    ensures { result ≡ switched switching.now to table pages stamp }
{
    WorkStep::Changes {
        reply: Reply::Ok(Value::Nothing),
        change: OwnChange::Switches {
            thread: to.thread,
            depth: to.depth,
            comp: to.comp,
            table,
            pages,
            tcap: switching.tcap,
        },
        drawn: Some(stamp),
        tail: Tail::StoreRunning {
            thread: to.thread,
            core: switching.core,
            depth: to.depth,
            old: switching.old,
            old_depth: switching.old_depth,
        },
    }
}

// The word of a thread at this depth that a core has claimed.
#[inline]
fn claimed_word(core: CoreNo, depth: u8) -> u64
    requires { DepthFits depth }
    ensures { result ≡ word_of_thread (claimed_thread core depth) }
{
    let word = ThreadWord::Claimed { core, depth };
    word.pack()
}
