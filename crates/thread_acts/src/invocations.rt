//! The acts by which a core enters a component through a gate, and leaves it.
//!
//! **Entering.** The words of the gate's component are loaded: its table, its pages, and its liveness number. The count of its frame is
//! acquired, and then the number's word is loaded, which decides: the component must live in the gate's epoch. The load must come after
//! the count is acquired: a component that is killed before is found dead, and one that is killed later keeps the reference of the thread
//! that has entered it. The component is still to be pushed onto the stack of the core's thread.
//!
//! **Leaving.** The component below the top of the stack is loaded, and its table and its pages. The count of the top's frame is acquired,
//! and a stamp is drawn, which decides: the reference to the top is released at the stamp. The top is still to be popped.
//!
//! **The stack.** The words of a running thread are stored by its core alone, so the core needs no mark in them. It knows its thread's
//! depth and the component at the top, and loads neither.

ghost use Rattle.act_counts.specs.act_states.specs.Acts.{meets_below, meets_below_pages, meets_below_table, meets_gate, meets_pages};
ghost use Rattle.act_counts.specs.act_states.specs.Acts.{meets_table, took_invoking, took_returning};
ghost use Rattle.act_counts.specs.act_states.specs.Invocations.{InvokingFits, ReturningFits, below_in, enters_if, enters_live};
ghost use Rattle.act_counts.specs.act_states.specs.Invocations.{enters_number, invoking_move, is_entering, is_leaving, left_to};
ghost use Rattle.act_counts.specs.act_states.specs.Invocations.{returning_move};
ghost use Rattle.act_counts.specs.word_map.specs.Moves.{op_of};
ghost use Rattle.act_counts.specs.word_map.specs.Places.{size_of};
ghost use Rattle.act_counts.specs.spk_nums.specs.WordSteps.{place_in};
ghost use Rattle.std.specs.Prelude.{◌<◌, ◌≡◌};

use act_counts::act_states::frame_words::{CompWord, LiveWord};
use act_counts::act_states::stage_quiet::drawn;
use act_counts::act_states::stage_thread::{Pop, Push};
use act_counts::act_states::tcap_words::StackWord;
use act_counts::act_states::word_map::Layout;
use act_counts::act_states::{
    Act, Invoking, InvokingAt, OwnChange, Refusal, Returning, ReturningAt, Tail, Work, WorkStep,
};
use act_counts::{frame_in, next_work, refuse};
use spk_nums::{EntryNo, FrameNo, Reply, Stamp, Value, WordOp};

/// The next step of an entering. What it names is of the layout's machine.
#[inline]
pub fn invoking_op(invoking: &Invoking, layout: &Layout) -> WordOp
    requires { InvokingFits layout.now invoking.now }
    ensures step { result ≡ op_of layout.now (invoking_move invoking.now) }
    ensures below { place_in result < size_of layout.now }
{
    match invoking.at {
        InvokingAt::LoadTable => WordOp::Load {
            at: layout.entry_at(invoking.comp, EntryNo::new(0)),
        },
        InvokingAt::LoadPages { table: _ } => WordOp::Load {
            at: layout.entry_at(invoking.comp, EntryNo::new(1)),
        },
        InvokingAt::LoadComp { table: _, pages: _ } => WordOp::Load {
            at: layout.entry_at(invoking.comp, EntryNo::new(2)),
        },
        InvokingAt::LoadLive {
            table: _,
            pages: _,
            life,
        } => WordOp::Load {
            at: layout.live_at(life.number),
        },
    }
}

/// What an entering takes from the word that its step found. After the loads of the component's words the count of its frame is acquired.
/// The load of the number's word carries the call out where the number is live in the gate's epoch; a number that another core is closing
/// is `busy`, and else the component is `dead`. A word that is none of its place is `raced`. What it names is of the layout's machine.
#[inline(never)]
pub fn invoking_took(invoking: &Invoking, layout: &Layout, found: u64) -> WorkStep
    requires { InvokingFits layout.now invoking.now }
    ensures { result ≡ took_invoking invoking.now found }
{
    match invoking.at {
        InvokingAt::LoadTable => meets_table(invoking, frame_in(invoking.frames, found)),
        InvokingAt::LoadPages { table } => {
            meets_pages(invoking, table, frame_in(invoking.frames, found))
        }
        InvokingAt::LoadComp { table, pages } => {
            meets_gate(invoking, table, pages, CompWord::unpack(found))
        }
        InvokingAt::LoadLive {
            table,
            pages,
            life: _,
        } => enters_live(invoking, table, pages, LiveWord::unpack(found)),
    }
}

/// Whether the next step of an entering is the load of the number's word.
#[inline]
pub fn invoking_ready(invoking: &Invoking) -> bool
    ensures { result ≡ is_entering invoking.now.at }
{
    matches!(invoking.at, InvokingAt::LoadLive { .. })
}

// The entering that stands here.
#[inline]
fn invoking_at(invoking: &Invoking, at: InvokingAt) -> Act
    ensures { result ≡ Act.Invoke (record invoking.now { at = at }) }
{
    Act::Invoke {
        invoking: Invoking { at, ..*invoking },
    }
}

// What the load of the component's table leads to, where it shows this.
#[inline]
fn meets_table(invoking: &Invoking, shown: Option<FrameNo>) -> WorkStep
    ensures { result ≡ meets_table invoking.now shown }
{
    match shown {
        None => refuse(Refusal::Raced),
        Some(table) => WorkStep::Goes {
            work: Work::Act {
                act: invoking_at(invoking, InvokingAt::LoadPages { table }),
            },
        },
    }
}

// What the load of its pages leads to, where it shows this.
#[inline]
fn meets_pages(invoking: &Invoking, table: FrameNo, shown: Option<FrameNo>) -> WorkStep
    ensures { result ≡ meets_pages invoking.now table shown }
{
    match shown {
        None => refuse(Refusal::Raced),
        Some(pages) => WorkStep::Goes {
            work: Work::Act {
                act: invoking_at(invoking, InvokingAt::LoadComp { table, pages }),
            },
        },
    }
}

// What the load of its liveness number leads to, where it shows this.
#[inline]
fn meets_gate(
    invoking: &Invoking,
    table: FrameNo,
    pages: FrameNo,
    shown: Option<CompWord>,
) -> WorkStep
    ensures { result ≡ meets_gate invoking.now table pages shown }
{
    match shown {
        None => refuse(Refusal::Raced),
        Some(life) => {
            let act = invoking_at(invoking, InvokingAt::LoadLive { table, pages, life });
            WorkStep::Goes {
                work: next_work(invoking.core, 0, &act),
            }
        }
    }
}

// What the load of the number's word leads to, where it shows this.
#[inline]
fn enters_live(
    invoking: &Invoking,
    table: FrameNo,
    pages: FrameNo,
    shown: Option<LiveWord>,
) -> WorkStep
    ensures { result ≡ enters_live invoking.now table pages shown }
{
    match shown {
        None => refuse(Refusal::Raced),
        Some(shown) => enters_number(invoking, table, pages, &shown),
    }
}

// What that load leads to, where the word shows a number.
#[inline]
fn enters_number(invoking: &Invoking, table: FrameNo, pages: FrameNo, shown: &LiveWord) -> WorkStep
    ensures { result ≡ enters_number invoking.now table pages shown.now }
{
    match shown {
        LiveWord::Free => refuse(Refusal::Dead),
        LiveWord::Live { epoch, frame: _ } => {
            enters_if(invoking, table, pages, u32::from(*epoch) == invoking.epoch)
        }
        LiveWord::Closing { epoch: _, by } => refuse(Refusal::Busy(*by)),
        LiveWord::Dead { epoch: _, stamp: _ } => refuse(Refusal::Dead),
    }
}

// The component is entered where it lives in the gate's epoch, and is dead else.
#[inline]
fn enters_if(invoking: &Invoking, table: FrameNo, pages: FrameNo, lives: bool) -> WorkStep
    ensures { result ≡ enters_if invoking.now table pages lives }
{
    if lives {
        WorkStep::Changes {
            reply: Reply::Ok(Value::Nothing),
            change: OwnChange::Works {
                comp: invoking.comp,
                table,
                pages,
                depth: invoking.depth.saturating_add(1),
            },
            drawn: None,
            tail: Tail::Push {
                push: Push::new(
                    invoking.thread,
                    invoking.core,
                    invoking.depth,
                    invoking.comp,
                ),
            },
        }
    } else {
        refuse(Refusal::Dead)
    }
}

/// The next step of a leaving. What it names is of the layout's machine.
#[inline]
pub fn returning_op(returning: &Returning, layout: &Layout) -> WordOp
    requires { ReturningFits layout.now returning.now }
    ensures step { result ≡ op_of layout.now (returning_move returning.now) }
    ensures below { place_in result < size_of layout.now }
{
    match returning.at {
        ReturningAt::LoadBelow => WordOp::Load {
            at: layout.entry_at(
                returning.thread,
                EntryNo::new(u16::from(returning.depth) - 1),
            ),
        },
        ReturningAt::LoadTable { comp } => WordOp::Load {
            at: layout.entry_at(comp, EntryNo::new(0)),
        },
        ReturningAt::LoadPages { comp, table: _ } => WordOp::Load {
            at: layout.entry_at(comp, EntryNo::new(1)),
        },
        ReturningAt::Draw {
            comp: _,
            table: _,
            pages: _,
        } => WordOp::Add {
            at: layout.clock_at(),
            by: 1,
        },
    }
}

/// What a leaving takes from the word that its step found. After the loads the count of the top's frame is acquired. The draw carries the
/// call out, with the clock found as its stamp. A word that is none of its place is `raced`. What it names is of the layout's machine.
#[inline(never)]
pub fn returning_took(returning: &Returning, layout: &Layout, found: u64) -> WorkStep
    requires { ReturningFits layout.now returning.now }
    ensures { result ≡ took_returning returning.now found }
{
    match returning.at {
        ReturningAt::LoadBelow => meets_below(returning, below_in(returning.frames, found)),
        ReturningAt::LoadTable { comp } => {
            meets_below_table(returning, comp, frame_in(returning.frames, found))
        }
        ReturningAt::LoadPages { comp, table } => {
            meets_below_pages(returning, comp, table, frame_in(returning.frames, found))
        }
        ReturningAt::Draw { comp, table, pages } => {
            left_to(returning, comp, table, pages, drawn(found))
        }
    }
}

/// Whether the next step of a leaving draws the stamp.
#[inline]
pub fn returning_ready(returning: &Returning) -> bool
    ensures { result ≡ is_leaving returning.now.at }
{
    matches!(returning.at, ReturningAt::Draw { .. })
}

// The leaving that stands here.
#[inline]
fn returning_at(returning: &Returning, at: ReturningAt) -> Act
    ensures { result ≡ Act.Return (record returning.now { at = at }) }
{
    Act::Return {
        returning: Returning { at, ..*returning },
    }
}

// What the load of the component below the top leads to, where it shows this.
#[inline]
fn meets_below(returning: &Returning, shown: Option<FrameNo>) -> WorkStep
    ensures { result ≡ meets_below returning.now shown }
{
    match shown {
        None => refuse(Refusal::Raced),
        Some(comp) => WorkStep::Goes {
            work: Work::Act {
                act: returning_at(returning, ReturningAt::LoadTable { comp }),
            },
        },
    }
}

// What the load of its table leads to, where it shows this.
#[inline]
fn meets_below_table(returning: &Returning, comp: FrameNo, shown: Option<FrameNo>) -> WorkStep
    ensures { result ≡ meets_below_table returning.now comp shown }
{
    match shown {
        None => refuse(Refusal::Raced),
        Some(table) => WorkStep::Goes {
            work: Work::Act {
                act: returning_at(returning, ReturningAt::LoadPages { comp, table }),
            },
        },
    }
}

// What the load of its pages leads to, where it shows this.
#[inline]
fn meets_below_pages(
    returning: &Returning,
    comp: FrameNo,
    table: FrameNo,
    shown: Option<FrameNo>,
) -> WorkStep
    ensures { result ≡ meets_below_pages returning.now comp table shown }
{
    match shown {
        None => refuse(Refusal::Raced),
        Some(pages) => {
            let act = returning_at(returning, ReturningAt::Draw { comp, table, pages });
            WorkStep::Goes {
                work: next_work(returning.core, 0, &act),
            }
        }
    }
}

// The call is carried out: the core works in the component below, and the top is still to be popped.
#[inline]
fn left_to(
    returning: &Returning,
    comp: FrameNo,
    table: FrameNo,
    pages: FrameNo,
    stamp: Stamp,
) -> WorkStep
    ensures { result ≡ left_to returning.now comp table pages stamp }
{
    WorkStep::Changes {
        reply: Reply::Ok(Value::Nothing),
        change: OwnChange::Works {
            comp,
            table,
            pages,
            depth: returning.depth.saturating_sub(1),
        },
        drawn: Some(stamp),
        tail: Tail::Pop {
            pop: Pop::new(returning.thread, returning.core, returning.depth),
        },
    }
}

/// The frame of the machine that the word of a place on a stack names, if it names one.
#[inline]
pub fn below_in(frames: u16, found: u64) -> Option<FrameNo>
    ensures { result ≡ below_in frames found }
{
    match StackWord::unpack(found) {
        Some(StackWord(Some(comp))) if comp.number() < frames => Some(comp),
        _ => None,
    }
}
