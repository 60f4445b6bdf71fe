//! The act that touches a page of the core's own pages: a load of the root entry, and one of the page's entry.
//!
//! **Cached first.** A translation of the page that the core has cached is answered at the first load, whatever that finds. Else the
//! second load decides: what the entry holds is answered, and its translation is cached, where there is room.
//!
//! **Stale translations.** What was removed from the page table may be cached still: so a frame that was mapped is free for others only
//! when each core has flushed since.

ghost use Rattle.act_counts.specs.act_states.specs.Touches.{TouchFits, fault_of, is_answering, is_at_page, mapping_of, meets_page};
ghost use Rattle.act_counts.specs.act_states.specs.Touches.{took_touch, touch_end};
ghost use Rattle.act_counts.specs.act_states.specs.declared.work.Tail.TheVariants.{Nothing};
ghost use Rattle.act_counts.specs.act_states.specs.declared.work.WorkStep.TheVariants.{Answers};
ghost use Rattle.act_counts.specs.kernel_rules.specs.MemoryCalls.{translated};
ghost use Rattle.act_counts.specs.stage_look.specs.Lookup.{look_move};
ghost use Rattle.act_counts.specs.word_map.specs.Moves.{op_of};
ghost use Rattle.act_counts.specs.word_map.specs.Places.{size_of};
ghost use Rattle.act_counts.specs.spk_nums.specs.WordSteps.{place_in};
ghost use Rattle.std.specs.Prelude.{None, ◌<◌, ◌≡◌};

use act_counts::act_states::entry_words::Entry;
use act_counts::act_states::stage_look::{Found, Look};
use act_counts::act_states::word_map::Layout;
use act_counts::act_states::{Act, OwnChange, Refusal, Tail, Touching, Work, WorkStep};
use act_counts::refuse;
use spk_nums::{Cap, PageFlags, Reply, StageEnd, Translation, Value, WordOp};

/// The next load of a touch. Its frame is below the layout's.
#[inline]
pub fn touch_op(touching: &Touching, layout: &Layout) -> WordOp
    requires { TouchFits layout.now touching.now }
    ensures step { result ≡ op_of layout.now (look_move touching.now.look) }
    ensures below { place_in result < size_of layout.now }
{
    touching.look.next(layout)
}

/// What a touch takes from the word that its load found: no link at the root entry, and nothing at the page's, is `fault`, and an entry
/// that another core has closed `busy`. The frames are the layout's.
#[inline(never)]
pub fn touch_took(touching: &Touching, layout: &Layout, found: u64) -> WorkStep
    requires { TouchFits layout.now touching.now }
    ensures { result ≡ took_touch touching.now found }
{
    match &touching.cached {
        Some(item) => answers(item),
        None => {
            let mut look = touching.look;
            let end = look.take(layout, found);
            touch_met(touching, look, &end)
        }
    }
}

// What is taken from a step of the look-up, which stands here after it.
#[inline]
fn touch_met(touching: &Touching, look: Look, end: &StageEnd<Found>) -> WorkStep
    ensures { result ≡ touch_end touching.now look end.now }
{
    match end {
        StageEnd::Going => WorkStep::Goes {
            work: Work::Act {
                act: Act::Touch {
                    touching: Touching { look, ..*touching },
                },
            },
        },
        StageEnd::Decided(reply) => refuse(fault_of(reply)),
        StageEnd::Done(found) => meets_page(touching, &found.value),
        StageEnd::Refuse(reply) => refuse(fault_of(reply)),
    }
}

// What is taken from the page's entry.
#[inline]
fn meets_page(touching: &Touching, entry: &Entry) -> WorkStep
    ensures { result ≡ meets_page touching.now entry.now }
{
    match entry {
        Entry::Free => refuse(Refusal::Fault),
        Entry::Held(cap) => {
            let item = mapping_of(touching, cap);
            WorkStep::Changes {
                reply: Reply::Ok(translated(&item)),
                change: OwnChange::Caches { item },
                drawn: None,
                tail: Tail::Nothing,
            }
        }
        Entry::Closing { by: _ } => refuse(Refusal::Raced),
        Entry::Quiescing { stamp: _ } => refuse(Refusal::Fault),
    }
}

/// The translation that a mapping tells.
#[inline]
pub fn mapping_of(touching: &Touching, cap: &Cap) -> Translation
    ensures { result ≡ mapping_of touching.now cap.now }
{
    Translation {
        pages: touching.pages,
        page: touching.page,
        frame: cap.frame(),
        flags: PageFlags::of_bits((cap.arg() % 4) as u8),
    }
}

/// Whether the next load of a touch is the one that decides `ok`.
#[inline]
pub fn touch_ready(touching: &Touching) -> bool
    ensures { result ≡ is_answering touching.now }
{
    touching.cached.is_some() || is_at_page(&touching.look)
}

// Whether the next load is that of the page's entry.
#[inline]
fn is_at_page(look: &Look) -> bool
    ensures { result ≡ is_at_page look.now }
{
    match look {
        Look::AtRoot { root: _, number: _ } => false,
        _ => true,
    }
}

// A look-up that leads to no slot leads to no page.
#[inline]
fn fault_of(reply: &Reply) -> Refusal
    ensures { result ≡ fault_of reply.now }
{
    match reply {
        Reply::NoSlot => Refusal::Fault,
        _ => Refusal::of(reply),
    }
}

/// The answer that a translation gives.
#[inline]
pub fn translated(item: &Translation) -> Value
    ensures { result ≡ translated item.now }
{
    Value::Page {
        frame: item.frame,
        flags: item.flags,
    }
}

// A translation that is cached is answered.
#[inline]
fn answers(item: &Translation) -> WorkStep
    ensures { result ≡ Answers (translated item.now) None Nothing }
{
    WorkStep::Answers {
        value: translated(item),
        drawn: None,
        tail: Tail::Nothing,
    }
}
