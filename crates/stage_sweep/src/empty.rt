//! Whether the object in a frame is empty.
//!
//! A frame can be retyped to untyped only where its object holds nothing: no entry of a node, no component above the
//! bottom of a thread, no budget of a temporal capability. What the object itself names, a component its table and its
//! pages, a thread its bottom component, is released with it, so these frames are told.

ghost use Rattle.std.specs.Prelude.{◌≡◌, ◌<◌, ◌≤◌, ◌==◌, nat_lt, Some};
ghost use Rattle.stage_look.specs.spk_nums.specs.declared.kinds.Obj.TheVariants.{Thread};
ghost use Rattle.tcap_words.specs.Stack.{stack_of_word};
ghost use Rattle.stage_look.specs.Shown.{shown_in};
ghost use Rattle.stage_sweep.specs.Emptiness.{loads_of, is_page_node, may_be_cached, held_refuses, refusal_by, entry_refuses};
ghost use Rattle.stage_sweep.specs.Emptiness.{field_refuses, depth_refuses, thread_refuses, place_refuses, stack_refuses, head_by_mark};
ghost use Rattle.stage_sweep.specs.Emptiness.{head_refuses, by_turn, empty_refuses, frame_if, place_owned, stack_owned, owns, owned_after};

use entry_words::Entry;
use spk_nums::{CoreNo, EntryNo, FrameKind, FrameNo, Obj, Reply, StageEnd};
use stage_look::{Found, Look};
use tcap_words::{HeadWord, StackWord, ThreadWord};
use word_map::Layout;

/// The frames that an object itself names: a component its table and its pages, a thread its bottom component.
#[derive(Clone, Copy, PartialEq, Eq, Debug)]
pub struct Owned {
    /// A component's table, or a thread's bottom component.
    pub first: Option<FrameNo>,
    /// A component's pages.
    pub second: Option<FrameNo>,
}

// How many words of an object are looked at.
#[inline]
pub(crate) fn loads_of(object: Obj) -> u16
    ensures value { result ≡ loads_of object }
    ensures most { loads_of object ≤ 64 }
{
    match object {
        Obj::Blank => 0,
        Obj::Table => 64,
        Obj::Leaf => 64,
        Obj::Pages => 64,
        Obj::Pleaf => 64,
        Obj::Comp => 2,
        Obj::Thread => 2,
        Obj::Tcap => 1,
    }
}

// Whether a frame may stand in cached translations: a user frame, and a node of a page table.
#[inline]
pub(crate) fn may_be_cached(kind: FrameKind, object: Obj) -> bool
    ensures { result ≡ may_be_cached kind object }
{
    match kind {
        FrameKind::Untyped => false,
        FrameKind::User => true,
        FrameKind::Kernel => is_page_node(object),
    }
}

// Whether an object is a node of a page table.
#[inline]
fn is_page_node(object: Obj) -> bool
    ensures { result ≡ is_page_node object }
{
    match object {
        Obj::Pages => true,
        Obj::Pleaf => true,
        _ => false,
    }
}

// The refusal to which the word `at` of the object in a frame leads, if it does to one. The frame is below the layout's,
// and the word below 64.
#[inline]
pub(crate) fn empty_refuses(
    layout: &Layout,
    frame: FrameNo,
    object: Obj,
    at: EntryNo,
    found: u64,
) -> Option<Reply>
    requires frame { frame < layout.now.frames }
    requires at { at < 64 }
    ensures { result ≡ empty_refuses layout.now.frames object at found }
{
    match object {
        Obj::Blank => None,
        Obj::Table => entry_refuses(layout, frame, at, found),
        Obj::Leaf => entry_refuses(layout, frame, at, found),
        Obj::Pages => entry_refuses(layout, frame, at, found),
        Obj::Pleaf => entry_refuses(layout, frame, at, found),
        Obj::Comp => field_refuses(found < u64::from(layout.frames())),
        Obj::Thread => {
            if at.number() == 0 {
                thread_refuses(ThreadWord::unpack(found))
            } else {
                stack_refuses(layout.frames(), StackWord::unpack(found))
            }
        }
        Obj::Tcap => head_refuses(HeadWord::unpack(found)),
    }
}

// What is known of the frames that an object names, after its word `at`.
#[inline]
pub(crate) fn owned_after(frames: u16, object: Obj, at: u16, found: u64, owned: Owned) -> Owned
    requires { frames ≤ 512 }
    ensures { result ≡ owned_after frames object at found owned }
{
    match object {
        Obj::Comp => {
            let frame = if found < u64::from(frames) {
                Some(FrameNo::new(found as u16))
            } else {
                None
            };
            owns(at == 0, frame, owned)
        }
        Obj::Thread => {
            if at == 0 {
                owned
            } else {
                owns(true, stack_owned(frames, StackWord::unpack(found)), owned)
            }
        }
        _ => owned,
    }
}

// The first or the second of the frames that an object names.
#[inline]
fn owns(first: bool, frame: Option<FrameNo>, owned: Owned) -> Owned
    ensures { result ≡ owns first frame owned }
{
    if first {
        Owned {
            first: frame,
            second: owned.second,
        }
    } else {
        Owned {
            first: owned.first,
            second: frame,
        }
    }
}

// A node is empty where none of its entries holds anything: an entry is looked at as a look-up of it does.
#[inline]
#[tactic(auto, using(crate::proofs::EmptyLemmas::looked))]
fn entry_refuses(layout: &Layout, frame: FrameNo, at: EntryNo, found: u64) -> Option<Reply>
    requires frame { frame < layout.now.frames }
    requires at { at < 64 }
    ensures { result ≡ entry_refuses (shown_in layout.now.frames found) }
{
    let mut look = Look::root(frame, at);
    let end = look.take(layout, found);
    refusal_by(&end)
}

// The refusal of a look-up, or of what it found.
#[inline]
fn refusal_by(end: &StageEnd<Found>) -> Option<Reply>
    ensures { result ≡ refusal_by end.now }
{
    match end {
        StageEnd::Refuse(reply) => Some(*reply),
        StageEnd::Done(place) => held_refuses(&place.value),
        _ => None,
    }
}

// An entry that holds something refuses.
#[inline]
fn held_refuses(entry: &Entry) -> Option<Reply>
    ensures { result ≡ held_refuses entry.now }
{
    match entry {
        Entry::Held(_) => Some(Reply::NotEmpty),
        _ => None,
    }
}

// A field names a frame of the machine.
#[inline]
fn field_refuses(within: bool) -> Option<Reply>
    ensures { result ≡ field_refuses within }
{
    if within { None } else { Some(Reply::Raced) }
}

// A thread is empty at depth 1.
#[inline]
fn depth_refuses(depth: u8) -> Option<Reply>
    ensures { result ≡ depth_refuses depth }
{
    if depth == 1 {
        None
    } else {
        Some(Reply::NotEmpty)
    }
}

// The refusal to which a thread's first word leads.
#[inline]
fn thread_refuses(shown: Option<ThreadWord>) -> Option<Reply>
    ensures { result ≡ thread_refuses shown }
{
    match shown {
        None => Some(Reply::Raced),
        Some(word) => one_thread_refuses(word),
    }
}

// A thread that no core has claimed refuses by its depth.
#[inline]
fn one_thread_refuses(word: ThreadWord) -> Option<Reply>
    ensures { result ≡ thread_refuses (Some word) }
{
    match word {
        ThreadWord::Idle { depth } => depth_refuses(depth),
        ThreadWord::Running { core: _, depth } => depth_refuses(depth),
        ThreadWord::Claimed { core, depth: _ } => Some(Reply::Busy(core)),
    }
}

// A thread's bottom component is a frame of the machine, where it has one.
#[inline]
fn stack_refuses(frames: u16, shown: Option<StackWord>) -> Option<Reply>
    ensures { result ≡ stack_refuses frames shown }
{
    match shown {
        None => Some(Reply::Raced),
        Some(word) => place_refuses(frames, word.0),
    }
}

// A component on a stack is a frame of the machine.
#[inline]
fn place_refuses(frames: u16, frame: Option<FrameNo>) -> Option<Reply>
    ensures { result ≡ place_refuses frames frame }
{
    match frame {
        None => None,
        Some(frame) => field_refuses(frame.number() < frames),
    }
}

// The bottom component of a thread, where it is a frame of the machine.
#[inline]
fn stack_owned(frames: u16, shown: Option<StackWord>) -> Option<FrameNo>
    ensures { result ≡ stack_owned frames shown }
{
    match shown {
        None => None,
        Some(word) => place_owned(frames, word.0),
    }
}

// A component on a stack, where it is a frame of the machine.
#[inline]
fn place_owned(frames: u16, frame: Option<FrameNo>) -> Option<FrameNo>
    ensures { result ≡ place_owned frames frame }
{
    match frame {
        None => None,
        Some(frame) => {
            if frame.number() < frames {
                Some(frame)
            } else {
                None
            }
        }
    }
}

// The refusal to which the head of a temporal capability leads.
#[inline]
fn head_refuses(shown: Option<HeadWord>) -> Option<Reply>
    ensures { result ≡ head_refuses shown }
{
    match shown {
        None => Some(Reply::Raced),
        Some(word) => head_by_mark(word.budget, word.mark),
    }
}

// A temporal capability is empty where it has no budget.
#[inline]
fn head_by_mark(budget: u32, mark: Option<CoreNo>) -> Option<Reply>
    ensures { result ≡ head_by_mark budget mark }
{
    match mark {
        Some(by) => Some(Reply::Busy(by)),
        None => {
            if budget == 0 {
                None
            } else {
                Some(Reply::NotEmpty)
            }
        }
    }
}
