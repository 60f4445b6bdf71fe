//! The objects that a `make` makes in a blank kernel frame: the words of each, and the references that it takes.
//!
//! A node has 64 free entries. A thread is idle, and its stack has one component, at the bottom. A temporal capability has no budget and
//! one pair in its list. Each takes a reference for the capability that leads to it, and a thread one more for its component.

ghost use Rattle.std.specs.Prelude.{◌≡◌, ◌≤◌, slice_get};
ghost use Rattle.stage_sweep.specs.entry_words.specs.EntryWord.{word_of_entry};
ghost use Rattle.stage_sweep.specs.entry_words.specs.declared.entry.Entry.TheVariants.{Free};
ghost use Rattle.stage_sweep.specs.tcap_words.specs.Stack.{word_of_stack};
ghost use Rattle.stage_sweep.specs.tcap_words.specs.Quality.{word_of_quality};
ghost use Rattle.act_states.specs.Objects.{object_obj, object_kind, object_cap, object_made, object_word};
ghost use Rattle.act_states.specs.Objects.{thread_word, tcap_word, last_word, object_dues, PairFits, thread_on};

use crate::work::Due;
use call_plans::{Caps, Nth};
use entry_words::Entry;
use spk_nums::{Cap, EntryNo, FrameNo, Kind, Make, Obj};
use tcap_words::{HeadWord, QualityWord, StackWord, ThreadWord};

/// An object that is made.
#[derive(Clone, Copy, PartialEq, Eq, Debug)]
pub enum NewObject {
    /// The root of a capability table.
    Table,
    /// A leaf of a capability table.
    Leaf,
    /// The root of a page table.
    Pages,
    /// A leaf of a page table.
    Pleaf,
    /// A thread in the component of this frame.
    Thread { comp: FrameNo },
    /// A temporal capability with this pair in its list.
    Tcap { sched: u8, quality: u32 },
}

impl NewObject {
    /// What the frame of such an object holds.
    #[inline]
    pub fn object(self) -> Obj
        ensures { result ≡ object_obj self }
    {
        match self {
            NewObject::Table => Obj::Table,
            NewObject::Leaf => Obj::Leaf,
            NewObject::Pages => Obj::Pages,
            NewObject::Pleaf => Obj::Pleaf,
            NewObject::Thread { comp: _ } => Obj::Thread,
            NewObject::Tcap {
                sched: _,
                quality: _,
            } => Obj::Tcap,
        }
    }

    /// The kind of the capability that leads to such an object.
    #[inline]
    pub fn kind(self) -> Kind
        ensures { result ≡ object_kind self }
    {
        match self {
            NewObject::Table => Kind::Table,
            NewObject::Leaf => Kind::Leaf,
            NewObject::Pages => Kind::Pages,
            NewObject::Pleaf => Kind::Pleaf,
            NewObject::Thread { comp: _ } => Kind::Thread,
            NewObject::Tcap {
                sched: _,
                quality: _,
            } => Kind::Tcap,
        }
    }

    /// The last of its words, from 0 on.
    #[inline]
    pub fn last(self) -> u16
        ensures exact { result ≡ last_word self }
        ensures most { result ≤ 63 }
    {
        match self {
            NewObject::Thread { comp: _ } => 16,
            NewObject::Tcap {
                sched: _,
                quality: _,
            } => 8,
            _ => 63,
        }
    }

    /// The word of this number of such an object. A pair is within its range.
    #[inline]
    pub fn word(self, entry: EntryNo) -> u64
        requires { PairFits self }
        ensures { result ≡ object_word self entry }
    {
        match self {
            NewObject::Thread { comp } => thread_word(comp, entry),
            NewObject::Tcap { sched, quality } => tcap_word(sched, quality, entry),
            _ => free_word(),
        }
    }

    /// The count of this number that changes where such an object is made in a frame: that of the frame, and that of a thread's component.
    #[inline]
    pub fn due(self, frame: FrameNo, n: u8) -> Option<Due>
        ensures { result ≡ slice_get (object_dues self frame) n }
    {
        match self {
            NewObject::Thread { comp } => {
                if n == 0 {
                    Some(Due { frame, change: 1 })
                } else if n == 1 {
                    Some(Due {
                        frame: comp,
                        change: 1,
                    })
                } else {
                    None
                }
            }
            _ => {
                if n == 0 {
                    Some(Due { frame, change: 1 })
                } else {
                    None
                }
            }
        }
    }
}

/// The capability that leads to such an object in a frame.
#[inline]
pub fn object_cap(object: NewObject, frame: FrameNo) -> Cap
    ensures { result ≡ object_cap object frame }
{
    Cap::new(object.kind(), frame, 0)
}

/// The object that a `make` makes whose names have led to these, if it makes one.
#[inline]
pub fn object_made(what: &Make, found: &Caps) -> Option<NewObject>
    ensures { result ≡ object_made what.now found.now }
{
    match what {
        Make::Table => Some(NewObject::Table),
        Make::Leaf => Some(NewObject::Leaf),
        Make::Pages => Some(NewObject::Pages),
        Make::Pleaf => Some(NewObject::Pleaf),
        Make::Thread { comp: _ } => thread_on(&found.get(Nth::Third)),
        Make::Tcap { sched, quality } => Some(NewObject::Tcap {
            sched: *sched,
            quality: *quality,
        }),
        Make::Comp {
            table: _,
            pages: _,
            live: _,
        } => None,
    }
}

// A thread in this component, if one was found.
#[inline]
fn thread_on(comp: &Option<Cap>) -> Option<NewObject>
    ensures { result ≡ thread_on comp.now }
{
    match comp {
        Some(comp) => Some(NewObject::Thread { comp: comp.frame() }),
        None => None,
    }
}

// The word of this number of a thread that is made: it is idle, and its stack has the component alone.
#[inline]
fn thread_word(comp: FrameNo, entry: EntryNo) -> u64
    ensures { result ≡ thread_word comp entry }
{
    let at = entry.number();
    if at == 0 {
        let word = ThreadWord::Idle { depth: 1 };
        word.pack()
    } else if at == 1 {
        let word = StackWord(Some(comp));
        word.pack()
    } else {
        let word = StackWord(None);
        word.pack()
    }
}

// The word of this number of a temporal capability that is made: it has no budget, and its list has the pair alone.
#[inline]
fn tcap_word(sched: u8, quality: u32, entry: EntryNo) -> u64
    requires { PairFits (NewObject.Tcap sched quality) }
    ensures { result ≡ tcap_word sched quality entry }
{
    let at = entry.number();
    if at == 0 {
        let word = HeadWord {
            budget: 0,
            mark: None,
            version: 0,
        };
        word.pack()
    } else if at == 1 {
        let word = QualityWord(Some((sched, quality)));
        word.pack()
    } else {
        let word = QualityWord(None);
        word.pack()
    }
}

// The word of a free entry.
#[inline]
fn free_word() -> u64
    ensures { result ≡ word_of_entry Free }
{
    let entry = Entry::Free;
    entry.pack()
}
