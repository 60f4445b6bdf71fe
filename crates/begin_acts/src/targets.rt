//! Acts that begin at the place of their target.
//!
//! **Scan.** A place that is quiescing is filled only when no other core is in a call that it entered before the removal: its core word
//! says that it is out, or that it has left a call since the stamp. An entry of a page table waits for flushes too.
//!
//! **Out of range.** A frame that is not in its range is refused where the act starts, after the scan.

ghost use Rattle.act_counts.specs.act_states.specs.Acts.{comps_at, comps_in, fills_at, fills_with, made_begun, makes_at, makes_in};
ghost use Rattle.act_counts.specs.act_states.specs.Acts.{maps_at, maps_in, parts_at, parts_in, removes_at, removes_held, scans};
ghost use Rattle.act_counts.specs.call_plans.specs.Plans.{at_place};
ghost use Rattle.act_counts.specs.call_plans.specs.declared.plans.Nth.TheVariants.{First, Fourth, Third};
ghost use Rattle.act_counts.specs.kernel_rules.specs.Access.{found as named_by_cap};
ghost use Rattle.act_counts.specs.kernel_rules.specs.CapabilityCalls.{has_frame, has_frames};
ghost use Rattle.std.specs.Prelude.{◌<◌, ◌≡◌, ◌≤◌};

use act_counts::act_states::call_plans::{Caps, Nth};
use act_counts::act_states::entry_words::Entry;
use act_counts::act_states::stage_look::Found;
use act_counts::act_states::stage_quiet::{Close, Quiet};
use act_counts::act_states::{
    Act, CompAt, CompMaking, Fill, Making, MakingAt, NewObject, Own, Refusal, Work, WorkStep,
    object_cap, object_made,
};
use act_counts::{next_work, refuse, stamp_in, starts};
use spk_nums::{Cap, CoreNo, FrameArg, FrameNo, Kind, Make, PageFlags};

/// The target, which is or is not a place of a page table, is filled with this capability.
#[inline]
pub(crate) fn fills_with(
    own: &Own,
    cap: &Option<Cap>,
    page: bool,
    target: &Option<Found>,
) -> WorkStep
    requires core { own.now.core < own.now.layout.cores }
    requires cores { own.now.layout.cores ≤ 8 }
    ensures { result ≡ fills_with own.now cap.now page target.now }
{
    match (cap, target) {
        (Some(cap), Some(target)) => fills_at(own, *cap, page, target),
        _ => refuse(Refusal::Raced),
    }
}

// This place is filled with this capability, after a scan where it is quiescing: of the other cores, and where it is one of a page
// table of all flushes.
#[inline]
fn fills_at(own: &Own, cap: Cap, page: bool, target: &Found) -> WorkStep
    requires core { own.now.core < own.now.layout.cores }
    requires cores { own.now.layout.cores ≤ 8 }
    ensures { result ≡ fills_at own.now cap page target.now }
{
    let act = Act::Fill {
        fill: fill_of(target, cap),
    };
    let stamp = stamp_in(&target.value);
    let quiet = if page {
        Quiet::page(stamp, own.core, own.layout.cores())
    } else {
        Quiet::entry(stamp, own.core, own.layout.cores())
    };
    scans(own.core, quiet, &act)
}

// An act starts after a scan, if there is one.
#[inline]
fn scans(core: CoreNo, quiet: Option<Quiet>, act: &Act) -> WorkStep
    ensures { result ≡ scans core quiet act.now }
{
    match quiet {
        None => starts(core, act),
        Some(quiet) => WorkStep::Goes {
            work: Work::Scan { quiet, act: *act },
        },
    }
}

// The filling of a place that was found with this capability.
#[inline]
fn fill_of(target: &Found, cap: Cap) -> Fill
    ensures { result ≡ record { node = target.now.node; entry = target.now.entry; word = target.now.word; cap = cap } }
{
    Fill {
        node: target.node,
        entry: target.entry,
        word: target.word,
        cap,
    }
}

// An act on a frame that is not in its range, whose target was found.
#[inline]
fn outside(target: &Found) -> Act
    ensures { result ≡ Act.Outside target.now.node target.now.entry target.now.word }
{
    Act::Outside {
        node: target.node,
        entry: target.entry,
        word: target.word,
    }
}

// An object is made in a frame of this range.
#[inline]
fn makes_at(
    own: &Own,
    object: Option<NewObject>,
    range: &Option<Cap>,
    frame: FrameArg,
    target: &Option<Found>,
) -> WorkStep
    requires core { own.now.core < own.now.layout.cores }
    requires cores { own.now.layout.cores ≤ 8 }
    ensures { result ≡ makes_at own.now object range.now frame target.now }
{
    match (object, range, target) {
        (Some(object), Some(range), Some(target)) => makes_in(own, &object, range, frame, target),
        _ => refuse(Refusal::Raced),
    }
}

// An object is made in a frame, where the range has it, after a scan where the target is quiescing.
#[inline]
fn makes_in(own: &Own, object: &NewObject, range: &Cap, frame: FrameArg, target: &Found) -> WorkStep
    requires core { own.now.core < own.now.layout.cores }
    requires cores { own.now.layout.cores ≤ 8 }
    ensures { result ≡ makes_in own.now object.now range.now frame target.now }
{
    let act = if has_frame(range, frame) && frame.number() < own.layout.frames() {
        let frame = FrameNo::new(frame.number());
        Act::Make {
            making: Making {
                frame,
                object: *object,
                core: own.core,
                fill: fill_of(target, object_cap(*object, frame)),
                at: MakingAt::Load,
            },
        }
    } else {
        outside(target)
    };
    let quiet = Quiet::entry(stamp_in(&target.value), own.core, own.layout.cores());
    scans(own.core, quiet, &act)
}

/// What a `make` does whose names have led to these.
#[inline]
pub(crate) fn made_begun(
    own: &Own,
    what: &Make,
    found: &Caps,
    frame: FrameArg,
    target: &Option<Found>,
) -> WorkStep
    requires core { own.now.core < own.now.layout.cores }
    requires cores { own.now.layout.cores ≤ 8 }
    ensures { result ≡ made_begun own.now what.now found.now frame target.now }
{
    match what {
        Make::Comp {
            table: _,
            pages: _,
            live,
        } => comps_at(own, *live, found, frame, target),
        _ => makes_at(
            own,
            object_made(what, found),
            &found.get(Nth::First),
            frame,
            target,
        ),
    }
}

// A component is made in a frame of the range to which the first name has led, with the table and the pages of the third and the fourth.
#[inline]
fn comps_at(own: &Own, live: u8, found: &Caps, frame: FrameArg, target: &Option<Found>) -> WorkStep
    requires core { own.now.core < own.now.layout.cores }
    requires cores { own.now.layout.cores ≤ 8 }
    ensures { result ≡ comps_at own.now live (at_place found.now First)
        (at_place found.now Third) (at_place found.now Fourth) frame target.now }
{
    let range = found.get(Nth::First);
    let table = found.get(Nth::Third);
    let pages = found.get(Nth::Fourth);
    match (range, table, pages, target) {
        (Some(range), Some(table), Some(pages), Some(target)) => {
            comps_in(own, live, &range, &table, &pages, frame, target)
        }
        _ => refuse(Refusal::Raced),
    }
}

// A component with this table and these pages is made in a frame, where the range has it, after a scan where the target is quiescing.
#[inline]
fn comps_in(
    own: &Own,
    live: u8,
    range: &Cap,
    table: &Cap,
    pages: &Cap,
    frame: FrameArg,
    target: &Found,
) -> WorkStep
    requires core { own.now.core < own.now.layout.cores }
    requires cores { own.now.layout.cores ≤ 8 }
    ensures { result ≡ comps_in own.now live range.now table.now pages.now frame target.now }
{
    let act = if has_frame(range, frame) && frame.number() < own.layout.frames() {
        let frame = FrameNo::new(frame.number());
        Act::MakeComp {
            making: CompMaking {
                frame,
                table: table.frame(),
                pages: pages.frame(),
                number: live,
                core: own.core,
                cores: own.layout.cores(),
                epochs: own.epochs,
                fill: fill_of(target, Cap::new(Kind::Comp, frame, 0)),
                at: CompAt::Load,
            },
        }
    } else {
        outside(target)
    };
    let quiet = Quiet::entry(stamp_in(&target.value), own.core, own.layout.cores());
    scans(own.core, quiet, &act)
}

/// A frame of this range is mapped in the target, with these flags. Flags past their range never come.
#[inline]
pub(crate) fn maps_at(
    own: &Own,
    range: &Option<Cap>,
    frame: FrameArg,
    flags: PageFlags,
    target: &Option<Found>,
) -> WorkStep
    requires core { own.now.core < own.now.layout.cores }
    requires cores { own.now.layout.cores ≤ 8 }
    ensures { result ≡ maps_at own.now range.now frame flags target.now }
{
    match (range, target) {
        (Some(range), Some(target)) => {
            if flags.number() < 4 {
                maps_in(own, range, frame, flags, target)
            } else {
                refuse(Refusal::Raced)
            }
        }
        _ => refuse(Refusal::Raced),
    }
}

// A frame is mapped, where the range has it, after a scan where the target is quiescing.
#[inline]
fn maps_in(own: &Own, range: &Cap, frame: FrameArg, flags: PageFlags, target: &Found) -> WorkStep
    requires core { own.now.core < own.now.layout.cores }
    requires cores { own.now.layout.cores ≤ 8 }
    requires flags { flags.0 < 4 }
    ensures { result ≡ maps_in own.now range.now frame flags target.now }
{
    let act = if has_frame(range, frame) && frame.number() < own.layout.frames() {
        let frame = FrameNo::new(frame.number());
        Act::Map {
            fill: fill_of(
                target,
                Cap::new(Kind::Page, frame, u32::from(flags.number())),
            ),
        }
    } else {
        outside(target)
    };
    let quiet = Quiet::page(stamp_in(&target.value), own.core, own.layout.cores());
    scans(own.core, quiet, &act)
}

/// A part of this range is put at the target.
#[inline]
pub(crate) fn parts_at(
    own: &Own,
    range: &Option<Cap>,
    frame: FrameArg,
    count: u16,
    target: &Option<Found>,
) -> WorkStep
    requires core { own.now.core < own.now.layout.cores }
    requires cores { own.now.layout.cores ≤ 8 }
    ensures { result ≡ parts_at own.now range.now frame count target.now }
{
    match (range, target) {
        (Some(range), Some(target)) => parts_in(own, range, frame, count, target),
        _ => refuse(Refusal::Raced),
    }
}

// The range of these frames is put there, where this range has them, after a scan where the target is quiescing.
#[inline]
fn parts_in(own: &Own, range: &Cap, frame: FrameArg, count: u16, target: &Found) -> WorkStep
    requires core { own.now.core < own.now.layout.cores }
    requires cores { own.now.layout.cores ≤ 8 }
    ensures { result ≡ parts_in own.now range.now frame count target.now }
{
    let act = if has_frames(range, frame, count) && frame.number() < own.layout.frames() {
        let part = range.part(FrameNo::new(frame.number()), count);
        Act::Fill {
            fill: fill_of(target, part),
        }
    } else {
        outside(target)
    };
    let quiet = Quiet::entry(stamp_in(&target.value), own.core, own.layout.cores());
    scans(own.core, quiet, &act)
}

/// What the target holds is removed.
#[inline]
pub(crate) fn removes_at(core: CoreNo, target: &Option<Found>) -> WorkStep
    ensures { result ≡ removes_at core target.now }
{
    match target {
        None => refuse(Refusal::Raced),
        Some(target) => removes_held(core, target),
    }
}

// What this place holds is removed.
#[inline]
fn removes_held(core: CoreNo, target: &Found) -> WorkStep
    ensures { result ≡ removes_held core target.now target.now.value }
{
    match target.value {
        Entry::Held(cap) => {
            let close = Close::new(target.node, target.entry, target.word, core);
            let act = Act::Remove { close, cap };
            WorkStep::Goes {
                work: next_work(core, 0, &act),
            }
        }
        _ => refuse(Refusal::Raced),
    }
}

/// Whether a range has a frame.
#[inline]
pub(crate) fn has_frame(range: &Cap, frame: FrameArg) -> bool
    ensures { result ≡ has_frame (named_by_cap range.now) frame }
{
    let first = u32::from(range.frame().number());
    let number = u32::from(frame.number());
    first <= number && number < first + range.arg()
}

// Whether a range has these frames, and they are some.
#[inline]
fn has_frames(range: &Cap, frame: FrameArg, count: u16) -> bool
    ensures { result ≡ has_frames (named_by_cap range.now) frame count }
{
    let first = u32::from(range.frame().number());
    let number = u32::from(frame.number());
    1 <= count && first <= number && number + u32::from(count) <= first + range.arg()
}
