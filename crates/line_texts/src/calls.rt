//! Calls.

ghost use Rattle.std.specs.Prelude.{◌≡◌, ◌++◌, OnOk, string_bytes};
ghost use Rattle.spk_nums.specs.Texts.{call_text, site_text};

use crate::numbers::{push_four_numbers, push_one, push_pair, push_spaced, push_triple};
use spk_nums::{Call, CapId, FrameArg, FrameKind, Make, Rights, frame_kind_name};
use std::alloc::AllocError;

#[inline]
fn of(number: CapId) -> u32
    ensures { result ≡ number }
{
    u32::from(number.number())
}

fn push_retype(
    text: &mut String,
    range: CapId,
    frame: FrameArg,
    kind: FrameKind,
) -> Result<(), AllocError>
    ensures { OnOk result (string_bytes text.new ≡ string_bytes text.old ++ call_text (Call.Retype range frame kind)) }
{
    push_pair(text, "retype", of(range), u32::from(frame.number()))?;
    text.push(' ')?;
    text.push_str(frame_kind_name(kind))
}

// A copy, with its rights where they are not both.
fn push_copy(
    text: &mut String,
    a: CapId,
    t: CapId,
    b: CapId,
    kept: Rights,
) -> Result<(), AllocError>
    ensures { OnOk result (string_bytes text.new ≡ string_bytes text.old ++ call_text (Call.Copy a t b kept)) }
{
    let rights = kept.number();
    if rights == 3 {
        push_triple(text, "copy", of(a), of(t), of(b))
    } else {
        push_triple(text, "copy", of(a), of(t), of(b))?;
        push_spaced(text, u32::from(rights))
    }
}

// Where a make puts its object: a range, a frame, a table and a slot.
#[derive(Clone, Copy)]
struct Site {
    range: CapId,
    frame: FrameArg,
    table: CapId,
    slot: CapId,
}

#[inline]
fn push_site(text: &mut String, word: &'static str, site: Site) -> Result<(), AllocError>
    ensures { OnOk result (string_bytes text.new ≡ string_bytes text.old
        ++ (word.now ++ site_text site.range site.frame site.table site.slot)) }
{
    text.push_str(word)?;
    push_four_numbers(
        text,
        of(site.range),
        u32::from(site.frame.number()),
        of(site.table),
        of(site.slot),
    )
}

fn push_thread(text: &mut String, site: Site, comp: CapId) -> Result<(), AllocError>
    ensures { OnOk result (string_bytes text.new ≡ string_bytes text.old
        ++ call_text (Call.Make (Make.Thread comp) site.range site.frame site.table site.slot)) }
{
    push_site(text, "make thread ", site)?;
    push_spaced(text, of(comp))?;
    Ok(())
}

fn push_make(text: &mut String, what: &Make, site: Site) -> Result<(), AllocError>
    ensures { OnOk result (string_bytes text.new ≡ string_bytes text.old
        ++ call_text (Call.Make what.now site.range site.frame site.table site.slot)) }
{
    match *what {
        Make::Table => push_site(text, "make table ", site),
        Make::Leaf => push_site(text, "make leaf ", site),
        Make::Pages => push_site(text, "make pages ", site),
        Make::Pleaf => push_site(text, "make pleaf ", site),
        Make::Thread { comp } => push_thread(text, site, comp),
        Make::Tcap { sched, quality } => {
            push_site(text, "make tcap ", site)?;
            push_spaced(text, u32::from(sched))?;
            push_spaced(text, quality)
        }
        Make::Comp { table, pages, live } => {
            push_site(text, "make comp ", site)?;
            push_spaced(text, of(table))?;
            push_spaced(text, of(pages))?;
            push_spaced(text, u32::from(live))
        }
    }
}

/// Appends a call as it is written: its word, then its arguments.
pub fn push_call(text: &mut String, call: &Call) -> Result<(), AllocError>
    ensures { OnOk result (string_bytes text.new ≡ string_bytes text.old ++ call_text call.now) }
{
    match *call {
        Call::Look { a } => push_one(text, "look", of(a)),
        Call::Copy { a, t, b, rights } => push_copy(text, a, t, b, rights),
        Call::Remove { t, b } => push_pair(text, "remove", of(t), of(b)),
        Call::Grow { t, i, l } => { push_triple(text, "grow", of(t), u32::from(i.number()), of(l)) }
        Call::Shrink { t, i } => push_pair(text, "shrink", of(t), u32::from(i.number())),
        Call::Retype { r, f, k } => push_retype(text, r, f, k),
        Call::Make {
            what,
            range,
            frame,
            table,
            slot,
        } => push_make(
            text,
            &what,
            Site {
                range,
                frame,
                table,
                slot,
            },
        ),
        Call::Map { p, v, r, f, w } => {
            push_triple(text, "map", of(p), u32::from(v.number()), of(r))?;
            push_spaced(text, u32::from(f.number()))?;
            push_spaced(text, u32::from(w.number()))
        }
        Call::Unmap { p, v } => push_pair(text, "unmap", of(p), u32::from(v.number())),
        Call::Touch { v } => push_one(text, "touch", u32::from(v.number())),
        Call::Flush => text.push_str("flush"),
        Call::Gate { c, t, b } => push_triple(text, "gate", of(c), of(t), of(b)),
        Call::Kill { c } => push_one(text, "kill", of(c)),
        Call::Call { g } => push_one(text, "call", of(g)),
        Call::Ret => text.push_str("ret"),
        Call::Switch { h, q } => push_pair(text, "switch", of(h), of(q)),
        Call::Tick { n } => push_one(text, "tick", n),
        Call::Transfer { a, b, m } => push_triple(text, "transfer", of(a), of(b), m),
        Call::Delegate { a, b, m } => push_triple(text, "delegate", of(a), of(b), m),
        Call::Test { a, b } => push_pair(text, "test", of(a), of(b)),
        Call::Part { r, f, n, t, b } => {
            push_triple(text, "part", of(r), u32::from(f.number()), u32::from(n))?;
            push_spaced(text, of(t))?;
            push_spaced(text, of(b))
        }
        Call::Replenish { a, m } => push_pair(text, "replenish", of(a), m),
    }
}
