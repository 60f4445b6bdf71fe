//! A call's word, and its printed text.

ghost use Rattle.std.specs.Prelude.{◌≡◌, Some};
ghost use Rattle.spk_nums.specs.Texts.{call_text, site_text};
ghost use Rattle.spk_nums.specs.Verbs.{said, call_word};
ghost use Rattle.spk_nums.specs.declared.calls.Call.TheVariants as call;

use crate::calls::{Call, Make};
use crate::names::frame_kind_name;
use crate::numbers::{CapId, FrameArg};
use crate::rights::Rights;
use crate::verbs::{Verb, verb_name};
use std::fmt;

impl Call {
    /// The word that the call begins with.
    pub fn verb(&self) -> Verb
        ensures { result ≡ (said self.now).verb }
    {
        match self {
            Call::Look { a: _ } => Verb::Look,
            Call::Copy {
                a: _,
                t: _,
                b: _,
                rights: _,
            } => Verb::Copy,
            Call::Remove { t: _, b: _ } => Verb::Remove,
            Call::Grow { t: _, i: _, l: _ } => Verb::Grow,
            Call::Shrink { t: _, i: _ } => Verb::Shrink,
            Call::Retype { r: _, f: _, k: _ } => Verb::Retype,
            Call::Make {
                what: _,
                range: _,
                frame: _,
                table: _,
                slot: _,
            } => Verb::Make,
            Call::Map {
                p: _,
                v: _,
                r: _,
                f: _,
                w: _,
            } => Verb::Map,
            Call::Unmap { p: _, v: _ } => Verb::Unmap,
            Call::Touch { v: _ } => Verb::Touch,
            Call::Flush => Verb::Flush,
            Call::Gate { c: _, t: _, b: _ } => Verb::Gate,
            Call::Kill { c: _ } => Verb::Kill,
            Call::Call { g: _ } => Verb::Call,
            Call::Ret => Verb::Ret,
            Call::Switch { h: _, q: _ } => Verb::Switch,
            Call::Tick { n: _ } => Verb::Tick,
            Call::Transfer { a: _, b: _, m: _ } => Verb::Transfer,
            Call::Delegate { a: _, b: _, m: _ } => Verb::Delegate,
            Call::Test { a: _, b: _ } => Verb::Test,
            Call::Part {
                r: _,
                f: _,
                n: _,
                t: _,
                b: _,
            } => Verb::Part,
            Call::Replenish { a: _, m: _ } => Verb::Replenish,
        }
    }
}

/// The word that a call begins with, as it is spelled.
pub fn call_name(call: &Call) -> &'static str
    ensures { result.now ≡ call_word call.now }
{
    verb_name(call.verb())
}

impl fmt::Display for Call {
    ghost output = { λ c. Some (call_text c) };

    fn fmt<W: fmt::Write>(&self, f: &mut fmt::Formatter<W>) -> fmt::Result {
        match self {
            Call::Look { a } => write!(f, "look {a}"),
            Call::Copy { a, t, b, rights } => {
                let copied = Copying {
                    a: *a,
                    t: *t,
                    b: *b,
                    rights: *rights,
                };
                write!(f, "{copied}")
            }
            Call::Remove { t, b } => write!(f, "remove {t} {b}"),
            Call::Grow { t, i, l } => write!(f, "grow {t} {i} {l}"),
            Call::Shrink { t, i } => write!(f, "shrink {t} {i}"),
            Call::Retype { r, f: frame, k } => {
                let kind = frame_kind_name(*k);
                write!(f, "retype {r} {frame} {kind}")
            }
            Call::Make {
                what,
                range,
                frame,
                table,
                slot,
            } => {
                let made = Making {
                    what,
                    site: Site {
                        range: *range,
                        frame: *frame,
                        table: *table,
                        slot: *slot,
                    },
                };
                write!(f, "{made}")
            }
            Call::Map {
                p,
                v,
                r,
                f: frame,
                w,
            } => {
                let flags = w.number();
                write!(f, "map {p} {v} {r} {frame} {flags}")
            }
            Call::Unmap { p, v } => write!(f, "unmap {p} {v}"),
            Call::Touch { v } => write!(f, "touch {v}"),
            Call::Flush => write!(f, "flush"),
            Call::Gate { c, t, b } => write!(f, "gate {c} {t} {b}"),
            Call::Kill { c } => write!(f, "kill {c}"),
            Call::Call { g } => write!(f, "call {g}"),
            Call::Ret => write!(f, "ret"),
            Call::Switch { h, q } => write!(f, "switch {h} {q}"),
            Call::Tick { n } => write!(f, "tick {n}"),
            Call::Transfer { a, b, m } => write!(f, "transfer {a} {b} {m}"),
            Call::Delegate { a, b, m } => write!(f, "delegate {a} {b} {m}"),
            Call::Test { a, b } => write!(f, "test {a} {b}"),
            Call::Part {
                r,
                f: frame,
                n,
                t,
                b,
            } => write!(f, "part {r} {frame} {n} {t} {b}"),
            Call::Replenish { a, m } => write!(f, "replenish {a} {m}"),
        }
    }
}

/// A copy with its arguments, to be printed: the rights where they are not both.
#[derive(Clone, Copy)]
struct Copying {
    a: CapId,
    t: CapId,
    b: CapId,
    rights: Rights,
}

impl fmt::Display for Copying {
    ghost output = { λ c. Some (call_text (call.Copy c.a c.t c.b c.rights)) };

    fn fmt<W: fmt::Write>(&self, f: &mut fmt::Formatter<W>) -> fmt::Result {
        let a = self.a;
        let t = self.t;
        let b = self.b;
        let rights = self.rights.number();
        if rights == 3 {
            write!(f, "copy {a} {t} {b}")
        } else {
            write!(f, "copy {a} {t} {b} {rights}")
        }
    }
}

/// Where a make puts its object, to be printed: the range, the frame, the table and the slot.
#[derive(Clone, Copy)]
struct Site {
    range: CapId,
    frame: FrameArg,
    table: CapId,
    slot: CapId,
}

impl fmt::Display for Site {
    ghost output = { λ s. Some (site_text s.range s.frame s.table s.slot) };

    fn fmt<W: fmt::Write>(&self, f: &mut fmt::Formatter<W>) -> fmt::Result {
        let range = self.range;
        let frame = self.frame;
        let table = self.table;
        let slot = self.slot;
        write!(f, "{range} {frame} {table} {slot}")
    }
}

/// A make with its arguments, to be printed.
#[derive(Clone, Copy)]
struct Making<'a> {
    what: &'a Make,
    site: Site,
}

impl<'a> fmt::Display for Making<'a> {
    ghost output = { λ m. Some (call_text (call.Make m.what.now m.site.range m.site.frame m.site.table m.site.slot)) };

    fn fmt<W: fmt::Write>(&self, f: &mut fmt::Formatter<W>) -> fmt::Result {
        let site = &self.site;
        match self.what {
            Make::Table => write!(f, "make table {site}"),
            Make::Leaf => write!(f, "make leaf {site}"),
            Make::Pages => write!(f, "make pages {site}"),
            Make::Pleaf => write!(f, "make pleaf {site}"),
            Make::Thread { comp } => write!(f, "make thread {site} {comp}"),
            Make::Tcap { sched, quality } => write!(f, "make tcap {site} {sched} {quality}"),
            Make::Comp { table, pages, live } => write!(
                f,
                "make comp {site} {table} {pages} {live}"
            ),
        }
    }
}
