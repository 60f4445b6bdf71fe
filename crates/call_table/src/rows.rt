//! The rows of the table: a call of each kind, how it is written, what its act does, and what it may answer.

use crate::formula::formula_of;
use crate::plan_words::{NameWords, step_words, target_words};
use call_plans::plan_of;
use spk_nums::{Call, CapId, EntryNo, FrameArg, FrameKind, Make, PageFlags, PageNo, Rights};
use std::fmt;

/// What stands above the rows.
pub const HEAD: &str =
    "# The calls\n\nA row for each call. A program of the repository, `crates/call_table`, prints this page: names, target, deciding step, counts and bound are computed from the plan that the step machine follows, and that the bound printed is the call's on every number of cores is proved there.\n\n- **Names**: the capabilities that are looked up, in this order, in the caller's own table, and the kind of each. Each takes two steps. **Target**: the place that is looked up after them, in two steps, or in one in a root.\n- **Act**: the steps after that, up to the exit.\n- **Decided at**: the step at which a call that is carried out takes effect. A refusal is decided at the first step by which it is known.\n- **Counts**: how many counts of references are acquired at most. Each takes two steps, and is committed by one store.\n- **Bound**: the most own steps on a machine of n cores, whatever other cores do: the three of entry and exit are among them, and, of every call but `ret`, `flush` and `tick`, the two loads right after the entry by which it asks whether its core's component lives.\n- **Refusals**: in the order in which they are judged. Besides, every call answers `calls-spent` where the core has made as many calls as its limit. Every call but `ret`, `flush` and `tick` then answers `dead` where the component in which its core works does not live, before all that its row lists. What each means is in [REPLIES.md](REPLIES.md).\n- **Beside these**: a call that loads a word under another core's mark answers `busy d`. A compare, and the second load of a word, that finds another value than before answers `raced`, marked or not. A `touch` whose translation is cached answers that; and a `flush` meets no mark.\n\n| Call | Names | Target | Act | Decided at | Counts | Bound | Refusals |\n|---|---|---|---|---|---|---|---|";

/// A row: a call, how such calls are written, the steps of its act, and what it answers beside `ok`.
#[derive(Clone, Copy)]
pub struct Row {
    pub call: Call,
    pub line: &'static str,
    pub act: &'static str,
    pub refusals: &'static str,
}

impl fmt::Display for Row {
    fn fmt<W: fmt::Write>(&self, f: &mut fmt::Formatter<W>) -> fmt::Result {
        let plan = plan_of(&self.call);
        let line = self.line;
        let names = NameWords { names: plan.names };
        let target = target_words(plan.target);
        let act = self.act;
        write!(f, "| `{line}` | {names} | {target} | {act} |")?;
        let decides = step_words(plan.decides);
        let pins = plan.pins;
        let bound = formula_of(&self.call);
        let refusals = self.refusals;
        write!(f, " {decides} | {pins} | {bound} | {refusals} |")
    }
}

fn cap(number: u16) -> CapId {
    CapId::new(number)
}

fn retype(k: FrameKind) -> Call {
    Call::Retype {
        r: cap(0),
        f: FrameArg::new(9),
        k,
    }
}

fn made(what: Make) -> Call {
    Call::Make {
        what,
        range: cap(0),
        frame: FrameArg::new(9),
        table: cap(1),
        slot: cap(20),
    }
}

fn row_of(call: Call, line: &'static str, act: &'static str, refusals: &'static str) -> Row {
    Row {
        call,
        line,
        act,
        refusals,
    }
}

/// The rows, in the order of the documents.
pub fn rows() -> [Row; 27] {
    [
        row_of(Call::Look { a: cap(0) }, "look A", "", "`no-slot`, `empty`"),
        row_of(
            Call::Copy {
                a: cap(0),
                t: cap(1),
                b: cap(20),
                rights: Rights::both(),
            },
            "copy A T B",
            "scan of the cores, the count acquired, compare of the target, commit",
            "`no-slot`, `empty`, `wrong-cap`, `no-right`, `occupied`, `quiescing e`, `raced`",
        ),
        row_of(
            Call::Remove {
                t: cap(1),
                b: cap(20),
            },
            "remove T B",
            "the count acquired, compare of the target, draw, store of the target, commit",
            "`no-slot`, `empty`, `wrong-cap`, `no-right`, `raced`",
        ),
        row_of(
            Call::Grow {
                t: cap(1),
                i: EntryNo::new(0),
                l: cap(20),
            },
            "grow T I L",
            "scan of the cores, of a page table also of the flushes, the count acquired, compare of the target, commit",
            "`no-slot`, `empty`, `wrong-cap`, `no-right`, `occupied`, `quiescing e`, `unflushed e`, `raced`",
        ),
        row_of(
            Call::Shrink {
                t: cap(1),
                i: EntryNo::new(0),
            },
            "shrink T I",
            "as `remove`",
            "`no-slot`, `empty`, `wrong-cap`, `no-right`, `raced`",
        ),
        row_of(
            retype(FrameKind::User),
            "retype R F user",
            "load and compare of the frame's word",
            "`no-slot`, `empty`, `wrong-cap`, `no-right`, `out-of-range`, `frame-kind`, `raced`",
        ),
        row_of(
            retype(FrameKind::Kernel),
            "retype R F kernel",
            "as to `user`",
            "as to `user`",
        ),
        row_of(
            retype(FrameKind::Untyped),
            "retype R F untyped",
            "load of the frame's word and compare that marks it; load and compare of each counter; scan of the cores, of a frame that translations reach also of the flushes. Loads of the object; the counts of what it names acquired; draw; commits, store of each counter, store of the frame's word",
            "`no-slot`, `empty`, `wrong-cap`, `no-right`, `out-of-range`, `frame-kind`, `referenced k`, `quiescing e`, `unflushed e`, `not-empty`, `raced`",
        ),
        row_of(
            made(Make::Table),
            "make O R F T B",
            "scan of the cores, load of the frame's word and compare that marks it, the count acquired, 64 stores, compare of the target, store of the frame's word, commit",
            "`no-slot`, `empty`, `wrong-cap`, `no-right`, `occupied`, `quiescing e`, `out-of-range`, `frame-kind`, `raced`",
        ),
        row_of(
            made(Make::Thread { comp: cap(3) }),
            "make thread R F T B C",
            "as a node, with two counts and 17 stores",
            "as a node",
        ),
        row_of(
            made(Make::Tcap {
                sched: 0,
                quality: 1,
            }),
            "make tcap R F T B S W",
            "as a node, with 9 stores",
            "as a node",
        ),
        row_of(
            made(Make::Comp {
                table: cap(1),
                pages: cap(2),
                live: 1,
            }),
            "make comp R F T B X P L",
            "as a node, with three counts; then load of the liveness number's word, scan of the cores for it, compare that closes it; 3 stores, compare of the target, store of the number's word, store of the frame's word, commits",
            "as a node, then for the number `occupied`, `quiescing e`, `epochs-spent`",
        ),
        row_of(
            Call::Map {
                p: cap(2),
                v: PageNo::new(0),
                r: cap(0),
                f: FrameArg::new(9),
                w: PageFlags::of_bits(1),
            },
            "map P V R F W",
            "scan of the cores and of the flushes, the count acquired, load of the frame's word, compare of the target, commit",
            "`no-slot`, `empty`, `wrong-cap`, `no-right`, `occupied`, `quiescing e`, `unflushed e`, `out-of-range`, `frame-kind`, `raced`",
        ),
        row_of(
            Call::Unmap {
                p: cap(2),
                v: PageNo::new(0),
            },
            "unmap P V",
            "as `remove`",
            "`no-slot`, `empty`, `wrong-cap`, `no-right`, `raced`",
        ),
        row_of(
            Call::Touch { v: PageNo::new(0) },
            "touch V",
            "",
            "`no-slot`, `fault`",
        ),
        row_of(
            Call::Flush,
            "flush",
            "load of the clock, store of the flush word",
            "",
        ),
        row_of(
            Call::Gate {
                c: cap(3),
                t: cap(1),
                b: cap(20),
            },
            "gate C T B",
            "before the target load of the component's word; then as `copy`",
            "`no-slot`, `empty`, `wrong-cap`, `no-right`, `occupied`, `quiescing e`, `raced`",
        ),
        row_of(
            Call::Kill { c: cap(3) },
            "kill C",
            "load of the component's word, load of the liveness number's word, the count acquired, compare that closes the number, draw, store of the dead number, commit",
            "`no-slot`, `empty`, `wrong-cap`, `no-right`, `dead`, `raced`",
        ),
        row_of(
            Call::Call { g: cap(20) },
            "call G",
            "loads of three words of the component, the count acquired, load of the liveness number's word, store of the stack, store of the thread's word, commit",
            "`no-slot`, `empty`, `wrong-cap`, `no-right`, `deep`, `dead`, `raced`",
        ),
        row_of(
            Call::Ret,
            "ret",
            "load of the stack below and of two words of the component there, the count of the top component acquired, draw, store of the thread's word, store of the stack, commit",
            "`bottom`, `raced`",
        ),
        row_of(
            Call::Switch {
                h: cap(4),
                q: cap(12),
            },
            "switch H Q",
            "load of the new thread's word and compare that claims it, load of its stack and of two words of its component, up to four counts acquired, store of the old thread as claimed, draw, store of the new thread as running and of the old as idle, commits",
            "`no-slot`, `empty`, `wrong-cap`, `no-right`, `running e`, `raced`",
        ),
        row_of(
            Call::Tick { n: 1 },
            "tick N",
            "load and compare of the head",
            "`raced`",
        ),
        row_of(
            Call::Transfer {
                a: cap(12),
                b: cap(13),
                m: 1,
            },
            "transfer A B M",
            "load of head A and compare that marks it, 8 loads of its list, load of head B, 8 loads of its list, compare of head B, store of head A",
            "`no-slot`, `empty`, `wrong-cap`, `no-right`, `same`, `short b`, `unlike`, `raced`",
        ),
        row_of(
            Call::Delegate {
                a: cap(12),
                b: cap(13),
                m: 1,
            },
            "delegate A B M",
            "as `transfer`, but the compare marks head B; then 8 stores of its list, store of head B, store of head A",
            "`no-slot`, `empty`, `wrong-cap`, `no-right`, `same`, `short b`, `too-many`, `raced`",
        ),
        row_of(
            Call::Test {
                a: cap(12),
                b: cap(13),
            },
            "test A B",
            "as `transfer`, but head B is loaded a second time in place of its compare",
            "`no-slot`, `empty`, `wrong-cap`, `no-right`, `same`, `raced`",
        ),
        row_of(
            Call::Part {
                r: cap(0),
                f: FrameArg::new(10),
                n: 4,
                t: cap(1),
                b: cap(20),
            },
            "part R F N T B",
            "scan of the cores, compare of the target",
            "`no-slot`, `empty`, `wrong-cap`, `no-right`, `occupied`, `quiescing e`, `out-of-range`, `raced`",
        ),
        row_of(
            Call::Replenish { a: cap(12), m: 1 },
            "replenish A M",
            "load of the head, 8 loads of its list, compare of the head",
            "`no-slot`, `empty`, `wrong-cap`, `no-right`, `unlike`, `short b`, `raced`",
        ),
    ]
}
