//! Calls on two temporal capabilities.

ghost use Rattle.std.specs.Prelude.{◌<◌};
ghost use Rattle.stage_tcap.specs.Pairs.{PairFits};

use crate::steps::{compares, loads, stores};
use spk_nums::{CoreNo, EntryNo, FrameNo, Reply, StageEnd, Value, WordOp};
use stage_tcap::{Pair, PairAt, PairWork};
use word_map::Layout;

// Heads of the version 1 with the budget 100, also with core 0's mark; with 7 ticks less and with 7 more, and that in the
// version 2. Words of lists with the pairs (0, 1), (0, 2) and (1, 5).
const HEAD: u64 = 0x10_0000_0064;

const MARKED: u64 = 0x11_0000_0064;

const LESS: u64 = 0x10_0000_005d;

const MORE: u64 = 0x10_0000_006b;

const MORE_NEXT: u64 = 0x20_0000_006b;

const GOOD: u64 = 1;

const WORSE: u64 = 2;

const OTHER: u64 = 0x100_0005;

// Takes a list whose first word is this, and whose other words have no pair.
fn take_list(pair: &mut Pair, layout: &Layout, first: u64)
    requires { PairFits layout.now pair.old }
    ensures { PairFits layout.now pair.new }
{
    pair.take(layout, first);
    pair.take(layout, 0);
    pair.take(layout, 0);
    pair.take(layout, 0);
    pair.take(layout, 0);
    pair.take(layout, 0);
    pair.take(layout, 0);
    pair.take(layout, 0);
}

// A call of core 0 on the frames 6 and 7, up to the deciding step; their first words are at 384 and 448.
fn read(what: PairWork, layout: &Layout, a: u64, b: u64) -> Pair
    requires { 7 < layout.now.frames }
    ensures { PairFits layout.now result }
{
    let mut pair = Pair::new(FrameNo::new(6), FrameNo::new(7), what, CoreNo::new(0));
    pair.take(layout, HEAD);
    pair.take(layout, HEAD);
    take_list(&mut pair, layout, a);
    pair.take(layout, HEAD);
    take_list(&mut pair, layout, b);
    pair
}

// A step, the word that it finds, and what that leads to.
type Row = (WordOp, u64, StageEnd<Value>);

// Whether these are the next steps of a call.
fn goes(pair: &mut Pair, layout: &Layout, rows: &[Row]) -> bool
    requires { PairFits layout.now pair.old }
{
    'rows: for row in rows {
        if pair.next(layout) != row.0 || pair.take(layout, row.1) != row.2 {
            return false;
        }
    }
    true
}

fn ok() -> StageEnd<Value> {
    StageEnd::Decided(Reply::Ok(Value::Nothing))
}

// Gives head A back, and is done with this.
fn back(value: Value) -> Row {
    (stores(384, HEAD), HEAD, StageEnd::Done(value))
}

#[test]
fn moves_ticks_between_equal_lists(rt: HostRuntime) {
    let compare = compares(448, HEAD, MORE);
    let less = (stores(384, LESS), LESS, StageEnd::Done(Value::Nothing));
    let raced = StageEnd::Decided(Reply::Raced);
    if let Some(layout) = Layout::new(1, 8) {
        let pair = read(PairWork::Transfer(7), &layout, GOOD, GOOD);
        let mut moved = pair;
        assert!(rt; goes(&mut moved, &layout, &[(compare, HEAD, ok()), less]));
        let mut lost = pair;
        let rows = [(compare, MORE, raced), back(Value::Nothing)];
        assert!(rt; goes(&mut lost, &layout, &rows));
    }
}

#[test]
fn passes_words_without_a_pair(rt: HostRuntime) {
    if let Some(layout) = Layout::new(1, 8) {
        let what = PairWork::Test;
        let mut pair = Pair::new(FrameNo::new(6), FrameNo::new(7), what, CoreNo::new(0));
        assert!(rt; !pair.passes(&layout, 0));
        pair.at = PairAt::ListA {
            entry: EntryNo::new(8),
        };
        assert!(rt; !pair.passes(&layout, GOOD));
        assert!(rt; pair.passes(&layout, 0));
        assert!(rt; pair.at == PairAt::LoadB);
        pair.at = PairAt::ListB {
            entry: EntryNo::new(7),
        };
        assert!(rt; pair.passes(&layout, 0));
        assert!(rt; !pair.passes(&layout, 0));
        assert!(rt; pair.next(&layout) == loads(456));
    }
}

// Stores a word without a pair.
fn blank(at: u32) -> Row {
    (stores(at, 0), 0, StageEnd::Going)
}

// Marks head B.
fn marks_b() -> Row {
    (compares(448, HEAD, MARKED), HEAD, ok())
}

// Stores head A with 7 ticks less, and is done.
fn takes_from_a() -> Row {
    (stores(384, LESS), LESS, StageEnd::Done(Value::Nothing))
}

#[test]
fn raises_the_version_with_the_list_alone(rt: HostRuntime) {
    let grown = [
        marks_b(),
        (stores(449, GOOD), GOOD, StageEnd::Going),
        (stores(450, OTHER), OTHER, StageEnd::Going),
        blank(451),
        blank(452),
        blank(453),
        blank(454),
        blank(455),
        blank(456),
        (stores(448, MORE_NEXT), MORE_NEXT, StageEnd::Going),
        takes_from_a(),
    ];
    let alike = [
        marks_b(),
        (stores(449, WORSE), WORSE, StageEnd::Going),
        blank(450),
        blank(451),
        blank(452),
        blank(453),
        blank(454),
        blank(455),
        blank(456),
        (stores(448, MORE), MORE, StageEnd::Going),
        takes_from_a(),
    ];
    if let Some(layout) = Layout::new(1, 8) {
        let mut pair = read(PairWork::Delegate(7), &layout, GOOD, OTHER);
        assert!(rt; goes(&mut pair, &layout, &grown));
        let mut same = read(PairWork::Delegate(7), &layout, GOOD, WORSE);
        assert!(rt; goes(&mut same, &layout, &alike));
    }
}

#[test]
fn tells_whether_a_preempts_b(rt: HostRuntime) {
    let preempts = StageEnd::Decided(Reply::Ok(Value::Preempts));
    let rows = [(loads(448), HEAD, preempts), back(Value::Preempts)];
    if let Some(layout) = Layout::new(1, 8) {
        let mut pair = read(PairWork::Test, &layout, GOOD, WORSE);
        assert!(rt; goes(&mut pair, &layout, &rows));
    }
}

#[test]
fn refuses_and_gives_head_a_back(rt: HostRuntime) {
    let unlike = StageEnd::Decided(Reply::Unlike);
    let short = StageEnd::Decided(Reply::Short(100));
    let rows = [
        (loads(384), HEAD, StageEnd::Going),
        (compares(384, HEAD, MARKED), HEAD, short),
        back(Value::Nothing),
    ];
    if let Some(layout) = Layout::new(1, 8) {
        let mut pair = read(PairWork::Transfer(7), &layout, GOOD, WORSE);
        assert!(rt; goes(&mut pair, &layout, &[(loads(448), HEAD, unlike)]));
        let what = PairWork::Transfer(101);
        let mut pair = Pair::new(FrameNo::new(6), FrameNo::new(7), what, CoreNo::new(0));
        assert!(rt; goes(&mut pair, &layout, &rows));
    }
}
