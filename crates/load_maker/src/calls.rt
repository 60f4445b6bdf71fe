//! The calls of a script, drawn one after another: the number of a call, then its arguments from left to right.

ghost use Rattle.std.specs.Prelude.{◌≡◌};
ghost use Rattle.load_maker.specs.Draws.{below};
ghost use Rattle.load_maker.specs.Loads.{a_call, a_copy, a_frame, a_look, a_make, a_map, a_remove, a_retype, a_slot, a_tcap};
ghost use Rattle.load_maker.specs.Loads.{a_test, a_tick, a_touch, a_transfer, an_unmap, call_numbered, kind_numbered};

use crate::draws::Draws;
use spk_nums::{Call, CapId, FrameArg, FrameKind, Make, PageFlags, PageNo, Rights};

// The capabilities that the calls name: the range of all free frames, the table, and the pages.
const RANGE: u16 = 0;

const TABLE: u16 = 1;

const PAGES: u16 = 2;

fn slot(draws: &mut Draws) -> CapId
    ensures value { result ≡ (a_slot draws.old.at).0 }
    ensures goes_on { draws.new.at ≡ (a_slot draws.old.at).1 }
{
    CapId::new(20 + draws.below(44))
}

fn frame(draws: &mut Draws) -> FrameArg
    ensures value { result ≡ (a_frame draws.old.at).0 }
    ensures goes_on { draws.new.at ≡ (a_frame draws.old.at).1 }
{
    FrameArg::new(12 + draws.below(20))
}

fn tcap(draws: &mut Draws) -> CapId
    ensures value { result ≡ (a_tcap draws.old.at).0 }
    ensures goes_on { draws.new.at ≡ (a_tcap draws.old.at).1 }
{
    CapId::new(12 + draws.below(4))
}

fn page(draws: &mut Draws) -> PageNo
    ensures value { result ≡ (below 64 draws.old.at).0 }
    ensures goes_on { draws.new.at ≡ (below 64 draws.old.at).1 }
{
    PageNo::new(draws.below(64))
}

fn kind_numbered(number: u16) -> FrameKind
    ensures { result ≡ kind_numbered number }
{
    match number {
        0 => FrameKind::Untyped,
        1 => FrameKind::User,
        _ => FrameKind::Kernel,
    }
}

fn look(draws: &mut Draws) -> Call
    ensures value { result ≡ (a_look draws.old.at).0 }
    ensures goes_on { draws.new.at ≡ (a_look draws.old.at).1 }
{
    Call::Look {
        a: CapId::new(draws.below(128)),
    }
}

fn copy(draws: &mut Draws) -> Call
    ensures value { result ≡ (a_copy draws.old.at).0 }
    ensures goes_on { draws.new.at ≡ (a_copy draws.old.at).1 }
{
    let a = CapId::new(draws.below(32));
    let b = slot(draws);
    Call::Copy {
        a,
        t: CapId::new(TABLE),
        b,
        rights: Rights::both(),
    }
}

fn remove(draws: &mut Draws) -> Call
    ensures value { result ≡ (a_remove draws.old.at).0 }
    ensures goes_on { draws.new.at ≡ (a_remove draws.old.at).1 }
{
    Call::Remove {
        t: CapId::new(TABLE),
        b: slot(draws),
    }
}

fn retype(draws: &mut Draws) -> Call
    ensures value { result ≡ (a_retype draws.old.at).0 }
    ensures goes_on { draws.new.at ≡ (a_retype draws.old.at).1 }
{
    let f = frame(draws);
    let k = kind_numbered(draws.below(3));
    Call::Retype {
        r: CapId::new(RANGE),
        f,
        k,
    }
}

fn make(draws: &mut Draws) -> Call
    ensures value { result ≡ (a_make draws.old.at).0 }
    ensures goes_on { draws.new.at ≡ (a_make draws.old.at).1 }
{
    let frame = frame(draws);
    let slot = slot(draws);
    Call::Make {
        what: Make::Leaf,
        range: CapId::new(RANGE),
        frame,
        table: CapId::new(TABLE),
        slot,
    }
}

fn map(draws: &mut Draws) -> Call
    ensures value { result ≡ (a_map draws.old.at).0 }
    ensures goes_on { draws.new.at ≡ (a_map draws.old.at).1 }
{
    let v = page(draws);
    let f = frame(draws);
    let w = PageFlags::of_bits(draws.below(4) as u8);
    Call::Map {
        p: CapId::new(PAGES),
        v,
        r: CapId::new(RANGE),
        f,
        w,
    }
}

fn unmap(draws: &mut Draws) -> Call
    ensures value { result ≡ (an_unmap draws.old.at).0 }
    ensures goes_on { draws.new.at ≡ (an_unmap draws.old.at).1 }
{
    Call::Unmap {
        p: CapId::new(PAGES),
        v: page(draws),
    }
}

fn touch(draws: &mut Draws) -> Call
    ensures value { result ≡ (a_touch draws.old.at).0 }
    ensures goes_on { draws.new.at ≡ (a_touch draws.old.at).1 }
{
    Call::Touch { v: page(draws) }
}

fn tick(draws: &mut Draws) -> Call
    ensures value { result ≡ (a_tick draws.old.at).0 }
    ensures goes_on { draws.new.at ≡ (a_tick draws.old.at).1 }
{
    Call::Tick {
        n: u32::from(draws.below(50)),
    }
}

fn transfer(draws: &mut Draws) -> Call
    ensures value { result ≡ (a_transfer draws.old.at).0 }
    ensures goes_on { draws.new.at ≡ (a_transfer draws.old.at).1 }
{
    let a = tcap(draws);
    let b = tcap(draws);
    let m = u32::from(draws.below(100));
    Call::Transfer { a, b, m }
}

fn test(draws: &mut Draws) -> Call
    ensures value { result ≡ (a_test draws.old.at).0 }
    ensures goes_on { draws.new.at ≡ (a_test draws.old.at).1 }
{
    let a = tcap(draws);
    let b = tcap(draws);
    Call::Test { a, b }
}

fn call_numbered(number: u16, draws: &mut Draws) -> Call
    ensures value { result ≡ (call_numbered number draws.old.at).0 }
    ensures goes_on { draws.new.at ≡ (call_numbered number draws.old.at).1 }
{
    match number {
        0 => look(draws),
        1 => copy(draws),
        2 => remove(draws),
        3 => retype(draws),
        4 => make(draws),
        5 => map(draws),
        6 => unmap(draws),
        7 => touch(draws),
        8 => tick(draws),
        9 => transfer(draws),
        10 => Call::Flush,
        _ => test(draws),
    }
}

/// Draws a call.
#[tactic(auto, unfolding(crate::specs::Loads::a_call))]
pub fn draw_call(draws: &mut Draws) -> Call
    ensures value { result ≡ (a_call draws.old.at).0 }
    ensures goes_on { draws.new.at ≡ (a_call draws.old.at).1 }
{
    let number = draws.below(12);
    call_numbered(number, draws)
}
