//! The calls of a core, drawn one after another.

use crate::draws::Draws;
use crate::names::{Role, draw_any, draw_cap, draw_entry, draw_frame, draw_live, draw_role};
use spk_nums::{Call, CapId, CoreNo, EntryNo, FrameKind, Make, PageFlags, PageNo, Rights};

// Draws a table or pages, and the role of a leaf of it.
fn draw_root(draws: &mut Draws) -> (CapId, Role) {
    if draws.is_one_in(2) {
        return (draw_cap(draws, Role::Table), Role::Leaf);
    }
    (draw_cap(draws, Role::Pages), Role::Pleaf)
}

// Draws a root entry; the first, by which the core finds its own capabilities, is none of them.
fn draw_root_entry(draws: &mut Draws) -> EntryNo {
    EntryNo::new(1 + draws.below(3))
}

// Draws a page, mostly one of the leaf that the scripts link.
fn draw_page(draws: &mut Draws) -> PageNo {
    if draws.is_one_in(4) {
        return PageNo::new(draws.below(256));
    }
    PageNo::new(draws.below(12))
}

// Draws the rights of a copy: mostly both.
fn draw_rights(draws: &mut Draws) -> Rights {
    if draws.is_one_in(4) {
        return Rights::of_bits(draws.below(4) as u8);
    }
    Rights::both()
}

fn draw_kind(draws: &mut Draws) -> FrameKind {
    match draws.below(6) {
        0 | 1 => FrameKind::User,
        2 => FrameKind::Untyped,
        _ => FrameKind::Kernel,
    }
}

fn retype(draws: &mut Draws, core: CoreNo) -> Call {
    let r = draw_cap(draws, Role::Range);
    let f = draw_frame(draws, core);
    let k = draw_kind(draws);
    Call::Retype { r, f, k }
}

// Draws an object to make, and its role.
fn draw_object(draws: &mut Draws, core: CoreNo) -> (Make, Role) {
    match draws.below(9) {
        0 => (Make::Table, Role::Table),
        1 => (Make::Leaf, Role::Leaf),
        2 => (Make::Pages, Role::Pages),
        3 => (Make::Pleaf, Role::Pleaf),
        4 => {
            let comp = draw_cap(draws, Role::Comp);
            (Make::Thread { comp }, Role::Thread)
        }
        5 => {
            let quality = 1 + u32::from(draws.below(2));
            (Make::Tcap { sched: 0, quality }, Role::Tcap)
        }
        _ => {
            let table = draw_cap(draws, Role::Table);
            let pages = draw_cap(draws, Role::Pages);
            let live = draw_live(draws, core);
            (Make::Comp { table, pages, live }, Role::Comp)
        }
    }
}

fn make(draws: &mut Draws, core: CoreNo) -> Call {
    let (what, role) = draw_object(draws, core);
    let range = draw_cap(draws, Role::Range);
    let frame = draw_frame(draws, core);
    let table = draw_cap(draws, Role::Table);
    let slot = draw_entry(draws, role);
    Call::Make {
        what,
        range,
        frame,
        table,
        slot,
    }
}

fn part(draws: &mut Draws, core: CoreNo) -> Call {
    let r = draw_cap(draws, Role::Range);
    let f = draw_frame(draws, core);
    let n = draws.below(12);
    let t = draw_cap(draws, Role::Table);
    let b = draw_entry(draws, Role::Range);
    Call::Part { r, f, n, t, b }
}

// Copies a capability to an entry of its role. A component is one that a call has made, so that few calls end the core's own life.
fn copy(draws: &mut Draws) -> Call {
    let role = draw_role(draws);
    let a = match role {
        Role::Comp => draw_entry(draws, role),
        _ => draw_cap(draws, role),
    };
    let t = draw_cap(draws, Role::Table);
    let b = draw_entry(draws, role);
    let rights = draw_rights(draws);
    Call::Copy { a, t, b, rights }
}

fn remove(draws: &mut Draws) -> Call {
    let t = draw_cap(draws, Role::Table);
    let role = draw_role(draws);
    let b = draw_entry(draws, role);
    Call::Remove { t, b }
}

fn grow(draws: &mut Draws) -> Call {
    let (t, leaf) = draw_root(draws);
    let i = draw_root_entry(draws);
    let l = draw_cap(draws, leaf);
    Call::Grow { t, i, l }
}

fn shrink(draws: &mut Draws) -> Call {
    let (t, _) = draw_root(draws);
    let i = draw_root_entry(draws);
    Call::Shrink { t, i }
}

fn map(draws: &mut Draws, core: CoreNo) -> Call {
    let p = draw_cap(draws, Role::Pages);
    let v = draw_page(draws);
    let r = draw_cap(draws, Role::Range);
    let f = draw_frame(draws, core);
    let w = PageFlags::of_bits(draws.below(4) as u8);
    Call::Map { p, v, r, f, w }
}

fn unmap(draws: &mut Draws) -> Call {
    let p = draw_cap(draws, Role::Pages);
    let v = draw_page(draws);
    Call::Unmap { p, v }
}

fn gate(draws: &mut Draws) -> Call {
    let c = draw_cap(draws, Role::Comp);
    let t = draw_cap(draws, Role::Table);
    let b = draw_entry(draws, Role::Gate);
    Call::Gate { c, t, b }
}

fn switch(draws: &mut Draws) -> Call {
    let h = draw_cap(draws, Role::Thread);
    let q = draw_cap(draws, Role::Tcap);
    Call::Switch { h, q }
}

fn time(draws: &mut Draws) -> Call {
    let a = draw_cap(draws, Role::Tcap);
    let b = draw_cap(draws, Role::Tcap);
    let m = u32::from(draws.below(500));
    match draws.below(5) {
        0 => Call::Tick { n: m },
        1 => Call::Transfer { a, b, m },
        2 => Call::Delegate { a, b, m },
        3 => Call::Replenish { a, m },
        _ => Call::Test { a, b },
    }
}

// A call that changes what the core has, by its number.
fn change(draws: &mut Draws, core: CoreNo, number: u16) -> Call {
    match number {
        0 | 1 | 2 | 3 | 4 | 5 => retype(draws, core),
        6 | 7 | 8 | 9 | 10 | 11 => make(draws, core),
        12 => part(draws, core),
        13 | 14 => copy(draws),
        15 | 16 | 17 => remove(draws),
        18 => grow(draws),
        19 => shrink(draws),
        20 | 21 => map(draws, core),
        22 => unmap(draws),
        _ => gate(draws),
    }
}

/// Draws a call of a core.
pub fn draw_call(draws: &mut Draws, core: CoreNo) -> Call {
    let number = draws.below(33);
    match number {
        24 => Call::Look { a: draw_any(draws) },
        25 => Call::Touch {
            v: draw_page(draws),
        },
        26 => Call::Flush,
        27 => Call::Kill {
            c: draw_entry(draws, Role::Comp),
        },
        28 => Call::Call {
            g: draw_entry(draws, Role::Gate),
        },
        29 => Call::Ret,
        30 => switch(draws),
        31 | 32 => time(draws),
        _ => change(draws, core, number),
    }
}
