//! What the calls of a core name: capabilities, frames and liveness numbers, drawn one after another.
//!
//! The scripts of `data/` leave each core the same capabilities of its own under the same numbers. What a call makes goes to one of four
//! entries that are for its kind, so that a later call often finds what it asks for.

ghost use Rattle.std.specs.Prelude.{◌<◌};

use crate::draws::Draws;
use spk_nums::{CapId, CoreNo, FrameArg};

/// The first frame of core 1's; those below are core 0's.
pub const FIRST_OTHER: u16 = 40;

// How many frames are in the range of each core, the first of core 0's, and how many frames are named in all, of which some are none.
const FRAMES: u16 = 32;

const FIRST: u16 = 8;

const ALL_FRAMES: u16 = 80;

/// What a capability is for.
#[derive(Clone, Copy, PartialEq, Eq, Debug)]
pub enum Role {
    Range,
    Table,
    Leaf,
    Pages,
    Pleaf,
    Comp,
    Thread,
    Tcap,
    Gate,
}

/// Draws a role.
pub fn draw_role(draws: &mut Draws) -> Role {
    match draws.below(9) {
        0 => Role::Range,
        1 => Role::Table,
        2 => Role::Leaf,
        3 => Role::Pages,
        4 => Role::Pleaf,
        5 => Role::Comp,
        6 => Role::Thread,
        7 => Role::Tcap,
        _ => Role::Gate,
    }
}

// The first entry for a role.
fn first_entry(role: Role) -> u16 {
    match role {
        Role::Range => 20,
        Role::Table => 24,
        Role::Leaf => 28,
        Role::Pages => 32,
        Role::Pleaf => 36,
        Role::Comp => 40,
        Role::Thread => 44,
        Role::Tcap => 48,
        Role::Gate => 52,
    }
}

/// Draws an entry for a role.
pub fn draw_entry(draws: &mut Draws, role: Role) -> CapId {
    CapId::new(first_entry(role).saturating_add(draws.below(4)))
}

// Draws a capability that the core has of its own from the start. It has no gate.
fn draw_first(draws: &mut Draws, role: Role) -> CapId {
    match role {
        Role::Range => CapId::new(0),
        Role::Table => CapId::new(1),
        Role::Leaf => CapId::new(6),
        Role::Pages => CapId::new(2),
        Role::Pleaf => CapId::new(7),
        Role::Comp => CapId::new(3),
        Role::Thread => CapId::new(4 + draws.below(2)),
        Role::Tcap => CapId::new(12 + draws.below(2)),
        Role::Gate => draw_entry(draws, role),
    }
}

/// Draws a number that may be any.
pub fn draw_any(draws: &mut Draws) -> CapId {
    CapId::new(draws.below(256))
}

/// Draws a capability for a role; now and then its number may be any.
pub fn draw_cap(draws: &mut Draws, role: Role) -> CapId {
    if draws.is_one_in(32) {
        return draw_any(draws);
    }
    if draws.is_one_in(4) {
        return draw_entry(draws, role);
    }
    draw_first(draws, role)
}

/// Draws a frame of the core's range; now and then any, also one of the other core's.
pub fn draw_frame(draws: &mut Draws, core: CoreNo) -> FrameArg {
    if draws.is_one_in(8) {
        return FrameArg::new(draws.below(ALL_FRAMES));
    }
    let first = if core.number() == 0 {
        FIRST
    } else {
        FIRST_OTHER
    };
    FrameArg::new(first + draws.below(FRAMES))
}

/// Draws a liveness number of the core's: an even one for core 0, else an odd one.
pub fn draw_live(draws: &mut Draws, core: CoreNo) -> u8 {
    let half = draws.below(6);
    let odd = if core.number() == 0 { 0 } else { 1 };
    (2 * half + odd) as u8
}
