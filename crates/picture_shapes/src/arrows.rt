//! Arrows.

ghost use Rattle.std.specs.Prelude.{◌≡◌, ◌≤◌, ◌++◌, OnOk, string_bytes};
ghost use Rattle.picture_shapes.specs.Arrows.{arrow_style, head_style, tip_x, before_tip, tail_x, head_shape};
ghost use Rattle.picture_shapes.specs.Arrows.{line_from, line_to, bent_line, disc_at, level_line, head_at};
ghost use Rattle.picture_shapes.specs.Arrows.{arrow_begin, line_path, tail_disc, short_path, arrow_head, arrow_end, line_arrow};
ghost use Rattle.picture_shapes.specs.Arrows.{short_arrow};

use crate::frame::lane_x;
use std::alloc::AllocError;

/// How an arrow looks: whether it tells of a race, and whether it goes to the right.
#[derive(Clone, Copy)]
pub struct Look {
    pub race: bool,
    pub right: bool,
}

/// A step of a core, at a height.
#[derive(Clone, Copy)]
pub struct Spot {
    pub core: u8,
    pub y: u16,
}

// A place, in pixels.
#[derive(Clone, Copy)]
struct At {
    x: u32,
    y: u32,
}

fn arrow_style(race: bool) -> &'static str
    ensures { result.now ≡ arrow_style race }
{
    if race { "race" } else { "flow" }
}

fn head_style(race: bool) -> &'static str
    ensures { result.now ≡ head_style race }
{
    if race { "raceh" } else { "flowh" }
}

fn head_shape(right: bool) -> &'static str
    ensures { result.now ≡ head_shape right }
{
    if right { "l-8 -4v8z" } else { "l8 -4v8z" }
}

fn tip_x(right: bool, core: u8) -> u32
    ensures { result ≡ tip_x right core }
{
    if right {
        lane_x(core)
    } else {
        lane_x(core) + 38
    }
}

fn before_tip(right: bool, core: u8, n: u32) -> u32
    requires { n ≤ 24 }
    ensures { result ≡ before_tip right core n }
{
    if right {
        lane_x(core) - n
    } else {
        lane_x(core) + 38 + n
    }
}

fn tail_x(right: bool, core: u8) -> u32
    ensures { result ≡ tail_x right core }
{
    if right {
        lane_x(core) + 38
    } else {
        lane_x(core)
    }
}

/// Begins an arrow; the words of its title come next.
#[tactic(auto, unfolding(crate::specs::Arrows::arrow_begin))]
pub fn begin_arrow(text: &mut String) -> Result<(), AllocError>
    ensures { OnOk result (string_bytes text.new ≡ string_bytes text.old ++ arrow_begin) }
{
    text.push_str("<g><title>")
}

#[tactic(auto, unfolding(crate::specs::Arrows::line_from))]
fn push_line_from(text: &mut String, from: At) -> Result<(), AllocError>
    ensures { OnOk result (string_bytes text.new ≡ string_bytes text.old ++ line_from from.x from.y) }
{
    let At { x, y } = from;
    write!(text, "</title><path d='M{x} {y}")
}

#[tactic(auto, unfolding(crate::specs::Arrows::line_to))]
fn push_line_to(text: &mut String, style: &'static str, to: At, near: u32) -> Result<(), AllocError>
    ensures { OnOk result (string_bytes text.new ≡ string_bytes text.old ++ line_to style.now to.x to.y near) }
{
    let At { x, y } = to;
    write!(text, "L{x} {y}H{near}' class='{style}'/>")
}

fn push_bent_line(
    text: &mut String,
    style: &'static str,
    from: At,
    to: At,
    near: u32,
) -> Result<(), AllocError>
    ensures { OnOk result (string_bytes text.new ≡ string_bytes text.old ++ bent_line style.now from.x from.y to.x to.y near) }
{
    push_line_from(text, from)?;
    push_line_to(text, style, to, near)
}

#[tactic(auto, unfolding(crate::specs::Arrows::disc_at))]
fn push_disc_at(text: &mut String, style: &'static str, at: At) -> Result<(), AllocError>
    ensures { OnOk result (string_bytes text.new ≡ string_bytes text.old ++ disc_at style.now at.x at.y) }
{
    let At { x, y } = at;
    write!(text, "<circle cx='{x}' cy='{y}' r='2' class='{style}'/>")
}

#[tactic(auto, unfolding(crate::specs::Arrows::level_line))]
fn push_level_line(
    text: &mut String,
    style: &'static str,
    from: At,
    near: u32,
) -> Result<(), AllocError>
    ensures { OnOk result (string_bytes text.new ≡ string_bytes text.old ++ level_line style.now from.x from.y near) }
{
    let At { x, y } = from;
    write!(text, "</title><path d='M{x} {y}H{near}' class='{style}'/>")
}

#[tactic(auto, unfolding(crate::specs::Arrows::head_at))]
fn push_head_at(
    text: &mut String,
    style: &'static str,
    shape: &'static str,
    at: At,
) -> Result<(), AllocError>
    ensures { OnOk result (string_bytes text.new ≡ string_bytes text.old ++ head_at style.now shape.now at.x at.y) }
{
    let At { x, y } = at;
    write!(text, "<path d='M{x} {y}{shape}' class='{style}'/>")
}

// Appends the line of an arrow from one step to another.
fn push_line_path(text: &mut String, look: Look, from: Spot, to: Spot) -> Result<(), AllocError>
    ensures { OnOk result (string_bytes text.new ≡ string_bytes text.old
        ++ line_path look.race look.right from.core from.y to.core to.y) }
{
    push_bent_line(
        text,
        arrow_style(look.race),
        At {
            x: tail_x(look.right, from.core),
            y: u32::from(from.y) + 1,
        },
        At {
            x: before_tip(look.right, to.core, 16),
            y: u32::from(to.y) + 1,
        },
        before_tip(look.right, to.core, 8),
    )
}

fn push_tail_disc(text: &mut String, look: Look, from: Spot) -> Result<(), AllocError>
    ensures { OnOk result (string_bytes text.new ≡ string_bytes text.old ++ tail_disc look.race look.right from.core from.y) }
{
    push_disc_at(
        text,
        head_style(look.race),
        At {
            x: tail_x(look.right, from.core),
            y: u32::from(from.y) + 1,
        },
    )
}

fn push_short_path(text: &mut String, look: Look, to: Spot) -> Result<(), AllocError>
    ensures { OnOk result (string_bytes text.new ≡ string_bytes text.old ++ short_path look.race look.right to.core to.y) }
{
    push_level_line(
        text,
        arrow_style(look.race),
        At {
            x: before_tip(look.right, to.core, 24),
            y: u32::from(to.y) + 1,
        },
        before_tip(look.right, to.core, 8),
    )
}

fn push_head(text: &mut String, look: Look, to: Spot) -> Result<(), AllocError>
    ensures { OnOk result (string_bytes text.new ≡ string_bytes text.old ++ arrow_head look.race look.right to.core to.y) }
{
    push_head_at(
        text,
        head_style(look.race),
        head_shape(look.right),
        At {
            x: tip_x(look.right, to.core),
            y: u32::from(to.y) + 1,
        },
    )
}

#[tactic(auto, unfolding(crate::specs::Arrows::arrow_end))]
fn end_arrow(text: &mut String) -> Result<(), AllocError>
    ensures { OnOk result (string_bytes text.new ≡ string_bytes text.old ++ arrow_end) }
{
    text.push_str("</g>\n")
}

/// Ends an arrow that is a line, from one step to another.
pub fn end_line(text: &mut String, look: Look, from: Spot, to: Spot) -> Result<(), AllocError>
    ensures { OnOk result (string_bytes text.new ≡ string_bytes text.old
        ++ line_arrow look.race look.right from.core from.y to.core to.y) }
{
    push_line_path(text, look, from, to)?;
    push_tail_disc(text, look, from)?;
    push_head(text, look, to)?;
    end_arrow(text)
}

/// Ends a short arrow to a step.
pub fn end_short(text: &mut String, look: Look, to: Spot) -> Result<(), AllocError>
    ensures { OnOk result (string_bytes text.new ≡ string_bytes text.old ++ short_arrow look.race look.right to.core to.y) }
{
    push_short_path(text, look, to)?;
    push_head(text, look, to)?;
    end_arrow(text)
}
