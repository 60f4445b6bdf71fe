//! The bars of calls.

ghost use Rattle.std.specs.Prelude.{◌≡◌, ◌++◌, OnOk, string_bytes};
ghost use Rattle.picture_shapes.specs.Bars.{bar_at, bar_begin, bar_end, bar_name_begin, edge, upper_teeth, lower_teeth};

use crate::frame::lane_x;
use std::alloc::AllocError;

#[tactic(auto, unfolding(crate::specs::Bars::bar_at))]
fn begin_bar_at(text: &mut String, x: u32, y: u32, height: u32) -> Result<(), AllocError>
    ensures { OnOk result (string_bytes text.new ≡ string_bytes text.old ++ bar_at x y height) }
{
    write!(
        text,
        "<rect x='{x}' y='{y}' width='38' height='{height}' rx='3' class='bar'><title>"
    )
}

/// Begins a core's bar from one height to another; the words of its title come next.
pub fn begin_bar(text: &mut String, core: u8, top: u32, end: u32) -> Result<(), AllocError>
    ensures { OnOk result (string_bytes text.new ≡ string_bytes text.old ++ bar_begin core top end) }
{
    begin_bar_at(text, lane_x(core), top, end.saturating_sub(top))
}

/// Ends a bar.
#[tactic(auto, unfolding(crate::specs::Bars::bar_end))]
pub fn end_bar(text: &mut String) -> Result<(), AllocError>
    ensures { OnOk result (string_bytes text.new ≡ string_bytes text.old ++ bar_end) }
{
    text.push_str("</title></rect>\n")
}

/// Begins the name of a core's bar, at this height; its words come next.
#[tactic(auto, unfolding(crate::specs::Bars::bar_name_begin))]
pub fn begin_bar_name(text: &mut String, core: u8, y: u32) -> Result<(), AllocError>
    ensures { OnOk result (string_bytes text.new ≡ string_bytes text.old ++ bar_name_begin core y) }
{
    let x = lane_x(core) + 22;
    write!(text, "<text x='{x}' y='{y}' class='s c'>")
}

/// Appends a piece of the edge of a core's bar, from the height of one step to that of another.
#[tactic(auto, unfolding(crate::specs::Bars::edge))]
pub fn push_edge(text: &mut String, core: u8, first: u16, last: u16) -> Result<(), AllocError>
    ensures { OnOk result (string_bytes text.new ≡ string_bytes text.old ++ edge core first last) }
{
    let x = lane_x(core);
    let height = u32::from(last).saturating_sub(u32::from(first)) + 2;
    write!(
        text,
        "<rect x='{x}' y='{first}' width='7' height='{height}' class='run'/>\n"
    )
}

/// Appends the teeth of a core's bar that begins before the page.
#[tactic(auto, unfolding(crate::specs::Bars::upper_teeth))]
pub fn push_upper_teeth(text: &mut String, core: u8) -> Result<(), AllocError>
    ensures { OnOk result (string_bytes text.new ≡ string_bytes text.old ++ upper_teeth core) }
{
    let x = lane_x(core) - 1;
    write!(
        text,
        "<path d='M{x} 140V146l5 5l5 -5l5 5l5 -5l5 5l5 -5l5 5l5 -5V140z' class='paper'/>\n"
    )
}

/// Appends the teeth of a core's bar that goes on after the last step of the page, which has this height.
#[tactic(auto, unfolding(crate::specs::Bars::lower_teeth))]
pub fn push_lower_teeth(text: &mut String, core: u8, y: u16) -> Result<(), AllocError>
    ensures { OnOk result (string_bytes text.new ≡ string_bytes text.old ++ lower_teeth core y) }
{
    let x = lane_x(core) - 1;
    let end = u32::from(y) + 16;
    let up = u32::from(y) + 10;
    write!(
        text,
        "<path d='M{x} {end}V{up}l5 -5l5 5l5 -5l5 5l5 -5l5 5l5 -5l5 5V{end}z' class='paper'/>\n"
    )
}
