//! Lists and an order, as a picture of one page.
ghost use Rattle.std.specs.Prelude.{◌≡◌, ◌<◌, IfOk, All, map, length, string_bytes};
ghost use Rattle.told_run.specs.lone_kernel.specs.Machine.{AreLists};
ghost use Rattle.draw_run.specs.GivenDrawing.{GivenDrawing};

use crate::drawing::Drawing;
use spk_nums::{Call, Item, Memory, Setup};
use std::alloc::Global;
use told_run::watch;

/// Takes the items of the order, then runs each core out, as `replay` does, and answers the picture of this page of the trace that this
/// makes, as the text of an SVG image; pages count from 1. There is a list for each core, each of fewer than 2^32 calls that are within their limits; it fails only where
/// memory runs out.
pub fn draw(
    alloc: Global,
    page: u32,
    setup: &Setup,
    lists: Vec<Vec<Call>>,
    items: &[Item],
) -> Result<String, Memory>
    requires can_run { AreLists (map (λ v. v.items) lists.items) }
    requires one_each { length lists.items ≡ setup.now.cores }
    requires named { All (λ item. item.core < setup.now.cores) items.now }
    ensures { IfOk result (λ text. GivenDrawing page setup.now (map (λ v. v.items) lists.items) items.now (string_bytes text)) }
{
    let mut drawing = Drawing::begin(alloc, page, setup)?;
    watch(alloc, setup, lists, items, &mut drawing)?;
    let text = drawing.into_text(alloc)?;
    Ok(text)
}
