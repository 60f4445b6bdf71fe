//! The lines of an order of steps: `order`, and the items, ten a line.

ghost use Rattle.std.specs.Prelude.{◌≡◌, ◌++◌, OnOk, string_bytes};
ghost use Rattle.script_printer.specs.Printing.{how_text, item_text, before_item, items_text, order_lines};

use line_texts::push_number;
use spk_nums::{How, Item};
use std::alloc::AllocError;

// The items of a line.
const LINE: usize = 10;

fn how_text(how: How) -> &'static str
    ensures { result.now ≡ how_text how }
{
    match how {
        How::One => "",
        How::Ready => "<",
        How::Decide => "!",
        How::Return => ".",
    }
}

fn before_item(at: usize) -> &'static str
    ensures { result.now ≡ before_item at }
{
    if at % LINE == 0 { "\n" } else { " " }
}

// Appends the item at a place of the order, and what stands before it.
fn push_item(text: &mut String, at: usize, item: &Item) -> Result<(), AllocError>
    ensures { OnOk result (string_bytes text.new ≡ string_bytes text.old ++ (before_item at ++ item_text item.now)) }
{
    text.push_str(before_item(at))?;
    push_number(text, u32::from(item.core.number()))?;
    text.push_str(how_text(item.how))
}

fn push_items(text: &mut String, order: &[Item]) -> Result<(), AllocError>
    ensures { OnOk result (string_bytes text.new ≡ string_bytes text.old ++ items_text 0 order.now) }
{
    'items: for at in 0..order.len() {
        push_item(text, at, &order[at])?;
    }
    Ok(())
}

/// Appends the lines of an order of steps; none where it has no items.
pub fn push_order(text: &mut String, order: &[Item]) -> Result<(), AllocError>
    ensures { OnOk result (string_bytes text.new ≡ string_bytes text.old ++ order_lines order.now) }
{
    if order.is_empty() {
        return Ok(());
    }
    text.push_str("order")?;
    push_items(text, order)?;
    text.push_str("\n")
}
