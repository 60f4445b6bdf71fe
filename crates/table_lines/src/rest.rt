//! The lines of liveness numbers, cores and ticks.

ghost use Rattle.std.specs.Prelude.{◌≡◌, ◌++◌, OnOk, string_bytes, codes};
ghost use Rattle.std.specs.List.{flat_map};
ghost use Rattle.kernel_history.specs.kernel_rules.specs.State.{Live, Dead};
ghost use Rattle.kernel_history.specs.Tables.{number, number_line, translation_line, back_words, core_lines, total_line};
ghost use Rattle.table_lines.specs.Ends.{core_shown};

use crate::sorting::ascending;
use spk_nums::{CoreEnd, FrameNo, Translation};
use std::alloc::{AllocError, Global};

/// Appends the line of a liveness number that is live in an epoch for the component in a frame.
pub fn push_live(
    text: &mut String,
    number: u8,
    epoch: u16,
    frame: FrameNo,
) -> Result<(), AllocError>
    ensures { OnOk result (string_bytes text.new ≡ string_bytes text.old ++ number_line number (Live epoch frame)) }
{
    write!(text, "live {number} epoch {epoch} frame {frame}\n")
}

/// Appends the line of a liveness number that is dead after an epoch.
pub fn push_dead(text: &mut String, number: u8, epoch: u16) -> Result<(), AllocError>
    ensures { OnOk result (string_bytes text.new ≡ string_bytes text.old ++ number_line number (Dead epoch)) }
{
    write!(text, "dead {number} epoch {epoch}\n")
}

fn push_translation(text: &mut String, item: &Translation) -> Result<(), AllocError>
    ensures { OnOk result (string_bytes text.new ≡ string_bytes text.old ++ translation_line item.now) }
{
    let pages = item.pages;
    let page = item.page;
    let frame = item.frame;
    let flags = item.flags.number();
    write!(text, "  cached {pages} {page} {frame} {flags}\n")
}

fn push_translations(text: &mut String, items: &[Translation]) -> Result<(), AllocError>
    ensures { OnOk result (string_bytes text.new ≡ string_bytes text.old ++ flat_map translation_line items.now) }
{
    for item in items {
        push_translation(text, item)?;
    }
    Ok(())
}

// Appends the first half of a core's line.
fn push_names(text: &mut String, core: usize, end: &CoreEnd) -> Result<(), AllocError>
    ensures { OnOk result (string_bytes text.new ≡ string_bytes text.old
        ++ (codes "core" ++ (number core ++ (codes " thread" ++ (number end.now.thread ++ (codes " tcap" ++ number end.now.tcap)))))) }
{
    let thread = end.thread;
    let tcap = end.tcap;
    write!(text, "core {core} thread {thread} tcap {tcap}")
}

// Appends the second half of a core's line.
fn push_times(text: &mut String, end: &CoreEnd) -> Result<(), AllocError>
    ensures { OnOk result (string_bytes text.new ≡ string_bytes text.old
        ++ (codes " comp" ++ (number end.now.comp
        ++ (codes " spent" ++ (number end.now.spent ++ (codes " owed" ++ number end.now.owed)))))) }
{
    let comp = end.comp;
    let spent = end.spent;
    let owed = end.owed;
    write!(text, " comp {comp} spent {spent} owed {owed}")
}

// Ends a core's line: with what it has had back, where that is something.
fn push_back(text: &mut String, back: u64) -> Result<(), AllocError>
    ensures { OnOk result (string_bytes text.new ≡ string_bytes text.old ++ (back_words back ++ codes "\n")) }
{
    if back == 0 {
        write!(text, "\n")
    } else {
        write!(text, " back {back}\n")
    }
}

/// Appends the line of a core, and those of its translations, ascending by page root, then by page.
pub fn push_core(
    alloc: Global,
    text: &mut String,
    core: usize,
    end: &CoreEnd,
) -> Result<(), AllocError>
    ensures { OnOk result (string_bytes text.new ≡ string_bytes text.old ++ core_lines core (core_shown end.now) end.now.comp) }
{
    let sorted = ascending(alloc, &end.cached)?;
    push_names(text, core, end)?;
    push_times(text, end)?;
    push_back(text, end.back)?;
    push_translations(text, &sorted)
}

/// Appends the line of all ticks.
pub fn push_total(text: &mut String, total: u128) -> Result<(), AllocError>
    ensures { OnOk result (string_bytes text.new ≡ string_bytes text.old ++ total_line total) }
{
    write!(text, "total {total}\n")
}
