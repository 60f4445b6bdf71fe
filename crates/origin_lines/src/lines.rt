//! The line of a chain.

ghost use Rattle.std.specs.Prelude.{◌≡◌, ◌++◌, OnOk, Some, string_bytes, codes};
ghost use Rattle.std.specs.List.{flat_map};
ghost use Rattle.origin_lines.specs.Lines.{step_word, link_text, place_text, start_text, chain_line};

use confinement::{Chain, ChainLink, Step};
use spk_nums::{Cap, EntryNo, FrameNo};
use std::alloc::AllocError;

fn step_word(what: Step) -> &'static str
    ensures { result.now ≡ step_word what }
{
    match what {
        Step::Copied => "copy",
        Step::Made => "make",
        Step::Gated => "gate",
        Step::Parted => "part",
    }
}

// Appends a decision and its word.
fn push_word(text: &mut String, decision: u32, word: &str) -> Result<(), AllocError>
    ensures { OnOk result (string_bytes text.new ≡ string_bytes text.old ++ link_words decision word.now) }
{
    write!(text, " < {decision} {word}")
}

// Appends a link.
fn push_link(text: &mut String, link: &ChainLink) -> Result<(), AllocError>
    ensures { OnOk result (string_bytes text.new ≡ string_bytes text.old ++ link_text link.now) }
{
    push_word(text, link.decision, step_word(link.what))
}

// Appends the links of a chain.
fn push_links(text: &mut String, links: &[ChainLink]) -> Result<(), AllocError>
    ensures { OnOk result (string_bytes text.new ≡ string_bytes text.old ++ flat_map link_text links.now) }
{
    'links: for link in links {
        push_link(text, link)?;
    }
    Ok(())
}

// Appends a place and what it holds.
fn push_place(text: &mut String, node: FrameNo, entry: EntryNo, cap: &Cap) -> Result<(), AllocError>
    ensures { OnOk result (string_bytes text.new ≡ string_bytes text.old ++ place_text node entry cap.now) }
{
    write!(text, "{node} {entry} {cap}")
}

// Appends the index of the capability of the start.
fn push_start(text: &mut String, start: u8) -> Result<(), AllocError>
    ensures { OnOk result (string_bytes text.new ≡ string_bytes text.old ++ start_text start) }
{
    write!(text, " < start {start}\n")
}

/// Appends the line of the capability that a place holds.
fn push_chain(
    text: &mut String,
    node: FrameNo,
    entry: EntryNo,
    chain: &Chain,
) -> Result<(), AllocError>
    ensures { OnOk result (string_bytes text.new ≡ string_bytes text.old ++ chain_line node entry (Some chain.now)) }
{
    push_place(text, node, entry, &chain.cap)?;
    push_links(text, &chain.links)?;
    push_start(text, chain.start)
}

/// Appends the line of a place, if it holds a capability.
pub fn push_line(
    text: &mut String,
    node: FrameNo,
    entry: EntryNo,
    chain: &Option<Chain>,
) -> Result<(), AllocError>
    ensures { OnOk result (string_bytes text.new ≡ string_bytes text.old ++ chain_line node entry chain.now) }
{
    match chain {
        None => Ok(()),
        Some(chain) => push_chain(text, node, entry, chain),
    }
}

ghost use Rattle.origin_lines.specs.Lines.{link_words};
