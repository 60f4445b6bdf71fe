//! Tables as what is other than in those of a start.
//!
//! A block is a line and those indented after it. In the section a block stands for that of the start which begins with the same two
//! words, where `live` and `dead` are one: its first line takes the place of the other, and its further lines, if it has any, do so too. A
//! block that the start does not have is put in its place, frames first, then numbers, cores and the total. `frame 1 adds` has lines
//! that a block of the start has at its end besides, and `frame 1 lacks` lines that it does not have.

use crate::fault::Fault;
use crate::texts::at;
use std::alloc::Global;

#[derive(Drop)]
struct Block {
    place: u32,
    head: String,
    lines: Vec<String>,
}

// Where a block of this first line stands among the others; none where it is no such line.
fn place_of(head: &str) -> Option<u32> {
    let mut words = head.split_whitespace();
    let kind = words.next()?;
    let number = words.next()?.parse::<u32>().ok()?;
    match kind {
        "frame" => Some(number.min(99_999)),
        "live" | "dead" => Some(number.min(99_999).wrapping_add(100_000)),
        "core" => Some(number.min(99_999).wrapping_add(200_000)),
        "total" => Some(300_000),
        _ => None,
    }
}

fn blocks_of(alloc: Global, text: &str) -> Result<Vec<Block>, Fault> {
    let mut blocks: Vec<Block> = Vec::new(alloc);
    for line in text.lines() {
        if line.starts_with("  ") {
            match blocks.last_mut() {
                Some(block) => {
                    let line = String::from_str(alloc, line)?;
                    block.lines.push(line)?;
                }
                None => return at(alloc, line),
            }
        } else {
            match place_of(line) {
                Some(place) => {
                    let head = String::from_str(alloc, line)?;
                    blocks.push(Block {
                        place,
                        head,
                        lines: Vec::new(alloc),
                    })?;
                }
                None => return at(alloc, line),
            }
        }
    }
    Ok(blocks)
}

// Changes a block of the start by one of the section, which is of the same place.
fn change(alloc: Global, block: &mut Block, other: Block) -> Result<(), Fault> {
    let Block { head, lines, .. } = other;
    if head.ends_with(" adds") {
        for line in lines {
            block.lines.push(line)?;
        }
    } else if head.ends_with(" lacks") {
        for line in &lines {
            let before = block.lines.len();
            block.lines.retain(|kept| kept.as_str() != line.as_str());
            if block.lines.len() == before {
                return at(alloc, line);
            }
        }
    } else {
        block.head = head;
        if !lines.is_empty() {
            block.lines = lines;
        }
    }
    Ok(())
}

// Takes a block of the section into those of the start.
fn take_in(alloc: Global, blocks: &mut Vec<Block>, other: Block) -> Result<(), Fault> {
    let place = other.place;
    match blocks.iter_mut().find(|block| block.place == place) {
        Some(block) => change(alloc, block, other),
        None => {
            blocks.push(other)?;
            Ok(())
        }
    }
}

/// The tables of a start with what is other in them.
pub fn changed(alloc: Global, start: &str, others: &str) -> Result<String, Fault> {
    let mut blocks = blocks_of(alloc, start)?;
    for other in blocks_of(alloc, others)? {
        take_in(alloc, &mut blocks, other)?;
    }
    blocks.sort_by_key(|block| block.place)?;
    let mut text = String::new(alloc);
    for block in &blocks {
        text.push_str(&block.head)?;
        text.push('\n')?;
        for line in &block.lines {
            text.push_str(line)?;
            text.push('\n')?;
        }
    }
    Ok(text)
}
