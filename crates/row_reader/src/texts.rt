//! The lines of a section.
//!
//! **Many lines**: `{A..B} LINE` is the line once for each number from A to the one before B, in which `{n}` stands for the number; so
//! are `{A..B from M} LINE`, in which `{m}` counts from M, and both with several lines, parted by ` / `.
//!
//! **Bytes of scripts**: `\n`, `\r`, `\t` and `\xHH`, two hexadecimal digits; a `\` at the end of a line takes its end away.

use crate::fault::Fault;
use std::alloc::{AllocError, Global};

/// The text in which this value stands for `{NAME}`.
pub fn replaced(alloc: Global, text: &str, name: &str, value: &str) -> Result<String, AllocError> {
    let mut pattern = String::from_str(alloc, "{")?;
    pattern.push_str(name)?;
    pattern.push('}')?;
    text.replace(alloc, pattern.as_str(), value)
}

/// The fault of a line.
pub fn at<T>(alloc: Global, line: &str) -> Result<T, Fault> {
    Err(Fault::Line(String::from_str(alloc, line)?))
}

/// The number that a word is.
pub fn number(alloc: Global, word: &str) -> Result<u32, Fault> {
    match word.parse::<u32>() {
        Ok(number) => Ok(number),
        Err(_) => at(alloc, word),
    }
}

// The lines for which a line with a count stands.
fn add_repeated(alloc: Global, text: &mut String, count: &str, lines: &str) -> Result<(), Fault> {
    let (range, other) = count.split_once(" from ").unwrap_or((count, "0"));
    let Some((from, to)) = range.split_once("..") else {
        return at(alloc, count);
    };
    let mut second = number(alloc, other)?;
    for first in number(alloc, from)?..number(alloc, to)? {
        for line in lines.split(" / ") {
            let number = first.to_string(alloc)?;
            let line = replaced(alloc, line, "n", &number)?;
            let number = second.to_string(alloc)?;
            let line = replaced(alloc, &line, "m", &number)?;
            text.push_str(&line)?;
            text.push('\n')?;
        }
        second = second.wrapping_add(1);
    }
    Ok(())
}

/// The lines of a section, each of those that stand for many written out.
pub fn lines_of(alloc: Global, body: &str) -> Result<String, Fault> {
    let mut text = String::new(alloc);
    for line in body.lines() {
        match line.strip_prefix("{") {
            Some(rest) => match rest.split_once("} ") {
                Some((count, lines)) => add_repeated(alloc, &mut text, count, lines)?,
                None => return at(alloc, line),
            },
            None => {
                text.push_str(line)?;
                text.push('\n')?;
            }
        }
    }
    if text.contains("{") {
        return at(alloc, &text);
    }
    Ok(text)
}

// How far a byte of a script is read.
#[derive(Clone, Copy)]
enum Reading {
    Plain,
    Slash,
    Digits,
    Digit { high: u8 },
}

// The value of a hexadecimal digit, in capitals.
fn digit(byte: u8) -> u8 {
    match byte {
        b'0'..=b'9' => byte.wrapping_sub(b'0'),
        _ => byte.wrapping_sub(b'A').wrapping_add(10),
    }
}

/// The bytes for which the lines of a script stand.
pub fn bytes_of(alloc: Global, text: &str) -> Result<Vec<u8>, Fault> {
    let mut bytes = Vec::new(alloc);
    let mut reading = Reading::Plain;
    for byte in text.bytes() {
        let (next, read) = match (reading, byte) {
            (Reading::Plain, b'\\') => (Reading::Slash, None),
            (Reading::Plain, _) => (Reading::Plain, Some(byte)),
            (Reading::Slash, b'x') => (Reading::Digits, None),
            (Reading::Slash, b'n') => (Reading::Plain, Some(b'\n')),
            (Reading::Slash, b'r') => (Reading::Plain, Some(b'\r')),
            (Reading::Slash, b't') => (Reading::Plain, Some(b'\t')),
            (Reading::Slash, b'\n') => (Reading::Plain, None),
            (Reading::Slash, _) => return at(alloc, text),
            (Reading::Digits, _) => (Reading::Digit { high: digit(byte) }, None),
            (Reading::Digit { high }, _) => (
                Reading::Plain,
                Some(high.wrapping_mul(16).wrapping_add(digit(byte))),
            ),
        };
        reading = next;
        if let Some(byte) = read {
            bytes.push(byte)?;
        }
    }
    Ok(bytes)
}
