//! One pass over the bytes of a script.
//!
//! The pass keeps the line, the word that the byte before belongs to, and how many words stood in
//! the lines that are over. A byte that may not stand in a script, or a line past the last that may
//! be, ends it: the words of that line are dropped, since the line counts as not read. A byte of a word,
//! and a blank, may stand in every line that is read; they are told first, since most bytes are one of these.

ghost use Rattle.std.specs.Prelude.{◌≡◌, ◌<◌, ◌≤◌, ◌^◌, ◌+◌, ◌++◌, length, All, IfOk, IfErr, OnOk, map, count_by, slice_get};
ghost use Rattle.std.specs.Option.{ForSome};
ghost use Rattle.script_tokens.specs.Bytes.{is_feed};
ghost use Rattle.script_tokens.specs.Words.{views, words_of, ending_of, line_count, first_fault, Ascend, IsFault, FewLines};
ghost use Rattle.script_tokens.specs.Scanning.{span_of, IsSlice, place_after, within_word, after_blank, word_before, last_word};
ghost use Rattle.script_tokens.specs.Scanning.{ended, line_after, whole_after, fault_at, is_fault};

use crate::bytes::{is_allowed, is_word_byte};
use crate::token::Token;
use std::alloc::{AllocError, Global};

/// The most lines of a script.
pub const MOST_LINES: u32 = 20_000;

/// The first thing that keeps bytes from being cut into words, in the order of the lines. In one line
/// the number of the line is judged before its bytes.
#[derive(Clone, Copy, Debug, PartialEq, Eq)]
pub enum ByteFault {
    /// A byte that may not stand in a script, in this line: not a tab, a line feed, a carriage return
    /// directly before a line feed, or 32 to 126.
    NotAscii { line: u32 },
    /// A line 20,001.
    TooManyLines,
}

/// Why the bytes of a script were not cut into words.
#[derive(Clone, Copy, Debug, PartialEq, Eq)]
pub enum TokenFault {
    /// The first byte that may not stand in a script is in this line.
    NotAscii { line: u32 },
    /// A line 20,001 starts, and no earlier line has such a byte.
    TooManyLines,
    /// Memory has run out.
    Memory,
}

/// How a source ends.
#[derive(Clone, Copy, Debug, PartialEq, Eq)]
pub enum Ending {
    /// Every byte may stand in a script. `lines` counts the line feeds, and one more where bytes
    /// follow the last of them.
    Whole { lines: u32 },
    Fault(ByteFault),
}

/// The words before the first fault, and that fault.
#[derive(Debug, Drop)]
pub struct Scanned<'a> {
    /// All words, or those of the lines before the fault's line.
    pub words: Vec<Token<'a>>,
    pub ending: Ending,
}

// Where a byte stands.
#[derive(Clone, Copy)]
enum Place {
    Between,
    Word { start: usize },
    Comment,
}

// Where the byte at `at` stands, after one that stands at `place`.
fn place_after(place: Place, byte: u8, at: usize) -> Place
    ensures { result ≡ place_after place byte at }
{
    if byte == b'\n' {
        return Place::Between;
    }
    match place {
        Place::Comment => Place::Comment,
        Place::Between => {
            if byte == b'#' {
                Place::Comment
            } else if is_word_byte(byte) {
                Place::Word { start: at }
            } else {
                Place::Between
            }
        }
        Place::Word { start } => {
            if byte == b'#' {
                Place::Comment
            } else if is_word_byte(byte) {
                Place::Word { start }
            } else {
                Place::Between
            }
        }
    }
}

// Where a byte of a word stands that is at `at`.
fn within_word(place: Place, at: usize) -> Place
    ensures { result ≡ within_word place at }
{
    match place {
        Place::Between => Place::Word { start: at },
        Place::Word { start } => Place::Word { start },
        Place::Comment => Place::Comment,
    }
}

// Where a blank stands.
fn after_blank(place: Place) -> Place
    ensures { result ≡ after_blank place }
{
    match place {
        Place::Comment => Place::Comment,
        Place::Between | Place::Word { .. } => Place::Between,
    }
}

// Where the word begins that ends before this byte.
fn word_before(place: Place, byte: u8) -> Option<usize>
    ensures { result ≡ word_before place byte }
{
    match place {
        Place::Word { start } if !is_word_byte(byte) => Some(start),
        _ => None,
    }
}

// Where the word begins that ends with the bytes.
fn last_word(place: Place) -> Option<usize>
    ensures { result ≡ last_word place }
{
    match place {
        Place::Word { start } => Some(start),
        _ => None,
    }
}

fn line_after(line: u32, byte: u8) -> u32
    requires { line < 2 ^ 31 }
    ensures { result ≡ line_after line byte }
{
    if byte == b'\n' { line + 1 } else { line }
}

fn whole_after(whole: usize, byte: u8, count: usize) -> usize
    ensures { result ≡ whole_after whole byte count }
{
    if byte == b'\n' { count } else { whole }
}

// Adds the word from `start` up to `end`, if there is one.
fn end_word<'a>(
    words: &mut Vec<Token<'a>>,
    source: &'a [u8],
    start: Option<usize>,
    end: usize,
    line: u32,
) -> Result<(), AllocError>
    requires few { length source.now < 2 ^ 32 }
    requires begins { ForSome start (λ s. s ≤ end) }
    requires within { end ≤ length source.now }
    ensures spans { OnOk result (map span_of words.new.items ≡ map span_of words.old.items ++ ended start line end) }
    ensures texts { All (IsSlice source.now) words.old.items → OnOk result (All (IsSlice source.now) words.new.items) }
{
    if let Some(start) = start {
        words.push(Token {
            text: &source[start..end],
            line,
            start: start as u32,
            end: end as u32,
        })?;
    }
    Ok(())
}

fn byte_at(source: &[u8], at: usize) -> Option<u8>
    ensures { result ≡ slice_get source.now at }
{
    source.get(at).copied()
}

// A byte that may not stand before the next one, or in that line.
fn is_fault(line: u32, byte: u8, next: Option<u8>) -> bool
    ensures { result ≡ is_fault line byte next }
{
    line > MOST_LINES || !is_allowed(byte, next)
}

// The number of lines of a source whose last byte stands in `line`.
fn line_count(source: &[u8], line: u32) -> u32
    requires line { line ≡ 1 + count_by is_feed source.now }
    ensures { result ≡ line_count source.now }
{
    match source.last() {
        Some(byte) if *byte != b'\n' => line,
        _ => line - 1,
    }
}

/// Cuts a source of fewer than 2^32 bytes into its words, up to the first fault. It takes memory for
/// the list alone.
pub fn scan<'a>(alloc: Global, source: &'a [u8]) -> Result<Scanned<'a>, AllocError>
    requires { length source.now < 2 ^ 32 }
    ensures words { IfOk result (λ scan. views scan.words.items ≡ words_of source.now) }
    ensures ending { IfOk result (λ scan. scan.ending ≡ ending_of source.now) }
    ensures ascend { IfOk result (λ scan. Ascend (views scan.words.items)) }
    ensures lines { IfOk result (λ scan. FewLines scan.ending) }
    ensures few { IfOk result (λ scan. length scan.words.items ≤ length source.now) }
{
    let mut words = Vec::new(alloc);
    let mut whole = 0;
    let mut line = 1;
    let mut place = Place::Between;
    'bytes: for at in 0..source.len() {
        let byte = source[at];
        if line <= MOST_LINES && is_word_byte(byte) {
            place = within_word(place, at);
            continue 'bytes;
        }
        if line <= MOST_LINES && byte == b' ' {
            end_word(&mut words, source, last_word(place), at, line)?;
            place = after_blank(place);
            continue 'bytes;
        }
        if is_fault(line, byte, byte_at(source, at + 1)) {
            words.truncate(whole);
            let ending = Ending::Fault(fault(line));
            return Ok(Scanned { words, ending });
        }
        end_word(&mut words, source, word_before(place, byte), at, line)?;
        whole = whole_after(whole, byte, words.len());
        line = line_after(line, byte);
        place = place_after(place, byte, at);
    }
    end_word(&mut words, source, last_word(place), source.len(), line)?;
    let ending = Ending::Whole {
        lines: line_count(source, line),
    };
    Ok(Scanned { words, ending })
}

// The fault of a line that has a byte that may not stand there, or is past the last that may be.
fn fault(line: u32) -> ByteFault
    ensures { result ≡ fault_at line }
{
    if line > MOST_LINES {
        ByteFault::TooManyLines
    } else {
        ByteFault::NotAscii { line }
    }
}

/// Cuts a source of fewer than 2^32 bytes into its words, in order.
///
/// # Errors
///
/// The first fault in the order of the lines: `NotAscii` at a line with a byte that may not stand in
/// a script, also in a comment, and `TooManyLines` where line 20,001 starts and no earlier line has
/// such a byte. `Memory` where memory has run out.
pub fn tokens<'a>(alloc: Global, source: &'a [u8]) -> Result<Vec<Token<'a>>, TokenFault>
    requires { length source.now < 2 ^ 32 }
    ensures words { IfOk result (λ words. (first_fault 1 source.now ≡ None) × (views words.items ≡ words_of source.now)) }
    ensures ascend { IfOk result (λ words. Ascend (views words.items)) }
    ensures fault { IfErr result (λ e. IsFault e (first_fault 1 source.now)) }
{
    let Ok(Scanned { words, ending }) = scan(alloc, source) else {
        return Err(TokenFault::Memory);
    };
    match ending {
        Ending::Whole { .. } => Ok(words),
        Ending::Fault(ByteFault::NotAscii { line }) => Err(TokenFault::NotAscii { line }),
        Ending::Fault(ByteFault::TooManyLines) => Err(TokenFault::TooManyLines),
    }
}
