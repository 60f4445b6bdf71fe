//! Takes the lines of a text one after another, up to the first fault.

ghost use Rattle.std.specs.Prelude.{◌≡◌, ◌<◌, ◌≤◌, ◌^◌, length, IfOk, OnOk};
ghost use Rattle.script_tokens.specs.Words.{views, words_of, ending_of, FewLines};
ghost use Rattle.line_reader.specs.Arguments.{texts};
ghost use Rattle.line_reader.specs.Lines.{Step, rows_of, words_in, lines_from, whole_lines, FindsFirst, fault_at, Leads, Gives};

use crate::cause::{Cause, LineFault, ReadFault};
use script_tokens::{ByteFault, Ending, Scanned, Token, scan};
use std::alloc::Global;

/// What takes lines, one after another. Contracts see what the lines so far say, and what a line makes of that.
pub trait Lines {
    ghost use Rattle.std.specs.Prelude.{◌≡◌, OnOk};
    ghost use Rattle.line_reader.specs.Arguments.{texts};
    ghost use Rattle.line_reader.specs.Lines.{Step, Leads};

    // What lines can say.
    ghost Said: { Type 0 };

    // What the lines so far say.
    ghost said: { Self → Said };

    // What all lines keep of it.
    ghost Kept: { Said → Type 0 };

    // What a line makes of it.
    ghost step: { Step Said };

    /// Takes a line of this number. Its fault is the first fault of the text, unless memory has run out.
    fn take_line(&mut self, line: u32, words: &[Token]) -> Result<(), ReadFault>
        requires { Kept (said self.old) }
        ensures value { Leads result (said self.new) (step (said self.old) line (texts words.now)) }
        ensures kept { OnOk result (Kept (said self.new)) };
}

/// How many tokens at the front stand in a line.
pub fn line_length(tokens: &[Token], line: u32) -> usize
    ensures value { result ≡ words_in line (views tokens.now) }
    ensures within { result ≤ length tokens.now }
{
    let mut length = 0;
    'words: for token in tokens {
        if token.line != line {
            return length;
        }
        length += 1;
    }
    length
}

// Takes the lines of these tokens.
fn take_lines<L: Lines>(draft: &mut L, tokens: &[Token]) -> Result<(), ReadFault>
    requires { L.Kept (L.said draft.old) }
    ensures value { Leads result (L.said draft.new) (lines_from L.step (L.said draft.old) (rows_of (views tokens.now))) }
    ensures kept { OnOk result (L.Kept (L.said draft.new)) }
{
    let mut at = 0;
    'lines: while at < tokens.len() {
        let line = tokens[at].line;
        let end = at + line_length(&tokens[at..], line);
        if let Err(fault) = draft.take_line(line, &tokens[at..end]) {
            return Err(fault);
        }
        at = end;
    }
    Ok(())
}

/// Takes the lines of fewer than 2^32 bytes, and tells how the bytes end.
///
/// # Errors
///
/// `Script` with the first fault of the lines before the end, and `Memory` where memory has run out.
pub fn read_lines<L: Lines>(
    alloc: Global,
    draft: &mut L,
    source: &[u8],
) -> Result<Ending, ReadFault>
    requires few { length source.now < 2 ^ 32 }
    requires kept { L.Kept (L.said draft.old) }
    ensures value { Gives (λ _. L.said draft.new) result (lines_from L.step (L.said draft.old) (rows_of (words_of source.now))) }
    ensures kept { IfOk result (λ _. L.Kept (L.said draft.new)) }
    ensures ending { IfOk result (λ ending. ending ≡ ending_of source.now) }
    ensures lines { IfOk result FewLines }
    ensures words { IfOk result (λ _. length (words_of source.now) ≤ length source.now) }
{
    let Scanned { words, ending } = scan(alloc, source)?;
    take_lines(draft, &words)?;
    Ok(ending)
}

/// How many lines bytes have that end so, at most 20,000, or the fault with which they end.
pub fn whole_lines(ending: Ending) -> Result<u32, ReadFault>
    requires { FewLines ending }
    ensures value { Gives (λ lines. lines) result (whole_lines ending) }
    ensures few { IfOk result (λ lines. lines ≤ 20000) }
{
    match ending {
        Ending::Fault(ByteFault::NotAscii { line }) => Err(ReadFault::Script {
            line,
            cause: Cause::S8,
        }),
        Ending::Fault(ByteFault::TooManyLines) => Err(ReadFault::Script {
            line: 20_001,
            cause: Cause::S9,
        }),
        Ending::Whole { lines } => Ok(lines),
    }
}

/// The fault of a line.
pub fn fault_at(line: u32, fault: LineFault) -> ReadFault
    ensures { result ≡ fault_at line fault }
{
    match fault {
        LineFault::Cause(cause) => ReadFault::Script { line, cause },
        LineFault::Memory => ReadFault::Memory,
    }
}

/// A first fault is that of the first line that is not taken, whatever stands after it.
pub fn first_faults<L: Lines>()
    ensures { FindsFirst L.step }
{}
