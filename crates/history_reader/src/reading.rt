//! Reads the lines of a given history.

ghost use Rattle.std.specs.Prelude.{◌<◌, ◌≤◌, ◌^◌, length, IfOk};
ghost use Rattle.script_tokens.specs.Words.{words_of, FewLines};
ghost use Rattle.line_reader.specs.Lines.{Gives};
ghost use Rattle.marked_history.specs.Verdicts.{LinesFit};
ghost use Rattle.history_reader.specs.Inputs.{draft_seen, history_at, history_of, history_view, IsHistoryDraft};

use crate::draft::{HistoryDraft, no_history};
use line_reader::{ReadFault, read_lines};
use marked_history::Line;
use script_tokens::Ending;
use spk_nums::{Make, Setup};
use std::alloc::Global;

/// A given history: the setup of its machine, and its lines in the order written.
#[derive(Debug, Drop)]
pub struct GivenHistory {
    pub setup: Setup,
    pub lines: Vec<Line>,
}

// Ends the lines.
fn finish(draft: HistoryDraft, ending: Ending) -> Result<GivenHistory, ReadFault>
    requires draft { IsHistoryDraft (draft_seen draft) }
    requires lines { FewLines ending }
    ensures value { Gives history_view result (history_at (draft_seen draft) ending) }
    ensures fit { IfOk result (λ h. LinesFit h.setup.cores h.lines.items) }
{
    let HistoryDraft { script, lines } = draft;
    let script = script.end(ending)?;
    Ok(GivenHistory {
        setup: script.setup,
        lines,
    })
}

// Reads the lines, and ends them.
#[tactic(auto, unfolding(crate::specs::Inputs::history_of))]
fn read_words(alloc: Global, source: &[u8]) -> Result<GivenHistory, ReadFault>
    requires { length source.now < 2 ^ 32 }
    ensures value { Gives history_view result (history_of source.now) }
    ensures fit { IfOk result (λ h. LinesFit h.setup.cores h.lines.items) }
    ensures words { IfOk result (λ h. length (words_of source.now) ≤ length source.now) }
{
    let mut draft = no_history(alloc)?;
    let ending = read_lines(alloc, &mut draft, source)?;
    finish(draft, ending)
}

/// Reads a given history of fewer than 2^32 bytes.
///
/// # Errors
///
/// `Script` where the bytes are no such text, with their first fault: lines are judged one after another, and within a line the number
/// of the line, its bytes, its first word and then what comes after it. A first word other than those of the head, `enter`, `decide`,
/// `return` and `C.I` is S2; a line of the head after one of the history is S7, as one of the history before the last grant is, and the
/// line after the last where no line is the last grant. `Memory` where memory has run out.
pub fn read_history(alloc: Global, source: &[u8]) -> Result<GivenHistory, ReadFault>
    requires { length source.now < 2 ^ 32 }
    // What is read is what the bytes say, or their first fault.
    ensures value { Gives history_view result (history_of source.now) }
    // The lines are of the machine's cores, and their calls are within the limits.
    ensures fit { IfOk result (λ h. LinesFit h.setup.cores h.lines.items) }
    // There are no more of them than there are bytes.
    ensures few { IfOk result (λ h. length h.lines.items ≤ length source.now) }
{
    read_words(alloc, source)
}
