//! What the lines so far say.

ghost use Rattle.std.specs.Prelude.{◌≡◌, [], true, IfOk, OnOk};
ghost use Rattle.line_reader.specs.Arguments.{texts};
ghost use Rattle.line_reader.specs.Lines.{Takes};
ghost use Rattle.marked_history.specs.Verdicts.{SaidFits};
ghost use Rattle.history_reader.specs.Inputs.{no_history, head_line, with_said, given_line, line_by, line_behind, draft_seen};
ghost use Rattle.history_reader.specs.Inputs.{IsHistoryDraft};

use crate::lines::{LineWord, first_of, said_by};
use line_reader::{Cause, LineFault, Lines, ReadFault, fault_at};
use marked_history::{Line, Mark, Said};
use script_reader::Draft;
use script_tokens::Token;
use spk_nums::{Call, Make, Reply, Value};
use std::alloc::{AllocError, Global};

/// The head so far, as a script's, and the lines of the history so far.
#[derive(Drop)]
pub struct HistoryDraft {
    pub script: Draft,
    pub lines: Vec<Line>,
}

/// What no lines say.
pub fn no_history(alloc: Global) -> Result<HistoryDraft, AllocError>
    ensures value { IfOk result (λ d. draft_seen d ≡ no_history) }
    ensures draft { IfOk result (λ d. IsHistoryDraft (draft_seen d)) }
{
    Ok(HistoryDraft {
        script: Draft::new(alloc)?,
        lines: Vec::new(alloc),
    })
}

// Takes a line of the head.
#[tactic(auto, unfolding(crate::specs::Inputs::head_line))]
fn take_head_line(draft: &mut HistoryDraft, words: &[Token]) -> Result<(), LineFault>
    requires { IsHistoryDraft (draft_seen draft.old) }
    ensures value { Takes result (draft_seen draft.new) (head_line (draft_seen draft.old) (texts words.now)) }
    ensures draft { OnOk result (IsHistoryDraft (draft_seen draft.new)) }
{
    if draft.lines.is_empty() {
        draft.script.take(words)
    } else {
        Err(LineFault::Cause(Cause::S7))
    }
}

// Adds a line to the history.
fn add_said(draft: &mut HistoryDraft, number: u32, said: Said) -> Result<(), LineFault>
    requires draft { IsHistoryDraft (draft_seen draft.old) }
    requires fits { SaidFits (draft_seen draft.old).script.head.cores said }
    ensures value { Takes result (draft_seen draft.new) (Ok (with_said (draft_seen draft.old) number said)) }
    ensures draft { OnOk result (IsHistoryDraft (draft_seen draft.new)) }
{
    draft.lines.push(Line { number, said })?;
    Ok(())
}

// Takes a line of the history.
#[tactic(auto, unfolding(crate::specs::Inputs::given_line))]
fn take_given_line(
    draft: &mut HistoryDraft,
    number: u32,
    words: &[Token],
    word: LineWord,
) -> Result<(), LineFault>
    requires { IsHistoryDraft (draft_seen draft.old) }
    ensures value { Takes result (draft_seen draft.new) (given_line (draft_seen draft.old) number (texts words.now) word) }
    ensures draft { OnOk result (IsHistoryDraft (draft_seen draft.new)) }
{
    // The check of a function that moves calls and replies asks for the types that they hold.
    let _made: Option<Make> = None;
    let _value: Option<Value> = None;
    let _reply: Option<Reply> = None;
    let _mark: Option<Mark> = None;
    if !draft.script.is_whole() {
        return Err(LineFault::Cause(Cause::S7));
    }
    let version = draft.script.version();
    let cores = draft.script.cores();
    let said = said_by(words, version, cores, word)?;
    add_said(draft, number, said)
}

// Takes a line with this number.
#[tactic(auto, unfolding(crate::specs::Inputs::line_behind))]
fn take_line(draft: &mut HistoryDraft, number: u32, words: &[Token]) -> Result<(), LineFault>
    requires { IsHistoryDraft (draft_seen draft.old) }
    ensures value { Takes result (draft_seen draft.new) (line_behind (draft_seen draft.old) number (texts words.now)) }
    ensures draft { OnOk result (IsHistoryDraft (draft_seen draft.new)) }
{
    match first_of(words).ok_or(Cause::S2)? {
        LineWord::Head => take_head_line(draft, words),
        word => take_given_line(draft, number, words, word),
    }
}

impl Lines for HistoryDraft {
    ghost use Rattle.history_reader.specs.Inputs.{History_draft, draft_seen, line_step, IsHistoryDraft};

    ghost Said = { History_draft };

    ghost said = { draft_seen };

    ghost Kept = { IsHistoryDraft };

    ghost step = { line_step };

    fn take_line(&mut self, line: u32, words: &[Token]) -> Result<(), ReadFault> {
        if let Err(fault) = take_line(self, line, words) {
            return Err(fault_at(line, fault));
        }
        Ok(())
    }
}
