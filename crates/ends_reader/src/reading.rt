//! Reads the lines of a script and of the endpoint calls after it.

ghost use Rattle.std.specs.Prelude.{◌≡◌, ◌<◌, ◌≤◌, ◌^◌, true, false, [], length, replicate, All, IfOk, IfErr, OnOk};
ghost use Rattle.script_tokens.specs.Words.{words_of, FewLines};
ghost use Rattle.line_reader.specs.Arguments.{texts};
ghost use Rattle.line_reader.specs.declared.cause.LineFault.TheVariants as line_fault;
ghost use Rattle.line_reader.specs.Lines.{Takes, Gives};
ghost use Rattle.script_reader.specs.Readings.{lists_of, AtMost};
ghost use Rattle.ends_reader.specs.Inputs.{ask_lists, with_ask, no_input, is_script, is_calls, ends_line, script_line};
ghost use Rattle.ends_reader.specs.Inputs.{core_line, ask_line, part_line, input_behind};
ghost use Rattle.ends_reader.specs.Inputs.{input_at, input_of, draft_seen, input_view, IsInput, IsEndsInput, FewAsks};

use crate::part::{PartWord, ask_in, begins_ends, core_in, first_of};
use async_ends::{EndAsk, EndOp};
use line_reader::{Cause, LineFault, Lines, ReadFault, end_at, fault_at, read_lines, whole_lines};
use script_reader::{Draft, Script};
use script_tokens::{Ending, Token};
use spk_nums::{Call, CoreNo, Make};
use std::alloc::{AllocError, Global};

/// A script and, for each of its cores, core 0 first, its endpoint calls.
#[derive(Debug, Drop)]
pub struct EndsInput {
    pub script: Script,
    pub asks: Vec<Vec<EndAsk>>,
}

// Where the lines have come to.
#[derive(Clone, Copy, Debug, PartialEq, Eq)]
enum EndsSection {
    /// The script.
    Script,
    /// The line `ends`, and no core yet.
    Ends,
    /// The endpoint calls of a core.
    Calls,
}

// What the lines so far say. Each core that a machine may have has a list.
#[derive(Drop)]
struct InputDraft {
    script: Draft,
    section: EndsSection,
    core: CoreNo,
    asks: Vec<Vec<EndAsk>>,
}

// A list for each core that a machine may have, without calls.
fn no_asks(alloc: Global) -> Result<Vec<Vec<EndAsk>>, AllocError>
    ensures { IfOk result (λ asks. ask_lists asks.items ≡ replicate 8 []) }
{
    let asks = vec![in alloc;
        Vec::new(alloc),
        Vec::new(alloc),
        Vec::new(alloc),
        Vec::new(alloc),
        Vec::new(alloc),
        Vec::new(alloc),
        Vec::new(alloc),
        Vec::new(alloc),
    ]?;
    Ok(asks)
}

fn no_input(alloc: Global) -> Result<InputDraft, AllocError>
    ensures value { IfOk result (λ d. draft_seen d ≡ no_input) }
    ensures input { IfOk result (λ d. IsInput (draft_seen d)) }
{
    let asks = no_asks(alloc)?;
    Ok(InputDraft {
        script: Draft::new(alloc)?,
        section: EndsSection::Script,
        core: CoreNo::new(0),
        asks,
    })
}

// Adds a call to the list of a core.
fn add_ask(asks: &mut Vec<Vec<EndAsk>>, core: CoreNo, ask: EndAsk) -> Result<(), LineFault>
    requires { length asks.old.items ≡ 8 }
    ensures ok { OnOk result (ask_lists asks.new.items ≡ with_ask (ask_lists asks.old.items) core ask) }
    ensures fault { IfErr result (λ e. e ≡ line_fault.Memory) }
{
    asks[usize::from(core.number())].push(ask)?;
    Ok(())
}

fn is_script(section: EndsSection) -> bool
    ensures { result ≡ is_script section }
{
    match section {
        EndsSection::Script => true,
        EndsSection::Ends | EndsSection::Calls => false,
    }
}

fn is_calls(section: EndsSection) -> bool
    ensures { result ≡ is_calls section }
{
    match section {
        EndsSection::Calls => true,
        EndsSection::Script | EndsSection::Ends => false,
    }
}

// Takes the line `ends`.
#[tactic(auto, unfolding(crate::specs::Inputs::ends_line, crate::specs::Inputs::may_end))]
fn take_ends_line(draft: &mut InputDraft, words: &[Token]) -> Result<(), LineFault>
    requires { IsInput (draft_seen draft.old) }
    ensures value { Takes result (draft_seen draft.new) (ends_line (draft_seen draft.old) (texts words.now)) }
    ensures input { OnOk result (IsInput (draft_seen draft.new)) }
{
    if !draft.script.is_whole() {
        return Err(LineFault::Cause(Cause::S7));
    }
    end_at(words, 1)?;
    draft.section = EndsSection::Ends;
    Ok(())
}

// Takes a line before the line `ends`, or that one.
#[tactic(auto, unfolding(crate::specs::Inputs::script_line))]
fn take_script_line(draft: &mut InputDraft, words: &[Token]) -> Result<(), LineFault>
    requires input { IsInput (draft_seen draft.old) }
    requires section { is_script draft.old.section ≡ true }
    ensures value { Takes result (draft_seen draft.new) (script_line (draft_seen draft.old) (texts words.now)) }
    ensures input { OnOk result (IsInput (draft_seen draft.new)) }
{
    if begins_ends(words) {
        take_ends_line(draft, words)
    } else {
        draft.script.take(words)
    }
}

// Takes a `core` line.
fn take_core_line(draft: &mut InputDraft, words: &[Token]) -> Result<(), LineFault>
    requires input { IsInput (draft_seen draft.old) }
    requires section { is_script draft.old.section ≡ false }
    ensures value { Takes result (draft_seen draft.new) (core_line (draft_seen draft.old) (texts words.now)) }
    ensures input { OnOk result (IsInput (draft_seen draft.new)) }
{
    let cores = draft.script.cores();
    draft.core = core_in(words, cores)?;
    draft.section = EndsSection::Calls;
    Ok(())
}

// Takes the line of a send or a receive.
fn take_ask_line(draft: &mut InputDraft, words: &[Token], op: EndOp) -> Result<(), LineFault>
    requires { IsInput (draft_seen draft.old) }
    ensures value { Takes result (draft_seen draft.new) (ask_line (draft_seen draft.old) (texts words.now) op) }
    ensures input { OnOk result (IsInput (draft_seen draft.new)) }
{
    if !is_calls(draft.section) {
        return Err(LineFault::Cause(Cause::S7));
    }
    let ask = ask_in(words, op)?;
    let core = draft.core;
    add_ask(&mut draft.asks, core, ask)
}

// Takes a line after the line `ends`.
#[tactic(auto, unfolding(crate::specs::Inputs::part_line))]
fn take_part_line(draft: &mut InputDraft, words: &[Token]) -> Result<(), LineFault>
    requires input { IsInput (draft_seen draft.old) }
    requires section { is_script draft.old.section ≡ false }
    ensures value { Takes result (draft_seen draft.new) (part_line (draft_seen draft.old) (texts words.now)) }
    ensures input { OnOk result (IsInput (draft_seen draft.new)) }
{
    match first_of(words).ok_or(Cause::S2)? {
        PartWord::Core => take_core_line(draft, words),
        PartWord::Ask(op) => take_ask_line(draft, words, op),
    }
}

// Takes a line.
fn take_line(draft: &mut InputDraft, words: &[Token]) -> Result<(), LineFault>
    requires { IsInput (draft_seen draft.old) }
    ensures value { Takes result (draft_seen draft.new) (input_behind (draft_seen draft.old) (texts words.now)) }
    ensures input { OnOk result (IsInput (draft_seen draft.new)) }
{
    if is_script(draft.section) {
        take_script_line(draft, words)
    } else {
        take_part_line(draft, words)
    }
}

impl Lines for InputDraft {
    ghost use Rattle.ends_reader.specs.Inputs.{Input_draft, draft_seen, input_step, IsInput};

    ghost Said = { Input_draft };

    ghost said = { draft_seen };

    ghost Kept = { IsInput };

    ghost step = { input_step };

    fn take_line(&mut self, line: u32, words: &[Token]) -> Result<(), ReadFault> {
        if let Err(fault) = take_line(self, words) {
            return Err(fault_at(line, fault));
        }
        Ok(())
    }
}

// Ends the lines.
fn finish(draft: InputDraft, ending: Ending) -> Result<EndsInput, ReadFault>
    requires input { IsInput (draft_seen draft) }
    requires lines { FewLines ending }
    ensures value { Gives input_view result (input_at (draft_seen draft) ending) }
    ensures input { IfOk result IsEndsInput }
{
    let lines = whole_lines(ending)?;
    if is_script(draft.section) {
        return Err(ReadFault::Script {
            line: lines + 1,
            cause: Cause::S7,
        });
    }
    let InputDraft {
        script,
        mut asks,
        ..
    } = draft;
    asks.truncate(usize::from(script.cores()));
    let script = script.end(Ending::Whole { lines })?;
    Ok(EndsInput { script, asks })
}

// Reads the lines, and ends them.
#[tactic(auto, unfolding(crate::specs::Inputs::input_of))]
fn read_words(alloc: Global, source: &[u8]) -> Result<EndsInput, ReadFault>
    requires { length source.now < 2 ^ 32 }
    ensures value { Gives input_view result (input_of source.now) }
    ensures input { IfOk result IsEndsInput }
    ensures words { IfOk result (λ i. length (words_of source.now) ≤ length source.now) }
{
    let mut draft = no_input(alloc)?;
    let ending = read_lines(alloc, &mut draft, source)?;
    finish(draft, ending)
}

/// Reads a script and the endpoint calls after it, of fewer than 2^32 bytes.
///
/// # Errors
///
/// `Script` where the bytes are no such text, with their first fault. The script is what stands before the first line whose
/// first word is `ends`; its faults are those of `script_reader`, and S7 where it may not end there is that line's. After it a
/// first word other than `core`, `send` and `recv` is S2, and a send or a receive before a `core` line S7. Where there is no
/// such line, the line after the last is S7. `Memory` where memory has run out.
pub fn read_ends(alloc: Global, source: &[u8]) -> Result<EndsInput, ReadFault>
    requires { length source.now < 2 ^ 32 }
    // What is read is what the bytes say, or their first fault.
    ensures value { Gives input_view result (input_of source.now) }
    ensures input { IfOk result IsEndsInput }
    // No list has more calls than there are bytes.
    ensures calls { IfOk result (λ i. All (AtMost (length source.now)) (lists_of i.script.lists.items)) }
    ensures asks { IfOk result (λ i. All (FewAsks (length source.now)) (ask_lists i.asks.items)) }
{
    read_words(alloc, source)
}
