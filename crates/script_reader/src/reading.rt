//! Reads a script, line by line.

ghost use Rattle.std.specs.Prelude.{◌≡◌, ◌<◌, ◌≤◌, ◌^◌, true, false, [], length, replicate, All, IfOk, IfErr, OnOk};
ghost use Rattle.script_tokens.specs.Words.{words_of, FewLines};
ghost use Rattle.line_reader.specs.Arguments.{texts};
ghost use Rattle.line_reader.specs.declared.cause.LineFault.TheVariants as line_fault;
ghost use Rattle.line_reader.specs.Lines.{Takes, Gives};
ghost use Rattle.script_reader.specs.Heads.{is_whole, IsHead};
ghost use Rattle.script_reader.specs.Readings.{draft_view, script_view, draft_behind, script_of, no_draft, meaning_at, lists_of};
ghost use Rattle.script_reader.specs.Readings.{with_call, behind_line, is_order, setting_of, IsDraft, IsScript, AtMost};

use crate::head::{Head, Line, Section, is_whole, line_of, no_head};
use crate::items::take_items;
use line_reader::{Cause, LineFault, Lines, ReadFault, fault_at, read_lines, whole_lines};
use script_tokens::{Ending, Token};
use spk_nums::{Call, CoreNo, Item, Make, Setup};
use std::alloc::{AllocError, Global};

/// A script: its version, 1 to 3, its setup, a list of calls for each core, core 0 first, and the items of its order.
#[derive(Debug, Drop)]
pub struct Script {
    pub version: u8,
    pub setup: Setup,
    pub lists: Vec<Vec<Call>>,
    pub order: Vec<Item>,
}

/// What the lines so far say. Each core that a machine may have has a list.
#[derive(Debug, Drop)]
pub struct Draft {
    head: Head,
    lists: Vec<Vec<Call>>,
    order: Vec<Item>,
}

// A list for each core that a machine may have, without calls.
fn no_lists(alloc: Global) -> Result<Vec<Vec<Call>>, AllocError>
    ensures { IfOk result (λ lists. lists_of lists.items ≡ replicate 8 []) }
{
    let lists = vec![in alloc;
        Vec::new(alloc),
        Vec::new(alloc),
        Vec::new(alloc),
        Vec::new(alloc),
        Vec::new(alloc),
        Vec::new(alloc),
        Vec::new(alloc),
        Vec::new(alloc),
    ]?;
    Ok(lists)
}

fn no_draft(alloc: Global) -> Result<Draft, AllocError>
    ensures value { IfOk result (λ d. draft_view d ≡ no_draft) }
    ensures draft { IfOk result (λ d. IsDraft (draft_view d)) }
{
    let lists = no_lists(alloc)?;
    Ok(Draft {
        head: no_head(),
        lists,
        order: Vec::new(alloc),
    })
}

fn is_order(section: Section) -> bool
    ensures { result ≡ is_order section }
{
    match section {
        Section::Order => true,
        _ => false,
    }
}

// Adds a call to the list of a core.
fn add_call(lists: &mut Vec<Vec<Call>>, core: CoreNo, call: Call) -> Result<(), LineFault>
    requires { length lists.old.items ≡ 8 }
    ensures ok { OnOk result (lists_of lists.new.items ≡ with_call (lists_of lists.old.items) core call) }
    ensures fault { IfErr result (λ e. e ≡ line_fault.Memory) }
{
    // The check of a function that moves calls asks for the types that they hold.
    let _made: Option<Make> = None;
    lists[usize::from(core.number())].push(call)?;
    Ok(())
}

// Takes what a line before the order of steps says.
#[tactic(auto, unfolding(crate::specs::Readings::behind_line))]
fn take_head_line(draft: &mut Draft, words: &[Token]) -> Result<(), LineFault>
    requires draft { IsDraft (draft_view draft.old) }
    requires section { is_order draft.old.head.section ≡ false }
    ensures value { Takes result (draft_view draft.new) (behind_line (draft_view draft.old) (texts words.now)) }
    ensures draft { OnOk result (IsDraft (draft_view draft.new)) }
{
    // As in `add_call`.
    let _made: Option<Make> = None;
    match line_of(&draft.head, words)? {
        Line::Head(head) => draft.head = head,
        Line::Call(call) => add_call(&mut draft.lists, draft.head.core, call)?,
    }
    Ok(())
}

// Takes a line.
#[tactic(auto, unfolding(crate::specs::Readings::draft_behind))]
fn take_line(draft: &mut Draft, words: &[Token]) -> Result<(), LineFault>
    requires { IsDraft (draft_view draft.old) }
    ensures value { Takes result (draft_view draft.new) (draft_behind (draft_view draft.old) (texts words.now)) }
    ensures draft { OnOk result (IsDraft (draft_view draft.new)) }
{
    if is_order(draft.head.section) {
        let version = draft.head.version;
        let cores = draft.head.cores;
        take_items(&mut draft.order, words, version, cores)
    } else {
        take_head_line(draft, words)
    }
}

// The setup of a whole head.
fn setup_of(head: &Head) -> Setup
    requires head { IsHead head.now }
    requires whole { is_whole head.now.section ≡ true }
    ensures { result ≡ setting_of head.now }
{
    let setup = Setup::new(
        head.cores,
        head.frames,
        head.grants,
        head.calls,
        head.epochs,
    );
    setup.unwrap()
}

// Ends a script.
fn finish(draft: Draft, ending: Ending) -> Result<Script, ReadFault>
    requires draft { IsDraft (draft_view draft) }
    requires lines { FewLines ending }
    ensures value { Gives script_view result (meaning_at (draft_view draft) ending) }
    ensures script { IfOk result IsScript }
{
    let lines = whole_lines(ending)?;
    if !is_whole(draft.head.section) {
        return Err(ReadFault::Script {
            line: lines + 1,
            cause: Cause::S7,
        });
    }
    let Draft {
        head,
        mut lists,
        order,
    } = draft;
    lists.truncate(usize::from(head.cores));
    let setup = setup_of(&head);
    Ok(Script {
        version: head.version,
        setup,
        lists,
        order,
    })
}

impl Draft {
    /// What no lines say. It fails only where memory runs out.
    pub fn new(alloc: Global) -> Result<Draft, AllocError>
        ensures value { IfOk result (λ d. draft_view d ≡ no_draft) }
        ensures draft { IfOk result (λ d. IsDraft (draft_view d)) }
    {
        no_draft(alloc)
    }

    /// Takes one line more. Its fault is its cause, unless memory has run out.
    pub fn take(&mut self, words: &[Token]) -> Result<(), LineFault>
        requires { IsDraft (draft_view self.old) }
        ensures value { Takes result (draft_view self.new) (draft_behind (draft_view self.old) (texts words.now)) }
        ensures draft { OnOk result (IsDraft (draft_view self.new)) }
    {
        take_line(self, words)
    }

    /// Whether the last grant was read, so that the script may end.
    pub fn is_whole(&self) -> bool
        ensures { result ≡ is_whole (draft_view self.now).head.section }
    {
        is_whole(self.head.section)
    }

    /// How many cores the lines say, 1 to 8; 1 where none says so yet.
    pub fn cores(&self) -> u8
        requires { IsDraft (draft_view self.now) }
        ensures value { result ≡ (draft_view self.now).head.cores }
        ensures most { result ≤ 8 }
    {
        self.head.cores
    }

    /// The script's version, 1 to 3; 1 where no line says so yet.
    pub fn version(&self) -> u8
        ensures { result ≡ (draft_view self.now).head.version }
    {
        self.head.version
    }

    /// The script of lines that end so, of at most 20,000, or the fault with which they end.
    pub fn end(self, ending: Ending) -> Result<Script, ReadFault>
        requires draft { IsDraft (draft_view self) }
        requires lines { FewLines ending }
        ensures value { Gives script_view result (meaning_at (draft_view self) ending) }
        ensures script { IfOk result IsScript }
    {
        finish(self, ending)
    }
}

impl Lines for Draft {
    ghost use Rattle.script_reader.specs.Readings.{Draft_of, draft_view, draft_step, IsDraft};

    ghost Said = { Draft_of };

    ghost said = { draft_view };

    ghost Kept = { IsDraft };

    ghost step = { draft_step };

    fn take_line(&mut self, line: u32, words: &[Token]) -> Result<(), ReadFault> {
        if let Err(fault) = self.take(words) {
            return Err(fault_at(line, fault));
        }
        Ok(())
    }
}

// Reads the lines of a script, and ends it.
#[tactic(auto, unfolding(crate::specs::Readings::script_of))]
fn read_words(alloc: Global, source: &[u8]) -> Result<Script, ReadFault>
    requires { length source.now < 2 ^ 32 }
    ensures value { Gives script_view result (script_of source.now) }
    ensures script { IfOk result IsScript }
    ensures words { IfOk result (λ s. length (words_of source.now) ≤ length source.now) }
{
    let mut draft = no_draft(alloc)?;
    let ending = read_lines(alloc, &mut draft, source)?;
    finish(draft, ending)
}

/// Reads a script of fewer than 2^32 bytes.
///
/// # Errors
///
/// `Script` where the bytes are no script, with their first fault: lines are judged one after another,
/// and within a line the number of the line, its bytes, its first word and its arguments from left to
/// right. `Memory` where memory has run out.
pub fn read(alloc: Global, source: &[u8]) -> Result<Script, ReadFault>
    requires { length source.now < 2 ^ 32 }
    // What is read is what the bytes say, or their first fault.
    ensures value { Gives script_view result (script_of source.now) }
    ensures script { IfOk result IsScript }
    // No list has more calls than there are bytes.
    ensures calls { IfOk result (λ s. All (AtMost (length source.now)) (lists_of s.lists.items)) }
{
    read_words(alloc, source)
}
