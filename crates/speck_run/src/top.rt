//! The top call: words, then reading, then the script, then writing.

ghost use Rattle.std.specs.Prelude.{◌≡◌, ℕ, ◌<◌, ◌⊎◌, true, IfOk, Ok, string_bytes};
ghost use Rattle.byte_ends.specs.Ends.{HasRisen, Adds};
ghost use Rattle.trace_run.specs.lone_kernel.specs.kernel_history.specs.Order.{list_of};
ghost use Rattle.trace_run.specs.lone_kernel.specs.kernel_history.specs.Text.{plain_text};
ghost use Rattle.ends_run.specs.core_runs.specs.TakenSteps.{TakenSteps};
ghost use Rattle.trace_run.specs.lone_kernel.specs.GivenSteps.{GivenSteps};
ghost use Rattle.trace_run.specs.GivenTrace.{GivenTrace};
ghost use Rattle.draw_run.specs.GivenDrawing.{GivenDrawing};
ghost use Rattle.load_maker.specs.script_reader.specs.Readings.{script_of};
ghost use Rattle.load_maker.specs.script_printer.specs.Printing.{printed};
ghost use Rattle.explain_run.specs.ends_reader.specs.Inputs.{input_of};
ghost use Rattle.one_core.specs.sched_reader.specs.Inputs.{input_of as sched_input_of};
ghost use Rattle.one_core.specs.Scheduled.{SchedTrace};
ghost use Rattle.explain_run.specs.check_run.specs.history_reader.specs.Inputs.{history_of};
ghost use Rattle.explain_run.specs.check_run.specs.Checked.{IsJudged};
ghost use Rattle.origins_run.specs.GivenOrigins.{GivenOrigins};
ghost use Rattle.speck_run.specs.Worlds.{GivenWorlds};
ghost use Rattle.explain_run.specs.Explained.{IsExplained};
ghost use Rattle.explain_run.specs.line_forms.specs.declared.context.Reading.{Reading};
ghost use Rattle.load_maker.specs.Loads.{load_text};
ghost use Rattle.speck_run.specs.declared.words.Command.{Command};
ghost use Rattle.speck_run.specs.declared.words.Command.TheVariants as commands;
ghost use Rattle.whole_ends.specs.Ends.{Gives, GivesAtMost};
ghost use Rattle.speck_run.specs.Top.{Asks, AsksMake, AsksLoad, IsCommand, IsMake, IsLoad, IsUnderstood, IsDue};
ghost use Rattle.speck_run.specs.Top.{IsSummary, InputFaults, InputRuns, CarriesOut, WritesSummary, Writes};
ghost use Rattle.speck_run.specs.Script.{IsMade, UsesThreads};
ghost use Rattle.speck_run.specs.Ends.{EndsText};
ghost use Rattle.speck_run.specs.Top.{Answers, IsUnlessUnwritten, IsAccepted, Finishes, status_number};

use crate::answers::{Answer, line, made};
use crate::inputs::judge_input;
use crate::summary::summarize;
use crate::words::{command_of, number_after};
use byte_ends::{Sink, Source};
use ends_run::core_runs::Gate;
use load_maker::script_reader::{Cause, Script};
use load_maker::{load_script, made_script};
use spk_nums::Memory;
use std::alloc::Global;
use std::thread::Threads;
use whole_ends::{ReadError, read_all, write_all};

/// How a call of `speck` ended.
#[derive(Clone, Copy, Debug, PartialEq, Eq)]
pub enum Status {
    /// The input was read to its end, where the command reads, and all output was taken.
    Done,
    /// The words are not understood.
    Words,
    /// The input is none that the command takes; this is its first fault.
    Script { line: u32, cause: Cause },
    /// The source failed.
    ReadFault,
    /// The sink failed.
    WriteFault,
    /// Memory has run out.
    Memory,
    /// The source gave more than 1,048,576 bytes.
    TooLong,
    /// The gate has stopped a core of a `run` or of an `ends`.
    Stopped,
}

impl Status {
    /// The number with which the program ends.
    pub fn number(&self) -> u8
        ensures { result ≡ status_number self.now }
    {
        match self {
            Status::Done => 0,
            Status::Words => 2,
            Status::Script { .. } => 3,
            Status::ReadFault => 4,
            Status::WriteFault => 5,
            Status::Memory => 6,
            Status::TooLong => 7,
            Status::Stopped => 9,
        }
    }
}

// What is due for words that ask for no number's script: they are judged first, then reading, then the script.
fn judge_command<R: Threads + Sync, G: Gate, S: Source>(
    rt: &R,
    alloc: Global,
    gate: &G,
    words: &Vec<String>,
    source: &mut S,
) -> Result<Answer, Memory>
    requires make { IsMake words.now → ⊥ }
    requires load { IsLoad words.now → ⊥ }
    ensures due { IfOk result (λ answer. IsDue record {
      words = words.now;
      left = S.left source.old;
      left' = S.left source.new;
      faults = S.faults source.old;
      faults' = S.faults source.new;
    } answer.status (string_bytes answer.text)) }
    ensures most { GivesAtMost 1048577 (S.left source.old) (S.left source.new) }
    ensures unread { (IsCommand words.now → ⊥) → source.new ≡ source.old }
    ensures free { IfOk result (λ answer. answer.status ≡ Status.Stopped → G.is_free gate.now ≡ true → ⊥) }
    ensures steady { IfOk result (λ answer. (answer.status ≡ Status.ReadFault) ⊎ (S.faults source.new ≡ S.faults source.old)) }
{
    let Some(command) = command_of(words) else {
        return line(alloc, Status::Words, "words not understood\n");
    };
    match read_all(alloc, source) {
        Ok(bytes) => judge_input(rt, alloc, gate, command, &bytes),
        Err(ReadError::Memory) => Err(Memory),
        Err(ReadError::Failed) => line(alloc, Status::ReadFault, "read failed\n"),
        Err(ReadError::TooLong) => line(alloc, Status::TooLong, "too long\n"),
    }
}

// The answer that is the summary of the script of a number.
fn answer_load(alloc: Global, number: u32) -> Result<Answer, Memory>
    ensures status { IfOk result (λ answer. answer.status ≡ Status.Done) }
    ensures text { IfOk result (λ answer. IsSummary number (string_bytes answer.text)) }
{
    let script = made_script(alloc, number)?;
    let Script {
        version: _,
        setup,
        lists,
        order,
    } = script;
    let text = summarize(alloc, &setup, lists, &order)?;
    Ok(made(text))
}

// What is due: words are judged first. Where they ask for the script of a number, it is that script's text; where for its
// summary, that.
fn judge<R: Threads + Sync, G: Gate, S: Source>(
    rt: &R,
    alloc: Global,
    gate: &G,
    words: &Vec<String>,
    source: &mut S,
) -> Result<Answer, Memory>
    ensures due { IfOk result (λ answer. IsDue record {
      words = words.now;
      left = S.left source.old;
      left' = S.left source.new;
      faults = S.faults source.old;
      faults' = S.faults source.new;
    } answer.status (string_bytes answer.text)) }
    ensures most { GivesAtMost 1048577 (S.left source.old) (S.left source.new) }
    ensures unread { (IsCommand words.now → ⊥) → source.new ≡ source.old }
    ensures free { IfOk result (λ answer. answer.status ≡ Status.Stopped → G.is_free gate.now ≡ true → ⊥) }
    ensures steady { IfOk result (λ answer. (answer.status ≡ Status.ReadFault) ⊎ (S.faults source.new ≡ S.faults source.old)) }
{
    if let Some(number) = number_after(words, "make") {
        let text = load_script(alloc, number)?;
        return Ok(made(text));
    }
    if let Some(number) = number_after(words, "load") {
        return answer_load(alloc, number);
    }
    judge_command(rt, alloc, gate, words, source)
}

// Writes the text, and answers the status that is due with it, or that the sink failed.
fn finish<K: Sink>(sink: &mut K, answer: &Answer) -> Status
    ensures { Finishes answer.now.status (string_bytes answer.now.text)
        (K.faults sink.old) (K.faults sink.new) (K.held sink.old) (K.held sink.new) result }
{
    match write_all(sink, answer.text.as_bytes()) {
        Ok(()) => answer.status,
        Err(_) => Status::WriteFault,
    }
}

/// Does all that the program does: judges the words, reads the source, takes the script and writes
/// the sink.
///
/// Words other than `replay`, `trace`, `draw`, `run`, `plain`, `print`, `ends`, `sched`, `check`, `origins` or `worlds` alone,
/// `draw` with a page's number from 1 to 4,294,967,295, `explain` with `print`, `ends`, `sched` or `check`, and `make` and
/// `load` with a number from 0 to 4,294,967,295, are `Words`, and nothing is read. Under `make` and `load` nothing is read
/// either, and the status is `Done`: `make` writes the text of the number's script, and `load` takes the steps of that
/// script as `replay` does and writes their summary.
/// A source that fails is `ReadFault`, and one that gives a byte past 1,048,576 is `TooLong`; no more
/// than that byte is taken. An input that is no script is `Script`, with its first fault. Under
/// `replay` and `run` the script's steps are taken and their text is written, the reply lines and
/// the tables, and the status is `Done`. Under `trace` the steps are taken as under `replay`; the head
/// of the script is written and then a line for each event with the steps since the line before, and
/// the status is `Done`. Under `draw` they are taken so too, and a picture of a page of them is written,
/// as SVG, the first or the one of the number, and the status is `Done`; a page past the end is a picture
/// of one sentence. `run` makes each core's calls in a thread of its own
/// where one can be made, and asks the gate before each call: where the gate stops a core, which a
/// free one never does, the status is `Stopped` and nothing is written. Under `plain` the calls of
/// each script are made alone, core 0's first, whatever its order says; their text is written, the
/// reply lines and the tables, and the status is `Done`. Under `print` each script is written in
/// its printed form, and the status is `Done`. Under `ends` the input is a script with endpoint
/// calls after it: its lists are made as by `run`, and after all of them each core's endpoint calls,
/// by threads in the same way and with the gate asked before each; their text is written, the reply
/// lines, the lines of the endpoint calls and those of the frames, and the status is `Done`, or
/// `Stopped` as under `run`. Under `sched` the input is a script of one core with tasks after it: its
/// calls are made, and then the schedule of the tasks; the turns are written and then a line for each
/// task, and the status is `Done`. Under `check` the input is a given history; its verdict is written,
/// and the status is `Done`, whatever the verdict. Under `origins` the steps are taken as under
/// `replay`; a line for each link of each capability that is held in the end is written, and the status
/// is `Done`. Under `worlds` the steps are taken so too; a line for each world that is apart in the end is written, and
/// one for each gate between them, and the status is `Done`. Under `explain` what is told of the input of the command that
/// is named is written: where and why that
/// command would refuse it, or that it would not; the status is `Done` either way. Each of the other statuses writes
/// its line in place of the text. A sink that fails is `WriteFault`, and holds a prefix of what was due. `Memory` may
/// come in place of any status, and has written nothing. No read and no write that failed is tried
/// again.
pub fn speck<R: Threads + Sync, G: Gate, S: Source, K: Sink>(
    rt: &R,
    alloc: Global,
    gate: &G,
    words: &Vec<String>,
    source: &mut S,
    sink: &mut K,
) -> Status
    // What each command has written where it is done.
    ensures replay { Asks words.now commands.Replay → result ≡ Status.Done
        → CarriesOut (IsMade script_of (λ script text. GivenSteps script.setup script.lists script.order text))
        (S.left source.old) (S.left source.new) (K.held sink.old) (K.held sink.new) }
    ensures trace { Asks words.now commands.Trace → result ≡ Status.Done
        → CarriesOut (IsMade script_of (λ script text. GivenTrace script.version script.setup script.lists script.order text))
        (S.left source.old) (S.left source.new) (K.held sink.old) (K.held sink.new) }
    ensures draw { (page : ℕ) → Asks words.now (commands.Draw page) → result ≡ Status.Done
        → CarriesOut (IsMade script_of (λ script text. GivenDrawing page script.setup script.lists script.order text))
        (S.left source.old) (S.left source.new) (K.held sink.old) (K.held sink.new) }
    ensures run { Asks words.now commands.Run → result ≡ Status.Done
        → CarriesOut (IsMade script_of (λ script text. TakenSteps script.setup script.lists text))
        (S.left source.old) (S.left source.new) (K.held sink.old) (K.held sink.new) }
    ensures plain { Asks words.now commands.Plain → result ≡ Status.Done
        → CarriesOut (IsMade script_of (λ script text. text ≡ plain_text script.setup (list_of script.lists)))
        (S.left source.old) (S.left source.new) (K.held sink.old) (K.held sink.new) }
    ensures print { Asks words.now commands.Print → result ≡ Status.Done
        → CarriesOut (IsMade script_of (λ script text. text ≡ printed script))
        (S.left source.old) (S.left source.new) (K.held sink.old) (K.held sink.new) }
    ensures ends { Asks words.now commands.Ends → result ≡ Status.Done
        → CarriesOut (IsMade input_of (λ input text. EndsText input.script.setup input.script.lists input.asks text))
        (S.left source.old) (S.left source.new) (K.held sink.old) (K.held sink.new) }
    ensures sched { Asks words.now commands.Sched → result ≡ Status.Done
        → CarriesOut (IsMade sched_input_of SchedTrace)
        (S.left source.old) (S.left source.new) (K.held sink.old) (K.held sink.new) }
    ensures check { Asks words.now commands.Check → result ≡ Status.Done
        → CarriesOut (IsMade history_of IsJudged)
        (S.left source.old) (S.left source.new) (K.held sink.old) (K.held sink.new) }
    ensures origins { Asks words.now commands.Origins → result ≡ Status.Done
        → CarriesOut (IsMade script_of (λ script text. GivenOrigins script.setup script.lists script.order text))
        (S.left source.old) (S.left source.new) (K.held sink.old) (K.held sink.new) }
    ensures worlds { Asks words.now commands.Worlds → result ≡ Status.Done
        → CarriesOut (IsMade script_of (λ script text. GivenWorlds script.setup script.lists script.order text))
        (S.left source.old) (S.left source.new) (K.held sink.old) (K.held sink.new) }
    ensures explain { (reading : Reading) → Asks words.now (commands.Explain reading) → result ≡ Status.Done
        → CarriesOut (IsMade Ok (IsExplained reading)) (S.left source.old) (S.left source.new) (K.held sink.old) (K.held sink.new) }
    ensures make { (number : ℕ) → AsksMake words.now number → result ≡ Status.Done
        → Adds (load_text number) (K.held sink.old) (K.held sink.new) }
    ensures load { (number : ℕ) → AsksLoad words.now number → result ≡ Status.Done
        → WritesSummary number (K.held sink.old) (K.held sink.new) }
    ensures done { result ≡ Status.Done → IsUnderstood words.now }

    // Words are judged first: nothing is read for others, and for those that ask for no script to be read.
    ensures words { result ≡ Status.Words → IsUnderstood words.now → ⊥ }
    ensures other_words { (IsUnderstood words.now → ⊥) → IsUnlessUnwritten Status.Words result }
    ensures made { (number : ℕ) → AsksMake words.now number → IsUnlessUnwritten Status.Done result }
    ensures loaded { (number : ℕ) → AsksLoad words.now number → IsUnlessUnwritten Status.Done result }
    ensures unread { (IsCommand words.now → ⊥) → source.new ≡ source.old }

    // Then reading, then the script.
    ensures answers { (command : Command) → Asks words.now command → Answers command (S.left source.old) result }
    ensures script { (line : ℕ) (cause : Cause) → result ≡ Status.Script line cause
        → InputFaults words.now (S.left source.old) (S.left source.new) line cause }
    // Threads are stopped by a gate that is not free alone.
    ensures stopped { result ≡ Status.Stopped
        → InputRuns words.now (S.left source.old) (S.left source.new) × (G.is_free gate.now ≡ true → ⊥) }
    ensures long { result ≡ Status.TooLong
        → IsCommand words.now × Gives 1048577 (S.left source.old) (S.left source.new) }
    ensures most { GivesAtMost 1048577 (S.left source.old) (S.left source.new) }

    // A read fault comes where the source has failed, and where it has failed nothing else is told.
    ensures read { result ≡ Status.ReadFault
        → IsCommand words.now × HasRisen (S.faults source.old) (S.faults source.new) }
    ensures failed_read { S.faults source.old < S.faults source.new → IsUnlessUnwritten Status.ReadFault result }
    ensures sure_source { ((s : S) → S.faults s ≡ 0) → result ≡ Status.ReadFault → ⊥ }

    // Then writing.
    ensures writes { Writes record {
      words = words.now;
      left = S.left source.old;
      left' = S.left source.new;
      faults = S.faults source.old;
      faults' = S.faults source.new;
    } (K.held sink.old) (K.held sink.new) result }

    // A write fault comes where the sink has failed, and there alone.
    ensures write { result ≡ Status.WriteFault → HasRisen (K.faults sink.old) (K.faults sink.new) }
    ensures failed_write { K.faults sink.old < K.faults sink.new → result ≡ Status.WriteFault }
    ensures sure_sink { ((k : K) → K.faults k ≡ 0) → result ≡ Status.WriteFault → ⊥ }
    ensures complete { (command : Command) → Asks words.now command
        → IsAccepted command (S.left source.old)
        → (UsesThreads command → G.is_free gate.now ≡ true)
        → (HasRisen (S.faults source.old) (S.faults source.new) → ⊥)
        → (HasRisen (K.faults sink.old) (K.faults sink.new) → ⊥)
        → (result ≡ Status.Done) ⊎ (result ≡ Status.Memory) }
{
    match judge(rt, alloc, gate, words, source) {
        Ok(answer) => finish(sink, &answer),
        Err(Memory) => Status::Memory,
    }
}
