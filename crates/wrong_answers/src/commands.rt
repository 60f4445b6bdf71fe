//! What each command has written where it is done. Beside the words of the call stand others, which ask for something else.

ghost use Rattle.std.specs.Prelude.{◌≡◌, ℕ, Ok};
ghost use Rattle.speck_run.specs.trace_run.specs.lone_kernel.specs.kernel_history.specs.Order.{list_of};
ghost use Rattle.speck_run.specs.trace_run.specs.lone_kernel.specs.kernel_history.specs.Text.{plain_text};
ghost use Rattle.speck_run.specs.draw_run.specs.GivenDrawing.{GivenDrawing};
ghost use Rattle.script_reader.specs.Readings.{script_of};
ghost use Rattle.speck_run.specs.one_core.specs.sched_reader.specs.Inputs.{input_of as sched_input_of};
ghost use Rattle.speck_run.specs.one_core.specs.Scheduled.{SchedTrace};
ghost use Rattle.speck_run.specs.check_run.specs.history_reader.specs.Inputs.{history_of};
ghost use Rattle.speck_run.specs.check_run.specs.Checked.{IsJudged};
ghost use Rattle.speck_run.specs.explain_run.specs.Explained.{IsExplained};
ghost use Rattle.speck_run.specs.explain_run.specs.line_forms.specs.declared.context.Reading.{Reading};
ghost use Rattle.speck_run.specs.explain_run.specs.line_forms.specs.declared.context.Reading.TheVariants as reading;
ghost use Rattle.speck_run.specs.declared.words.Command.TheVariants as commands;
ghost use Rattle.speck_run.specs.Top.{Asks, AsksLoad, CarriesOut, WritesSummary};
ghost use Rattle.speck_run.specs.Script.{IsMade};

use byte_ends::{Sink, Source};
use speck_run::{Gate, Status, speck};
use std::alloc::Global;
use std::thread::Threads;

/// Under `plain` the text is that of the script's calls made alone. The others ask for `print`.
pub fn plain<R: Threads + Sync, G: Gate, S: Source, K: Sink>(
    rt: &R,
    alloc: Global,
    gate: &G,
    words: &Vec<String>,
    _others: &Vec<String>,
    source: &mut S,
    sink: &mut K,
) -> Status
    requires { Asks _others.now commands.Print }
    ensures { Asks words.now commands.Plain → result ≡ Status.Done
        → CarriesOut (IsMade script_of (λ script text. text ≡ plain_text script.setup (list_of script.lists)))
        (S.left source.old) (S.left source.new) (K.held sink.old) (K.held sink.new) }
{
    let plain = words;
    speck(rt, alloc, gate, plain, source, sink)
}

/// Under `check` the text is that of the history's verdict. The others ask for `print`.
pub fn check<R: Threads + Sync, G: Gate, S: Source, K: Sink>(
    rt: &R,
    alloc: Global,
    gate: &G,
    words: &Vec<String>,
    _others: &Vec<String>,
    source: &mut S,
    sink: &mut K,
) -> Status
    requires { Asks _others.now commands.Print }
    ensures { Asks words.now commands.Check → result ≡ Status.Done
        → CarriesOut (IsMade history_of IsJudged)
        (S.left source.old) (S.left source.new) (K.held sink.old) (K.held sink.new) }
{
    let check = words;
    speck(rt, alloc, gate, check, source, sink)
}

/// Under `explain` the text is what is told of what the named command reads. The others ask for `explain print`.
pub fn explains<R: Threads + Sync, G: Gate, S: Source, K: Sink>(
    rt: &R,
    alloc: Global,
    gate: &G,
    words: &Vec<String>,
    _others: &Vec<String>,
    source: &mut S,
    sink: &mut K,
) -> Status
    requires { Asks _others.now (commands.Explain reading.Script) }
    ensures { (r : Reading) → Asks words.now (commands.Explain r) → result ≡ Status.Done
        → CarriesOut (IsMade Ok (IsExplained r)) (S.left source.old) (S.left source.new) (K.held sink.old) (K.held sink.new) }
{
    let explains = words;
    speck(rt, alloc, gate, explains, source, sink)
}

/// Under `sched` the text is that of the schedule of the input's tasks. The others ask for `plain`.
pub fn sched<R: Threads + Sync, G: Gate, S: Source, K: Sink>(
    rt: &R,
    alloc: Global,
    gate: &G,
    words: &Vec<String>,
    _others: &Vec<String>,
    source: &mut S,
    sink: &mut K,
) -> Status
    requires { Asks _others.now commands.Plain }
    ensures { Asks words.now commands.Sched → result ≡ Status.Done
        → CarriesOut (IsMade sched_input_of SchedTrace)
        (S.left source.old) (S.left source.new) (K.held sink.old) (K.held sink.new) }
{
    let sched = words;
    speck(rt, alloc, gate, sched, source, sink)
}

/// Under `draw` the text is the picture of the steps. The others ask for `trace`.
pub fn draws<R: Threads + Sync, G: Gate, S: Source, K: Sink>(
    rt: &R,
    alloc: Global,
    gate: &G,
    words: &Vec<String>,
    _others: &Vec<String>,
    source: &mut S,
    sink: &mut K,
) -> Status
    requires { Asks _others.now commands.Trace }
    ensures { (page : ℕ) → Asks words.now (commands.Draw page) → result ≡ Status.Done
        → CarriesOut (IsMade script_of (λ script text. GivenDrawing page script.setup script.lists script.order text))
        (S.left source.old) (S.left source.new) (K.held sink.old) (K.held sink.new) }
{
    let draws = words;
    speck(rt, alloc, gate, draws, source, sink)
}

/// Under `load` the text is the summary of the number's script. The others ask for that of another number.
pub fn load<R: Threads + Sync, G: Gate, S: Source, K: Sink>(
    rt: &R,
    alloc: Global,
    gate: &G,
    words: &Vec<String>,
    _others: &Vec<String>,
    _other: u32,
    source: &mut S,
    sink: &mut K,
) -> Status
    requires { AsksLoad _others.now _other }
    ensures { (number : ℕ) → AsksLoad words.now number → result ≡ Status.Done
        → WritesSummary number (K.held sink.old) (K.held sink.new) }
{
    let load = words;
    speck(rt, alloc, gate, load, source, sink)
}
