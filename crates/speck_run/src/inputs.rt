//! What is due for an input that was read to its end, under each command.

ghost use Rattle.std.specs.Prelude.{◌≡◌, ◌≤◌, true, IfOk, length, string_bytes};
ghost use Rattle.speck_run.specs.declared.words.Command.TheVariants as commands;
ghost use Rattle.speck_run.specs.Top.{IsDueOf};

use crate::answers::{Answer, line, made, refuse};
use crate::apart::worlds;
use crate::ends::make_ends;
use crate::given::replay;
use crate::runs::run_lists;
use crate::top::Status;
use crate::words::Command;
use draw_run::draw;
use ends_run::core_runs::Gate;
use explain_run::check_run::check;
use explain_run::ends_reader::read_ends;
use explain_run::{Reading, explain};
use load_maker::script_printer::print;
use load_maker::script_reader::{ReadFault, Script, read};
use one_core::run_sched;
use origins_run::origins;
use plain_run::plain;
use spk_nums::Memory;
use std::alloc::Global;
use std::thread::Threads;
use trace_run::trace;

// What is due under `replay`.
fn judge_replay(alloc: Global, bytes: &[u8]) -> Result<Answer, Memory>
    requires { length bytes.now ≤ 1048576 }
    ensures due { IfOk result (λ answer. IsDueOf commands.Replay bytes.now answer.status (string_bytes answer.text)) }
    ensures free { IfOk result (λ answer. answer.status ≡ Status.Stopped → ⊥) }
{
    let script = match read(alloc, bytes) {
        Ok(script) => script,
        Err(ReadFault::Memory) => return Err(Memory),
        Err(ReadFault::Script { line, cause }) => return refuse(alloc, line, cause),
    };
    let Script {
        version: _,
        setup,
        lists,
        order,
    } = script;
    let text = replay(alloc, &setup, lists, &order)?;
    Ok(made(text))
}

// What is due under `trace`.
fn judge_trace(alloc: Global, bytes: &[u8]) -> Result<Answer, Memory>
    requires { length bytes.now ≤ 1048576 }
    ensures due { IfOk result (λ answer. IsDueOf commands.Trace bytes.now answer.status (string_bytes answer.text)) }
    ensures free { IfOk result (λ answer. answer.status ≡ Status.Stopped → ⊥) }
{
    let script = match read(alloc, bytes) {
        Ok(script) => script,
        Err(ReadFault::Memory) => return Err(Memory),
        Err(ReadFault::Script { line, cause }) => return refuse(alloc, line, cause),
    };
    let Script {
        version,
        setup,
        lists,
        order,
    } = script;
    let text = trace(alloc, version, &setup, lists, &order)?;
    Ok(made(text))
}

// What is due under `draw`, of this page.
fn judge_draw(alloc: Global, page: u32, bytes: &[u8]) -> Result<Answer, Memory>
    requires { length bytes.now ≤ 1048576 }
    ensures due { IfOk result (λ answer. IsDueOf (commands.Draw page) bytes.now answer.status (string_bytes answer.text)) }
    ensures free { IfOk result (λ answer. answer.status ≡ Status.Stopped → ⊥) }
{
    let script = match read(alloc, bytes) {
        Ok(script) => script,
        Err(ReadFault::Memory) => return Err(Memory),
        Err(ReadFault::Script { line, cause }) => return refuse(alloc, line, cause),
    };
    let Script {
        version: _,
        setup,
        lists,
        order,
    } = script;
    let text = draw(alloc, page, &setup, lists, &order)?;
    Ok(made(text))
}

// What is due under `run`.
fn judge_run<R: Threads + Sync, G: Gate>(
    rt: &R,
    alloc: Global,
    gate: &G,
    bytes: &[u8],
) -> Result<Answer, Memory>
    requires { length bytes.now ≤ 1048576 }
    ensures due { IfOk result (λ answer. IsDueOf commands.Run bytes.now answer.status (string_bytes answer.text)) }
    ensures free { IfOk result (λ answer. answer.status ≡ Status.Stopped → G.is_free gate.now ≡ true → ⊥) }
{
    let script = match read(alloc, bytes) {
        Ok(script) => script,
        Err(ReadFault::Memory) => return Err(Memory),
        Err(ReadFault::Script { line, cause }) => return refuse(alloc, line, cause),
    };
    match run_lists(rt, alloc, &script, gate)? {
        Some(text) => Ok(made(text)),
        None => line(alloc, Status::Stopped, ""),
    }
}

// What is due under `plain`.
fn judge_plain(alloc: Global, bytes: &[u8]) -> Result<Answer, Memory>
    requires { length bytes.now ≤ 1048576 }
    ensures due { IfOk result (λ answer. IsDueOf commands.Plain bytes.now answer.status (string_bytes answer.text)) }
    ensures free { IfOk result (λ answer. answer.status ≡ Status.Stopped → ⊥) }
{
    match read(alloc, bytes) {
        Ok(script) => {
            let text = plain(alloc, &script.setup, &script.lists)?;
            Ok(made(text))
        }
        Err(ReadFault::Memory) => Err(Memory),
        Err(ReadFault::Script { line, cause }) => refuse(alloc, line, cause),
    }
}

// What is due under `print`.
fn judge_print(alloc: Global, bytes: &[u8]) -> Result<Answer, Memory>
    requires { length bytes.now ≤ 1048576 }
    ensures due { IfOk result (λ answer. IsDueOf commands.Print bytes.now answer.status (string_bytes answer.text)) }
    ensures free { IfOk result (λ answer. answer.status ≡ Status.Stopped → ⊥) }
{
    match read(alloc, bytes) {
        Ok(script) => {
            let text = print(alloc, &script)?;
            Ok(made(text))
        }
        Err(ReadFault::Memory) => Err(Memory),
        Err(ReadFault::Script { line, cause }) => refuse(alloc, line, cause),
    }
}

// What is due under `ends`.
fn judge_ends<R: Threads + Sync, G: Gate>(
    rt: &R,
    alloc: Global,
    gate: &G,
    bytes: &[u8],
) -> Result<Answer, Memory>
    requires { length bytes.now ≤ 1048576 }
    ensures due { IfOk result (λ answer. IsDueOf commands.Ends bytes.now answer.status (string_bytes answer.text)) }
    ensures free { IfOk result (λ answer. answer.status ≡ Status.Stopped → G.is_free gate.now ≡ true → ⊥) }
{
    let input = match read_ends(alloc, bytes) {
        Ok(input) => input,
        Err(ReadFault::Memory) => return Err(Memory),
        Err(ReadFault::Script { line, cause }) => return refuse(alloc, line, cause),
    };
    match make_ends(rt, alloc, &input, gate)? {
        Some(text) => Ok(made(text)),
        None => line(alloc, Status::Stopped, ""),
    }
}

// What is due under `sched`. It starts no thread and asks no gate.
fn judge_sched(alloc: Global, bytes: &[u8]) -> Result<Answer, Memory>
    requires { length bytes.now ≤ 1048576 }
    ensures due { IfOk result (λ answer. IsDueOf commands.Sched bytes.now answer.status (string_bytes answer.text)) }
    ensures free { IfOk result (λ answer. answer.status ≡ Status.Stopped → ⊥) }
{
    match run_sched(alloc, bytes) {
        Ok(text) => Ok(made(text)),
        Err(ReadFault::Memory) => Err(Memory),
        Err(ReadFault::Script { line, cause }) => refuse(alloc, line, cause),
    }
}

// What is due under `check`.
fn judge_history(alloc: Global, bytes: &[u8]) -> Result<Answer, Memory>
    requires { length bytes.now ≤ 1048576 }
    ensures due { IfOk result (λ answer. IsDueOf commands.Check bytes.now answer.status (string_bytes answer.text)) }
    ensures free { IfOk result (λ answer. answer.status ≡ Status.Stopped → ⊥) }
{
    match check(alloc, bytes) {
        Ok(text) => Ok(made(text)),
        Err(ReadFault::Memory) => Err(Memory),
        Err(ReadFault::Script { line, cause }) => refuse(alloc, line, cause),
    }
}

// What is due under `origins`.
fn judge_origins(alloc: Global, bytes: &[u8]) -> Result<Answer, Memory>
    requires { length bytes.now ≤ 1048576 }
    ensures due { IfOk result (λ answer. IsDueOf commands.Origins bytes.now answer.status (string_bytes answer.text)) }
    ensures free { IfOk result (λ answer. answer.status ≡ Status.Stopped → ⊥) }
{
    let script = match read(alloc, bytes) {
        Ok(script) => script,
        Err(ReadFault::Memory) => return Err(Memory),
        Err(ReadFault::Script { line, cause }) => return refuse(alloc, line, cause),
    };
    let Script {
        version: _,
        setup,
        lists,
        order,
    } = script;
    let text = origins(alloc, &setup, lists, &order)?;
    Ok(made(text))
}

// What is due under `worlds`.
fn judge_worlds(alloc: Global, bytes: &[u8]) -> Result<Answer, Memory>
    requires { length bytes.now ≤ 1048576 }
    ensures due { IfOk result (λ answer. IsDueOf commands.Worlds bytes.now answer.status (string_bytes answer.text)) }
    ensures free { IfOk result (λ answer. answer.status ≡ Status.Stopped → ⊥) }
{
    let script = match read(alloc, bytes) {
        Ok(script) => script,
        Err(ReadFault::Memory) => return Err(Memory),
        Err(ReadFault::Script { line, cause }) => return refuse(alloc, line, cause),
    };
    let Script {
        version: _,
        setup,
        lists,
        order,
    } = script;
    let text = worlds(alloc, &setup, lists, &order)?;
    Ok(made(text))
}

// What is due under `explain`.
fn judge_explain(alloc: Global, reading: Reading, bytes: &[u8]) -> Result<Answer, Memory>
    requires { length bytes.now ≤ 1048576 }
    ensures due { IfOk result (λ answer. IsDueOf (commands.Explain reading) bytes.now answer.status (string_bytes answer.text)) }
    ensures free { IfOk result (λ answer. answer.status ≡ Status.Stopped → ⊥) }
{
    let text = explain(alloc, reading, bytes)?;
    Ok(made(text))
}

/// What is due for an input that was read to its end.
pub fn judge_input<R: Threads + Sync, G: Gate>(
    rt: &R,
    alloc: Global,
    gate: &G,
    command: Command,
    bytes: &[u8],
) -> Result<Answer, Memory>
    requires { length bytes.now ≤ 1048576 }
    ensures due { IfOk result (λ answer. IsDueOf command bytes.now answer.status (string_bytes answer.text)) }
    ensures free { IfOk result (λ answer. answer.status ≡ Status.Stopped → G.is_free gate.now ≡ true → ⊥) }
{
    match command {
        Command::Replay => judge_replay(alloc, bytes),
        Command::Trace => judge_trace(alloc, bytes),
        Command::Draw { page } => judge_draw(alloc, page, bytes),
        Command::Run => judge_run(rt, alloc, gate, bytes),
        Command::Plain => judge_plain(alloc, bytes),
        Command::Print => judge_print(alloc, bytes),
        Command::Ends => judge_ends(rt, alloc, gate, bytes),
        Command::Sched => judge_sched(alloc, bytes),
        Command::Check => judge_history(alloc, bytes),
        Command::Origins => judge_origins(alloc, bytes),
        Command::Worlds => judge_worlds(alloc, bytes),
        Command::Explain(reading) => judge_explain(alloc, reading, bytes),
    }
}
