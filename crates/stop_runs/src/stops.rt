//! The stops of a pair of calls.

use crate::fault::Fault;
use crate::judge::most_steps;
use crate::machine::Machine;
use script_reader::Script;
use spk_nums::{Call, CoreNo, Memory, Reply, Value};
use std::alloc::Global;

/// How many stops of a core passed, and what the first that did not shows.
#[derive(Debug, Drop)]
pub struct Stops {
    /// How many passed.
    pub passed: u32,
    /// After how many steps the core stopped at the first that did not, and why it did not pass.
    pub failed: Option<String>,
}

// The stops of a core of which one, after so many steps, does not pass.
fn failed(alloc: Global, passed: u32, steps: u32, fault: &Fault) -> Result<Stops, Memory> {
    let text = format!(in alloc; "stops after {steps} steps: {fault}")?;
    Ok(Stops {
        passed,
        failed: Some(text),
    })
}

// The number of calls in a core's list.
fn calls_of(script: &Script, core: CoreNo) -> usize {
    match script.lists.get(usize::from(core.number())) {
        Some(list) => list.len(),
        None => 0,
    }
}

// The last call of a core.
fn last_call(script: &Script, core: CoreNo) -> Option<Call> {
    match script.lists.get(usize::from(core.number()))?.last() {
        Some(call) => Some(*call),
        None => None,
    }
}

// Whether a core is between calls, and has one call still to make.
fn is_before_last(machine: &Machine, script: &Script, core: CoreNo) -> bool {
    !machine.is_in_call(core) && machine.begun(core).saturating_add(1) == calls_of(script, core)
}

// Takes a core through its calls, but for the last so many.
fn make_calls(
    alloc: Global,
    machine: &mut Machine,
    script: &Script,
    core: CoreNo,
    left: usize,
) -> Result<(), Fault> {
    let _reply: Option<Reply> = None;
    let _value: Option<Value> = None;
    let last = calls_of(script, core).saturating_sub(left);
    for _ in 0..last {
        if last <= machine.begun(core) && !machine.is_in_call(core) {
            return Ok(());
        }
        machine.to_return(alloc, core)?;
    }
    Ok(())
}

// Sets the scene: the items of the order, then the calls of cores 0 and 1 but for their last.
fn set_scene(
    alloc: Global,
    machine: &mut Machine,
    script: &Script,
    first: CoreNo,
    second: CoreNo,
) -> Result<(), Fault> {
    for item in &script.order {
        machine.take(alloc, item)?;
    }
    make_calls(alloc, machine, script, CoreNo::new(0), 1)?;
    make_calls(alloc, machine, script, CoreNo::new(1), 1)?;
    if !is_before_last(machine, script, first) || !is_before_last(machine, script, second) {
        return Err(Fault::SceneTooLong);
    }
    match machine.refused() {
        None => Ok(()),
        Some((core, reply)) => Err(Fault::SceneRefused { core, reply }),
    }
}

// One stop: the first core makes so many steps of its call, the second makes its call, and the first goes on to its return; then each core
// makes what is left of its list. Whether the first core's call had returned before it had made so many steps.
fn stop(
    alloc: Global,
    script: &Script,
    first: CoreNo,
    second: CoreNo,
    steps: u32,
) -> Result<bool, Fault> {
    let mut machine = Machine::boot(alloc, &script.setup, &script.lists)?;
    set_scene(alloc, &mut machine, script, first, second)?;
    for made in 0..steps {
        if 0 < made && !machine.is_in_call(first) {
            return Ok(true);
        }
        machine.step(alloc, first)?;
    }
    machine.to_return(alloc, second)?;
    for number in 0..script.setup.cores() {
        make_calls(alloc, &mut machine, script, CoreNo::new(number), 0)?;
    }
    machine.close(alloc)?;
    Ok(false)
}

/// Makes every stop of a core's last call, at which another makes its own, up to the first that does not pass. It fails only where memory
/// runs out.
pub fn make_stops(
    alloc: Global,
    script: &Script,
    first: CoreNo,
    second: CoreNo,
) -> Result<Stops, Memory> {
    let Some(call) = last_call(script, first) else {
        return failed(alloc, 0, 0, &Fault::NoPair);
    };
    let most = most_steps(&call, script.setup.cores());
    let mut passed: u32 = 0;
    for steps in 0..most.saturating_add(2) {
        match stop(alloc, script, first, second, steps) {
            Ok(false) => passed = passed.saturating_add(1),
            Ok(true) => return Ok(Stops {
                passed,
                failed: None,
            }),
            Err(Fault::Memory) => return Err(Memory),
            Err(fault) => return failed(alloc, passed, steps, &fault),
        }
    }
    failed(alloc, passed, most, &Fault::TooLong(first))
}
