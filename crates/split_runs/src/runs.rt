//! The runs of a script, one for each seed.

use crate::calls::draw_call;
use crate::draws::Draws;
use crate::fault::Fault;
use crate::machine::{Machine, Seat};
use crate::names::FIRST_OTHER;
use crate::tally::Tally;
use script_reader::Script;
use spk_nums::{Call, CoreNo, FrameNo};
use std::alloc::Global;
use step_views::StepMade;
use trace_lines::push_step;
use world_parts::Parts;
use world_sides::{has_frame, is_own};

/// How many calls are drawn for each core.
pub const CALLS: u32 = 400;

// No run makes so many steps.
const MOST_STEPS: u32 = 1_000_000;

// The lists of the script, each with drawn calls after it.
fn draw_lists(alloc: Global, script: &Script, draws: &mut Draws) -> Result<Vec<Vec<Call>>, Fault> {
    let mut lists = Vec::with_capacity(alloc, script.lists.len())?;
    let mut core = CoreNo::new(0);
    for list in &script.lists {
        let mut calls = Vec::from_slice(alloc, list.as_slice())?;
        for _ in 0..CALLS {
            calls.push(draw_call(draws, core))?;
        }
        lists.push(calls)?;
        core = CoreNo::new(1);
    }
    Ok(lists)
}

// How many calls the script's lists have.
fn scene_calls(script: &Script) -> usize {
    let mut calls: usize = 0;
    for list in &script.lists {
        calls = calls.saturating_add(list.len());
    }
    calls
}

// The core that makes the next step: each of the two as likely, while both have steps to make.
fn draw_core(machine: &Machine, draws: &mut Draws) -> Option<CoreNo> {
    let (zero, one) = (CoreNo::new(0), CoreNo::new(1));
    let first = draws.is_one_in(2);
    if machine.is_finished(zero) {
        return if machine.is_finished(one) {
            None
        } else {
            Some(one)
        };
    }
    if first || machine.is_finished(one) {
        return Some(zero);
    }
    Some(one)
}

// What is told of a step on the other side.
fn crossed(alloc: Global, begun: u32, call: &Call, made: &StepMade) -> Result<Fault, Fault> {
    let core = made.view.core;
    let mut text = format!(in alloc; "{core}.{begun} {call}: ")?;
    push_step(&mut text, &made.view)?;
    Ok(Fault::Crossed(text))
}

// Whether a step is on its core's side; and counts it.
fn check_step(
    alloc: Global,
    machine: &Machine,
    tally: &mut Tally,
    made: &StepMade,
) -> Result<(), Fault> {
    let Seat { begun, call } = machine.seat(made.view.core);
    let Some(call) = call else {
        return Err(Fault::Astray(made.view.core));
    };
    tally.step();
    if !is_own(FIRST_OTHER, &made.view) {
        return Err(crossed(alloc, begun, &call, made)?);
    }
    if let Some(reply) = &made.decides {
        tally.decide(&call, reply)?;
    }
    Ok(())
}

// Makes the steps of both cores, in a drawn order.
fn interleave(
    alloc: Global,
    machine: &mut Machine,
    draws: &mut Draws,
    tally: &mut Tally,
) -> Result<(), Fault> {
    for _ in 0..MOST_STEPS {
        let Some(core) = draw_core(machine, draws) else {
            return Ok(());
        };
        let Some(made) = machine.step(core) else {
            return Err(Fault::Astray(core));
        };
        check_step(alloc, machine, tally, &made)?;
    }
    Err(Fault::TooLong)
}

// Whether each world that is left is on one side.
fn check_worlds(parts: &Parts, frames: u16) -> Result<(), Fault> {
    let zero = CoreNo::new(0);
    for number in 0..frames.min(512) {
        let frame = FrameNo::new(number);
        let least = parts.world(frame);
        if has_frame(FIRST_OTHER, zero, frame) != has_frame(FIRST_OTHER, zero, least) {
            return Err(Fault::Joined(frame));
        }
    }
    Ok(())
}

/// A run: the scene, then the drawn calls of both cores, step by step in a drawn order.
pub fn run(alloc: Global, script: &Script, seed: u32, tally: &mut Tally) -> Result<(), Fault> {
    let mut draws = Draws::from(seed);
    let lists = draw_lists(alloc, script, &mut draws)?;
    let mut machine = Machine::boot(alloc, &script.setup, lists)?;
    machine.set_scene(&script.order, scene_calls(script))?;
    interleave(alloc, &mut machine, &mut draws, tally)?;
    let parts = machine.close(alloc)?;
    check_worlds(&parts, script.setup.frames())
}
