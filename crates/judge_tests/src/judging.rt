//! One decision, judged in a state that a script makes.

use call_judge::decide_by;
use plain_kernel::plain_step;
use plain_tables::tables;
use script_reader::{Script, read, read_call};
use seq_state::SeqKernel;
use spk_nums::{Call, CoreNo, Make, Reply, Value, in_limits};
use std::alloc::Global;
use std::process::Abort;
use std::test::Fail;

/// What the judge makes of a decision.
#[derive(Clone, Copy, Debug, PartialEq, Eq)]
pub enum Verdict {
    /// It is permitted and counted, and the tables change: for an `ok` to those that the call made alone leaves.
    Changes,
    /// It is permitted and counted, and the tables stay.
    Keeps,
    /// It is permitted, and nothing changes.
    Spent,
    /// It is not permitted, and nothing changes.
    Forbidden,
}

/// A decision of a core, and what the judge makes of it.
#[derive(Clone, Copy, Debug)]
pub struct Row {
    /// The core.
    pub core: u8,
    /// Its call, as a line of a script.
    pub call: &'static str,
    /// The reply.
    pub reply: Reply,
    /// What is due.
    pub due: Verdict,
}

/// A state: what the calls of a script leave, core 0's made first, each alone, but that a core may be in a call all the while.
#[derive(Clone, Copy, Debug)]
pub struct Scene {
    /// The script.
    pub script: &'static str,
    /// The core that is in a call.
    pub inside: Option<u8>,
}

fn enter(kernel: &mut SeqKernel, core: u8) {
    if core < kernel.cores() {
        kernel.enter(CoreNo::new(core));
    }
}

fn make(alloc: Global, kernel: &mut SeqKernel, core: u8, call: &Call) -> Result<(), Fail> {
    let _value: Option<Value> = None;
    if core < kernel.cores() && in_limits(call) {
        plain_step(alloc, kernel, CoreNo::new(core), call)?;
    }
    Ok(())
}

fn script_of(alloc: Global, text: &str) -> Result<Script, Fail> {
    if 1_000_000 < text.len() {
        return Err("a short script")?;
    }
    match read(alloc, text.as_bytes()) {
        Ok(script) => Ok(script),
        Err(_) => Err("a script")?,
    }
}

fn call_of(alloc: Global, line: &str) -> Result<Call, Fail> {
    if 1_000_000 < line.len() {
        return Err("a short call")?;
    }
    match read_call(alloc, line.as_bytes()) {
        Ok(call) => Ok(call),
        Err(_) => Err("a call")?,
    }
}

/// The plain kernel in this state.
pub fn set(alloc: Global, scene: &Scene) -> Result<SeqKernel, Fail> {
    let script = script_of(alloc, scene.script)?;
    let mut kernel = SeqKernel::start(alloc, &script.setup)?;
    if let Some(core) = scene.inside {
        enter(&mut kernel, core);
    }
    for core in 0..script.setup.cores() {
        if let Some(list) = script.lists.get(usize::from(core)) {
            for call in list {
                make(alloc, &mut kernel, core, call)?;
            }
        }
    }
    Ok(kernel)
}

// How many calls of a core are counted.
fn counted(kernel: &SeqKernel, core: u8) -> u64 {
    if core < kernel.cores() {
        kernel.core(CoreNo::new(core)).counted
    } else {
        0
    }
}

fn decide(
    alloc: Global,
    kernel: &mut SeqKernel,
    core: u8,
    call: &Call,
    reply: &Reply,
) -> Result<bool, Fail> {
    if core < kernel.cores() && in_limits(call) {
        return Ok(decide_by(alloc, kernel, CoreNo::new(core), call, reply)?);
    }
    Err("a call of the machine")?
}

// What the judge makes of a row's decision.
fn judged(alloc: Global, scene: &Scene, row: &Row) -> Result<Verdict, Fail> {
    let _made: Option<Make> = None;
    let call = call_of(alloc, row.call)?;
    let mut kernel = set(alloc, scene)?;
    if scene.inside != Some(row.core) {
        enter(&mut kernel, row.core);
    }
    let before = tables(alloc, &kernel)?;
    let count = counted(&kernel, row.core);
    let permitted = decide(alloc, &mut kernel, row.core, &call, &row.reply)?;
    let after = tables(alloc, &kernel)?;
    let more = counted(&kernel, row.core).wrapping_sub(count);
    let stays = before.as_str() == after.as_str();
    match (permitted, more, stays) {
        (true, 1, true) => Ok(Verdict::Keeps),
        (true, 1, false) => Ok(Verdict::Changes),
        (true, 0, true) => Ok(Verdict::Spent),
        (false, 0, true) => Ok(Verdict::Forbidden),
        _ => Err("one count or none, and tables that stay where it is forbidden")?,
    }
}

// Whether an `ok` leaves the tables that the call made alone leaves.
fn is_alone(alloc: Global, scene: &Scene, row: &Row) -> Result<bool, Fail> {
    let _made: Option<Make> = None;
    let call = call_of(alloc, row.call)?;
    let mut judged = set(alloc, scene)?;
    let mut alone = set(alloc, scene)?;
    let _permitted = decide(alloc, &mut judged, row.core, &call, &row.reply)?;
    make(alloc, &mut alone, row.core, &call)?;
    let found = tables(alloc, &judged)?;
    let due = tables(alloc, &alone)?;
    Ok(found.as_str() == due.as_str())
}

/// Judges the decisions of these rows, each in this state.
pub fn judge(rt: &impl Abort, alloc: Global, scene: &Scene, rows: &[Row]) -> Result<(), Fail> {
    for row in rows {
        let found = judged(alloc, scene, row)?;
        assert!(rt;
            found == row.due,
            "{found:?} of {} = {}",
            row.call,
            row.reply
        );
        if row.due == Verdict::Changes && matches!(row.reply, Reply::Ok(_)) {
            let alone = is_alone(alloc, scene, row)?;
            assert!(rt; alone, "{} = {}", row.call, row.reply);
        }
    }
    Ok(())
}
