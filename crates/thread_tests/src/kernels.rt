//! The kernel for threads: what its calls answer, and what its words are when it is closed.

ghost use Rattle.std.specs.Prelude.{◌≡◌, ◌<◌, IfOk};
ghost use Rattle.spk_nums.specs.CallLimits.{InLimits};
ghost use Rattle.core_runs.specs.core_kernel.specs.Calls.{Extends};
ghost use Rattle.core_runs.specs.Whole.{IsList};

use core_runs::core_kernel::{CoreSeat, Kernel, cross_threads};
use core_runs::{FreeGate, run_whole};
use spk_nums::{
    Call, Cap, CapId, CoreNo, FrameNo, Grant, Grants, Kind, Memory, Reply, Rights, Setup, Value,
};
use std::alloc::Global;
use word_map::Closed;

fn look(a: u16) -> Call
    requires { a < 64 }
    ensures { InLimits result }
{
    Call::Look { a: CapId::new(a) }
}

fn copy(a: u16, b: u16) -> Call
    requires source { a < 64 }
    requires target { b < 64 }
    ensures { InLimits result }
{
    Call::Copy {
        a: CapId::new(a),
        t: CapId::new(1),
        b: CapId::new(b),
        rights: Rights::both(),
    }
}

fn remove(b: u16) -> Call
    requires { b < 64 }
    ensures { InLimits result }
{
    Call::Remove {
        t: CapId::new(1),
        b: CapId::new(b),
    }
}

fn list(alloc: Global, first: Call, second: Call) -> Result<Vec<Call>, Memory>
    requires first { InLimits first }
    requires second { InLimits second }
    ensures { IfOk result (λ v. IsList v.items) }
{
    match Vec::from_array(alloc, [first, second]) {
        Ok(list) => Ok(list),
        Err(_) => Err(Memory),
    }
}

// A machine of two cores and 32 frames.
fn setup() -> Result<Setup, Memory>
    ensures { IfOk result (λ s. s.cores ≡ 2) }
{
    let mut grants = Grants::empty();
    for _ in 0..2 {
        let _added = grants.add(Grant {
            budget: 100,
            sched: 0,
            quality: 1,
        });
    }
    match Setup::new(2, 32, grants, 9, 1) {
        Some(setup) => Ok(setup),
        None => Err(Memory),
    }
}

// The first seat tells the second one what it has seen.
fn tell(kernel: &Kernel, first: &mut CoreSeat, second: &mut CoreSeat)
    requires first { first.old.kernel ≡ kernel.now }
    requires second { second.old.kernel ≡ kernel.now }
    ensures same { first.new ≡ first.old }
    ensures kernel { second.new.kernel ≡ second.old.kernel }
    ensures told { Extends first.old.seen second.new.seen }
{
    let note = kernel.note(first);
    kernel.meet(second, note);
}

// The first core copies and tells the second one, which looks at the copy. It answers both replies.
fn copied_and_seen(kernel: &Kernel, first: &mut CoreSeat, second: &mut CoreSeat) -> (Reply, Reply)
    requires first { first.old.kernel ≡ kernel.now }
    requires second { second.old.kernel ≡ kernel.now }
{
    let copied = kernel.call(first, copy(0, 20));
    tell(kernel, first, second);
    let looked = kernel.call(second, look(20));
    (copied, looked)
}

#[test]
fn a_core_learns_of_the_calls_of_another(rt: HostRuntime) -> Result<(), Memory> {
    let setup = setup()?;
    let (kernel, mut seats) = Kernel::boot(rt.alloc(), &setup)?;
    let (first, second) = seats.as_mut_slice().split_at_mut(1);
    let (copied, looked) = copied_and_seen(&kernel, &mut first[0], &mut second[0]);
    let range = Value::Cap(Cap::new(Kind::Range, FrameNo::new(8), 24));
    assert!(rt; copied == Reply::Ok(Value::Nothing));
    assert!(rt; looked == Reply::Ok(range));
    assert!(rt; first[0].front().calls == 1);
    assert!(rt; second[0].front().core == CoreNo::new(1));
    Ok(())
}

// The count that a core has of a frame in these words, modulo 2^16.
fn count_modulo(closed: &Closed, frame: u16, core: u8) -> Option<u64>
    requires frame { frame < 512 }
    requires core { core < 8 }
{
    if closed.layout.frames() <= frame || closed.layout.cores() <= core {
        return None;
    }
    let place = closed
        .layout
        .count_at(FrameNo::new(frame), CoreNo::new(core));
    let word = closed.words.get(place as usize)?;
    Some((*word >> 43) & 0xffff)
}

// Core 0 copies the capability of the table in frame 0, core 1 removes that of the temporal capability in frame 7.
#[test]
fn each_core_counts_in_words_of_its_own(rt: HostRuntime) -> Result<(), Memory> {
    cross_threads();
    let setup = setup()?;
    let first = list(rt.alloc(), look(0), copy(1, 20))?;
    let second = list(rt.alloc(), look(1), remove(13))?;
    let Ok(lists) = Vec::from_array(rt.alloc(), [first, second]) else {
        return Err(Memory);
    };
    let Some(ran) = run_whole(&rt, rt.alloc(), &setup, &lists, &FreeGate)? else {
        return Err(Memory);
    };
    assert!(rt; count_modulo(&ran.closed, 0, 0) == Some(3));
    assert!(rt; count_modulo(&ran.closed, 0, 1) == Some(0));
    assert!(rt; count_modulo(&ran.closed, 7, 0) == Some(2));
    assert!(rt; count_modulo(&ran.closed, 7, 1) == Some(0xffff));
    Ok(())
}
