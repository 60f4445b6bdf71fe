//! The kernel in a program of its own: two cores, each in a thread, one of which then tells the other what it has done.
//!
//! docs/EMBEDDING.md quotes `two_cores` line by line, and `./test` compares the two. No proof file is needed: all that the calls ask for
//! stands in the contracts of the calls before.
#![tactic(auto)]

ghost use Rattle.spk_nums.specs.CallLimits.{InLimits};

mod fault;

use crate::fault::Fault;
use core_machine::Seats;
use machine_image::image_of;
use spk_nums::{Call, CapId, CoreNo, Reply, ReplyLine, Rights, Setup};
use std::alloc::Global;
use std::io;
use std::process::ExitCode;
use std::thread::{Threads, join_mut};
use table_report::report;

/// What the calls were answered, and the tables of the final machine.
#[derive(Drop)]
struct Told {
    copied: Reply,
    ticked: Reply,
    looked: Reply,
    tables: String,
}

// Puts the capability 0 into the entry 20 of the table 1, with all its rights.
fn copy() -> Call
    ensures { InLimits result }
{
    Call::Copy {
        a: CapId::new(0),
        t: CapId::new(1),
        b: CapId::new(20),
        rights: Rights::both(),
    }
}

// Charges 7 ticks.
fn tick() -> Call
    ensures { InLimits result }
{
    Call::Tick { n: 7 }
}

// Answers the capability 20.
fn look() -> Call
    ensures { InLimits result }
{
    Call::Look { a: CapId::new(20) }
}

// Two cores make a call at once; then core 1 learns what core 0 has done, and sees it.
fn two_cores<R: Threads>(rt: &R, alloc: Global) -> Result<Told, Fault> {
    let mut seats = Seats::boot(alloc, &Setup::equal(2, 32, 100)?)?;
    let Some(mut first) = seats.deal() else {
        return Err(Fault::Ports)
    };
    let Some(mut second) = seats.deal() else {
        return Err(Fault::Ports)
    };
    let (mut copied, mut ticked) = (Reply::Raced, Reply::Raced);
    join_mut(
        rt,
        &mut || copied = first.call(copy()),
        &mut || ticked = second.call(tick()),
    );
    let note = first.note();
    second.meet(note);
    let looked = second.call(look());
    seats.take_back(first);
    seats.take_back(second);
    let closed = seats.finish(alloc)?;
    let tables = report(alloc, &image_of(&closed))?;
    Ok(Told {
        copied,
        ticked,
        looked,
        tables,
    })
}

// Prints a line for each reply, core 0's first, and the tables.
fn print_told<R: Print>(rt: &R, told: &Told) -> io::Result<()> {
    let (copy, tick, look) = (copy(), tick(), look());
    let lines = [
        (0, 1, &copy, &told.copied),
        (1, 1, &tick, &told.ticked),
        (1, 2, &look, &told.looked),
    ];
    for (core, index, call, reply) in lines {
        let line = ReplyLine {
            core: CoreNo::new(core),
            index,
            call,
            reply,
        };
        print!(rt; "{line}")?;
    }
    let tables = told.tables.as_str();
    print!(rt; "{tables}")?;
    Ok(())
}

fn main(rt: HostRuntime) -> ExitCode {
    match two_cores(&rt, rt.alloc()) {
        Ok(told) => match print_told(&rt, &told) {
            Ok(()) => ExitCode::SUCCESS,
            Err(_) => ExitCode::FAILURE,
        },
        Err(_) => ExitCode::FAILURE,
    }
}
