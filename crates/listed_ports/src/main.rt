//! Some cores of one kernel, whose ports stand in a list: each works in a thread, and tells by a channel what it has seen; core 0 meets all
//! of it, and sees what each of them has done.
//!
//! docs/EMBEDDING.md quotes `all_cores` and `work` line by line, and `./test` compares the two. The proof is one line, which picks the kernel
//! that K names (proofs/main/started).
#![tactic(auto)]

ghost use Rattle.std.specs.Prelude.{◌≡◌, Some};
ghost use Rattle.spk_nums.specs.CallLimits.{InLimits};

mod fault;

use crate::fault::Fault;
use core_machine::{Names, NoteOf, PortOf, Seats, SeatsOf};
use crossbeam_channel::Sender;
use machine_image::image_of;
use spk_nums::{Call, CapId, Rights, Setup};
use std::alloc::Global;
use std::marker::Brand;
use std::process::ExitCode;
use std::sync::Wait;
use std::thread::Threads;
use std::{io, thread};
use table_report::report;

const CORES: u8 = 4;

// Puts the capability 0 into an entry of the table 1, with all its rights.
fn copy_to(entry: u16) -> Call
    ensures { InLimits result }
{
    Call::Copy {
        a: CapId::new(0),
        t: CapId::new(1),
        b: CapId::new(entry),
        rights: Rights::both(),
    }
}

// Each core fills an entry of its own, and says so.
fn work<K: Names + Send + Sync>(
    rt: &(impl Wait + Sync),
    port: &mut PortOf<K>,
    told: &Sender<NoteOf<K>>,
) {
    let entry = 20 + u16::from(port.core().number());
    let _copied = port.call(copy_to(entry));
    let _told = told.send(rt, port.note());
}

// All cores work at once; then core 0 learns what the others have done.
fn all_cores<K: Names + Send + Sync, R: Threads + Wait + Sync>(
    rt: &R,
    alloc: Global,
    seats: Seats,
) -> Result<String, Fault>
    requires { K.kernel ≡ Some seats.kernel }
{
    let mut machine = SeatsOf::<K>::new(seats);
    let mut ports = machine.deal_all(alloc)?;
    let (to, from) = crossbeam_channel::unbounded(alloc)?;
    thread::for_each_mut(rt, &mut ports, 8, &|_, port| work(rt, port, &to));
    drop(to);
    if let Some(first) = ports.first_mut() {
        for note in from.iter(rt) {
            first.meet(note);
        }
    }
    for port in ports {
        if machine.take_back(port).is_err() {
            return Err(Fault::Ports);
        }
    }
    let closed = machine.into_seats().finish(alloc)?;
    Ok(report(alloc, &image_of(&closed))?)
}

// The machine, whose kernel K is to name.
fn started<R: Threads + Wait + Sync>(rt: &R, alloc: Global) -> Result<String, Fault> {
    let seats = Seats::boot(alloc, &Setup::equal(CORES, 32, 100)?)?;
    all_cores::<Brand, R>(rt, alloc, seats)
}

fn print_tables<R: Print>(rt: &R, tables: &str) -> io::Result<()> {
    print!(rt; "{tables}")?;
    Ok(())
}

fn main(rt: HostRuntime) -> ExitCode {
    match started(&rt, rt.alloc()) {
        Ok(tables) => match print_tables(&rt, tables.as_str()) {
            Ok(()) => ExitCode::SUCCESS,
            Err(_) => ExitCode::FAILURE,
        },
        Err(_) => ExitCode::FAILURE,
    }
}
