//! What an image lends of a machine that has stopped: the references to a frame as each core counts them, and the entries of its nodes.
//!
//! Two cores put and remove copies of a capability, one call after another. For each number of these calls a machine makes so many and
//! stops; a line has what core 0 and what core 1 then count of the references to the capability's frame. Counts begin at core 0. A core
//! counts what it puts and what it removes, whoever put it, so a count falls below 0; the sum is the number of references. After the
//! last line come the capabilities and the mappings of a machine in which core 0 has mapped a page.
#![tactic(auto)]

ghost use Rattle.std.specs.Prelude.{◌≡◌, ◌<◌, true, IfOk, length};
ghost use Rattle.spk_nums.specs.CallLimits.{InLimits};
ghost use Rattle.core_machine.specs.core_kernel.specs.word_map.specs.Places.{size_of};

mod fault;

use crate::fault::Fault;
use core_machine::{Port, Seats};
use machine_image::{Image, image_of};
use spk_nums::{
    Call, CapId, EntryNo, FrameArg, FrameKind, FrameNo, Make, PageFlags, PageNo, Reply, Rights,
    Setup,
};
use std::alloc::Global;
use std::io;
use std::process::ExitCode;
use word_map::Closed;

// The frame of the component of the start, which capability 3 names.
const COMPONENT: u16 = 3;

// Puts capability 3, of the component, into this slot, below 64.
fn copy(slot: u16) -> Call
    ensures { InLimits result }
{
    Call::Copy {
        a: CapId::new(3),
        t: CapId::new(1),
        b: CapId::new(slot),
        rights: Rights::both(),
    }
}

fn remove(slot: u16) -> Call
    ensures { InLimits result }
{
    Call::Remove {
        t: CapId::new(1),
        b: CapId::new(slot),
    }
}

// Makes a call, if it is wanted, and answers whether it was answered `ok`, as one that is not wanted is.
fn is_made(port: &mut Port, wanted: bool, call: Call) -> bool
    requires { InLimits call }
    ensures kernel { port.new.kernel ≡ port.old.kernel }
    ensures core { port.new.core ≡ port.old.core }
{
    if !wanted {
        return true;
    }
    match port.call(call) {
        Reply::Ok(_) => true,
        _ => false,
    }
}

// Makes the first so many of five calls: core 0 puts two copies, core 1 puts a third and removes core 0's.
fn share(first: &mut Port, second: &mut Port, shares: u8) -> bool
    ensures kernels { (first.new.kernel ≡ first.old.kernel) × (second.new.kernel ≡ second.old.kernel) }
    ensures cores { (first.new.core ≡ first.old.core) × (second.new.core ≡ second.old.core) }
{
    let one = is_made(first, 1 <= shares, copy(20));
    let two = is_made(first, 2 <= shares, copy(21));
    let three = is_made(second, 3 <= shares, copy(22));
    let four = is_made(second, 4 <= shares, remove(20));
    let five = is_made(second, 5 <= shares, remove(21));
    one && two && three && four && five
}

fn retype(f: u16, k: FrameKind) -> Call
    ensures { InLimits result }
{
    Call::Retype {
        r: CapId::new(0),
        f: FrameArg::new(f),
        k,
    }
}

// Makes a leaf of pages in the frame 8.
fn make_leaf() -> Call
    ensures { InLimits result }
{
    Call::Make {
        what: Make::Pleaf,
        range: CapId::new(0),
        frame: FrameArg::new(8),
        table: CapId::new(1),
        slot: CapId::new(20),
    }
}

fn grow() -> Call
    ensures { InLimits result }
{
    Call::Grow {
        t: CapId::new(2),
        i: EntryNo::new(0),
        l: CapId::new(20),
    }
}

fn map_call() -> Call
    ensures { InLimits result }
{
    Call::Map {
        p: CapId::new(2),
        v: PageNo::new(5),
        r: CapId::new(0),
        f: FrameArg::new(9),
        w: PageFlags::WRITE,
    }
}

// Maps the user frame 9 as page 5 of the component, if it is wanted.
fn map_page(port: &mut Port, wanted: bool) -> bool
    ensures kernel { port.new.kernel ≡ port.old.kernel }
    ensures core { port.new.core ≡ port.old.core }
{
    let kernel = is_made(port, wanted, retype(8, FrameKind::Kernel));
    let leaf = is_made(port, wanted, make_leaf());
    let grown = is_made(port, wanted, grow());
    let user = is_made(port, wanted, retype(9, FrameKind::User));
    let mapped = is_made(port, wanted, map_call());
    kernel && leaf && grown && user && mapped
}

// A machine of two cores that has made so many shares, and has mapped the page where that is wanted, and has stopped.
fn stopped(alloc: Global, shares: u8, maps: bool) -> Result<Closed, Fault>
    ensures words { IfOk result (λ closed. length closed.words.items ≡ size_of closed.layout) }
    ensures ends { IfOk result (λ closed. length closed.ends.items ≡ closed.layout.cores) }
{
    let mut seats = Seats::boot(alloc, &Setup::equal(2, 32, 100)?)?;
    let Some(mut first) = seats.deal() else {
        return Err(Fault::Ports)
    };
    let Some(mut second) = seats.deal() else {
        return Err(Fault::Ports)
    };
    let shared = share(&mut first, &mut second, shares);
    let mapped = map_page(&mut first, maps);
    seats.take_back(first);
    seats.take_back(second);
    let closed = seats.finish(alloc)?;
    if shared && mapped {
        return Ok(closed);
    }
    Err(Fault::Refused)
}

// Whether these are frames of the image.
fn has(image: &Image, frame: u16) -> bool
    ensures { result ≡ true → frame < image.now.shape.frames }
{
    frame < image.frames()
}

// What each core counts of the references to the component's frame, core 0 first.
fn print_counts<R: Print>(rt: &R, closed: &Closed) -> io::Result<()>
    requires words { length closed.now.words.items ≡ size_of closed.now.layout }
    requires ends { length closed.now.ends.items ≡ closed.now.layout.cores }
{
    let image = image_of(closed);
    if !has(&image, COMPONENT) {
        return Ok(());
    }
    for word in image.counts(FrameNo::new(COMPONENT)) {
        let count = word.count;
        print!(rt; " {count}")?;
    }
    println!(rt; "")
}

// The capabilities of the table 0 and the mappings of the pages 2, in ascending order.
fn print_nodes<R: Print>(rt: &R, closed: &Closed) -> io::Result<()>
    requires words { length closed.now.words.items ≡ size_of closed.now.layout }
    requires ends { length closed.now.ends.items ≡ closed.now.layout.cores }
{
    let image = image_of(closed);
    if !has(&image, 2) {
        return Ok(());
    }
    for (number, cap) in image.caps(FrameNo::new(0)) {
        println!(rt; "capability {number} {cap}")?;
    }
    for (page, cap) in image.maps(FrameNo::new(2)) {
        println!(rt; "page {page} {cap}")?;
    }
    Ok(())
}

// Prints a line for each number of shares, and what is mapped. False comes where a call is refused or memory runs out.
fn print_all<R: Print>(rt: &R, alloc: Global) -> io::Result<bool> {
    for shares in 0..6 {
        let Ok(closed) = stopped(alloc, shares, false) else {
            return Ok(false);
        };
        print!(rt; "after {shares} shares")?;
        print_counts(rt, &closed)?;
    }
    let Ok(closed) = stopped(alloc, 0, true) else {
        return Ok(false);
    };
    print_nodes(rt, &closed)?;
    Ok(true)
}

fn main(rt: HostRuntime) -> ExitCode {
    match print_all(&rt, rt.alloc()) {
        Ok(true) => ExitCode::SUCCESS,
        Ok(false) => ExitCode::FAILURE,
        Err(_) => ExitCode::from(2),
    }
}
