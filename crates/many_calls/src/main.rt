//! A machine that lasts: a core makes 5,000,000 calls and goes on, and counts that leave their field come to the right sum.
//!
//! Core 0 counts the copies of a capability, core 1 counts their removals, 70,000 of each: so both counts have wrapped, and
//! the references to the frame are still one. In this folder, `rt try` runs it before any proof, and `rt run` proves and runs it.
//!
//! With a number it makes so many calls beside the plain kernel, in whole rounds, says of how many the replies were the same,
//! and fails where one was not: `bench/lasts` runs it so, for 10^9 calls, of which three in eight draw from the clock.
#![tactic(auto)]

ghost use Rattle.spk_nums.specs.CallLimits.{InLimits};

mod calls;
mod long;

use crate::calls::{clear, copy, look, make, prepare, remove};
use crate::long::{Beside, ROUND};
use core_machine::{Port, Seats};
use spk_nums::{Call, CoreNo, Reply, ReplyLine, Setup, Value};
use std::alloc::Global;
use std::process::ExitCode;
use std::{env, io};

const COPIES: u32 = 70_000;

const LOOKS: u32 = 5_000_000;

const DONE: Reply = Reply::Ok(Value::Nothing);

// A port, and how many calls it has made.
#[derive(Drop)]
struct Core {
    port: Port,
    number: u8,
    made: u32,
}

impl Core {
    // Makes the call.
    fn call(&mut self, call: Call) -> Reply
        requires { InLimits call }
    {
        self.made = self.made.saturating_add(1);
        self.port.call(call)
    }

    // Makes the call, and prints its line.
    fn tell<R: Print>(&mut self, rt: &R, call: Call) -> io::Result<()>
        requires { InLimits call }
    {
        let reply = self.call(call);
        self.print(rt, &call, &reply)
    }

    // Prints the line of its last call.
    fn print<R: Print>(&self, rt: &R, call: &Call, reply: &Reply) -> io::Result<()> {
        if 8 <= self.number {
            return Ok(());
        }
        let line = ReplyLine {
            core: CoreNo::new(self.number),
            index: self.made,
            call,
            reply,
        };
        print!(rt; "{line}")
    }
}

// Core 0 puts the copies that core 1 removes, one after the other, until one is refused.
fn copies<R: Print>(rt: &R, first: &mut Core, second: &mut Core) -> io::Result<()> {
    let (mut copied, mut removed) = (Reply::Raced, Reply::Raced);
    for _ in 0..COPIES {
        copied = first.call(copy(21));
        removed = second.call(remove(21));
        if copied != DONE || removed != DONE {
            break;
        }
    }
    first.print(rt, &copy(21), &copied)?;
    second.print(rt, &remove(21), &removed)
}

// Core 0 looks, until a look is refused.
fn looks<R: Print>(rt: &R, first: &mut Core) -> io::Result<()> {
    let mut seen = Reply::Raced;
    for _ in 0..LOOKS {
        seen = first.call(look());
        if seen == Reply::CallsSpent {
            break;
        }
    }
    first.print(rt, &look(), &seen)
}

fn run<R: Print>(rt: &R, first: &mut Core, second: &mut Core) -> io::Result<()> {
    first.tell(rt, prepare())?;
    first.tell(rt, make())?;
    copies(rt, first, second)?;
    first.tell(rt, clear())?;
    looks(rt, first)?;
    first.tell(rt, remove(20))?;
    first.tell(rt, clear())?;
    first.tell(rt, look())
}

// The two cores of a machine.
fn cores(alloc: Global) -> Option<(Core, Core)> {
    let setup = Setup::equal(2, 32, 100).ok()?;
    let mut seats = Seats::boot(alloc, &setup).ok()?;
    let first = Core {
        port: seats.deal()?,
        number: 0,
        made: 0,
    };
    let second = Core {
        port: seats.deal()?,
        number: 1,
        made: 0,
    };
    Some((first, second))
}

// Makes so many calls beside the plain kernel, in whole rounds, and prints of how many the replies were the same; None comes where one was
// not, where memory runs out, or where nothing can be printed.
fn print_long<R: Print>(rt: &R, alloc: Global, calls: u64) -> Option<()> {
    let mut both = Beside::boot(alloc)?;
    let begun = both.begin(alloc);
    let mut rounds = 0u64;
    let mut same = begun;
    for _ in 0..calls / ROUND {
        if !same {
            break;
        }
        same = both.round(alloc);
        rounds = rounds.saturating_add(1);
    }
    let ended = both.end(alloc);
    let done = rounds.saturating_mul(ROUND);
    if same && ended {
        println!(rt; "{done} calls beside the plain kernel: each reply is the same").ok()
    } else {
        println!(rt;
            "{done} calls beside the plain kernel: another reply at the end of them"
        ).ok()?;
        None
    }
}

// The number of calls that is asked for on the command line, none where there is no word; None comes where the word is no number.
fn asked_by(rt: &HostRuntime) -> Option<Option<u64>> {
    let mut args = env::args(rt).ok()?;
    let _name = args.next();
    match args.next() {
        Some(word) => Some(Some(word.as_str().parse::<u64>().ok()?)),
        None => Some(None),
    }
}

fn print_few<R: Print>(rt: &R, alloc: Global) -> Option<()> {
    let (mut first, mut second) = cores(alloc)?;
    run(rt, &mut first, &mut second).ok()
}

fn main(rt: HostRuntime) -> ExitCode {
    let alloc = rt.alloc();
    let printed = match asked_by(&rt) {
        Some(Some(calls)) => print_long(&rt, alloc, calls),
        Some(None) => print_few(&rt, alloc),
        None => None,
    };
    match printed {
        Some(()) => ExitCode::SUCCESS,
        None => ExitCode::FAILURE,
    }
}
