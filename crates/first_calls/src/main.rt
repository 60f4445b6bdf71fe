//! The smallest program with a kernel of its own: one core, which copies a capability and looks at the copy.
//!
//! In this folder, `rt try` runs it before any proof, and `rt run` proves and runs it.
#![tactic(auto)]

use core_machine::Seats;
use spk_nums::{Call, CapId, Rights, Setup};
use std::process::ExitCode;

fn main(rt: HostRuntime) -> ExitCode {
    let Ok(setup) = Setup::equal(1, 16, 100) else {
        return ExitCode::FAILURE
    };
    let Ok(mut seats) = Seats::boot(rt.alloc(), &setup) else {
        return ExitCode::FAILURE
    };
    let Some(mut core) = seats.deal() else {
        return ExitCode::FAILURE
    };
    let copied = core.call(Call::Copy {
        a: CapId::new(0),
        t: CapId::new(1),
        b: CapId::new(20),
        rights: Rights::both(),
    });
    let looked = core.call(Call::Look { a: CapId::new(20) });
    match println!(rt; "{copied}, then {looked}") {
        Ok(()) => ExitCode::SUCCESS,
        Err(_) => ExitCode::FAILURE,
    }
}
