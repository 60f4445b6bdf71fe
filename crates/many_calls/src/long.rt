//! The same calls at the ports and at the plain kernel, round after round.
//!
//! Two cores take turns, each call whole, so the plain kernel answers the same. A round is eight calls, three of which begin a grace
//! period and so draw from the clock.

ghost use Rattle.spk_nums.specs.CallLimits.{InLimits};

use crate::calls::{clear, copy, flush, look, make, prepare, remove};
use core_machine::{Port, Seats};
use plain_kernel::{SeqKernel, plain_step};
use spk_nums::{Call, CoreNo, Reply, Setup};
use std::alloc::Global;

/// How many calls a round makes.
pub const ROUND: u64 = 8;

/// A machine of two cores and the plain kernel beside it.
#[derive(Drop)]
pub struct Beside {
    first: Port,
    second: Port,
    plain: SeqKernel,
}

impl Beside {
    /// Both at the boot of the machine of that setup; None comes where memory runs out or it is no setup of two cores or more.
    pub fn boot(alloc: Global) -> Option<Beside> {
        let setup = Setup::equal(2, 32, 100).ok()?;
        let plain = SeqKernel::start(alloc, &setup).ok()?;
        let mut seats = Seats::boot(alloc, &setup).ok()?;
        let first = seats.deal()?;
        let second = seats.deal()?;
        Some(Beside {
            first,
            second,
            plain,
        })
    }

    // Makes the call at the port of core 0 or of core 1 and at the plain kernel, and answers whether both replies are the same.
    fn same(&mut self, alloc: Global, core: u8, call: Call) -> bool
        requires { InLimits call }
    {
        let told: Reply = if core == 0 {
            self.first.call(call)
        } else {
            self.second.call(call)
        };
        if 2 <= core || self.plain.cores() <= core {
            return false;
        }
        match plain_step(alloc, &mut self.plain, CoreNo::new(core), &call) {
            Ok(reply) => reply == told,
            Err(_) => false,
        }
    }

    /// Makes a frame a table's, whose capability the rounds copy; answers whether all replies are the same.
    pub fn begin(&mut self, alloc: Global) -> bool {
        self.same(alloc, 0, prepare()) && self.same(alloc, 0, make())
    }

    /// A round: core 0 copies and core 1 removes, twice, and then the other way about at another place; a frame in use is asked for, and
    /// core 0 looks. Answers whether all replies are the same.
    pub fn round(&mut self, alloc: Global) -> bool {
        self.same(alloc, 0, copy(21))
            && self.same(alloc, 1, remove(21))
            && self.same(alloc, 0, copy(21))
            && self.same(alloc, 1, remove(21))
            && self.same(alloc, 1, copy(22))
            && self.same(alloc, 0, remove(22))
            && self.same(alloc, 0, clear())
            && self.same(alloc, 1, look())
    }

    /// The end: the table's capability goes, each core flushes, and the frame is made untyped; answers whether all replies are the same.
    pub fn end(&mut self, alloc: Global) -> bool {
        self.same(alloc, 0, remove(20))
            && self.same(alloc, 0, flush())
            && self.same(alloc, 1, flush())
            && self.same(alloc, 0, clear())
    }
}
