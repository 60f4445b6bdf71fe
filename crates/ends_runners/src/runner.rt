//! A core with the endpoint calls that it is to make.

ghost use Rattle.std.specs.Prelude.{◌≡◌, ◌+◌, ◌<◌, ◌≤◌, ◌^◌, [], false, IfOk, length};

use crate::authority::SeatAuthority;
use async_ends::{EndAsk, EndDone, EndSeat};
use spk_nums::Memory;
use std::alloc::Global;
use std::marker::Model;

/// A core's seats at the kernel and at the endpoints, the endpoint calls that it is to make, and those that it has made.
#[derive(Drop)]
pub struct EndRunner<'a> {
    pub(crate) who: SeatAuthority<'a>,
    pub(crate) seat: EndSeat,
    pub(crate) asks: Vec<EndAsk>,
    // There is room for each call.
    pub(crate) done: Vec<EndDone>,
    // How many calls the core's list has.
    pub(crate) listed: u32,
    pub(crate) held: bool,
}

impl<'a> Model for EndRunner<'a> {
    ghost use Rattle.ends_runners.specs.Runs.{EndRunnerValue, IsEndRunner};

    ghost Value = { EndRunnerValue };

    ghost view = { λ r. record { who = r.who; seat = r.seat; asks = r.asks.items; done = r.done.items; listed = r.listed; held = r.held } };

    ghost use Rattle.std.specs.Prelude.{vec_capacity};

    ghost invariant = { λ r. IsEndRunner r.asks.items r.listed (vec_capacity r.done) };
}

impl<'a> EndRunner<'a> {
    /// The runner of a core that has made none of its endpoint calls, and whose list has so many calls. It fails only where
    /// memory runs out.
    pub fn new(
        alloc: Global,
        who: SeatAuthority<'a>,
        seat: EndSeat,
        asks: Vec<EndAsk>,
        listed: u32,
    ) -> Result<EndRunner<'a>, Memory>
        requires few { length asks.items ≤ 4194304 }
        requires fit { listed + length asks.items < 2 ^ 32 }
        ensures who { IfOk result (λ r. r.who ≡ who.entry) }
        ensures seat { IfOk result (λ r. r.seat ≡ seat) }
        ensures asks { IfOk result (λ r. r.asks ≡ asks.items) }
        ensures none { IfOk result (λ r. r.done ≡ []) }
        ensures free { IfOk result (λ r. r.held ≡ false) }
    {
        let done = Vec::with_capacity(alloc, asks.len())?;
        Ok(EndRunner {
            who,
            seat,
            asks,
            done,
            listed,
            held: false,
        })
    }
}
