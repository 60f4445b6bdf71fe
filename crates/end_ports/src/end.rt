//! A core's seat at the endpoints, with a share of their table.

ghost use Rattle.std.specs.Prelude.{◌≡◌, ◌<◌};
ghost use Rattle.std.specs.Arc.{arc_value};
ghost use Rattle.async_ends.specs.Calls.{Comes};
ghost use Rattle.async_ends.specs.Looks.{look};
ghost use Rattle.async_ends.specs.Running.{most_calls};
ghost use Rattle.ends_runners.specs.Looks.{HasLooked};

use crate::looker::Looker;
use async_ends::{EndAsk, EndDone, EndSeat, EndTable};
use std::marker::Model;
use std::sync::Arc;

/// A core's seat with a share of the table of 512 endpoints. Contracts see it as the seat.
#[derive(Drop)]
pub(crate) struct End {
    pub(crate) table: Arc<EndTable>,
    pub(crate) seat: EndSeat,
}

impl Model for End {
    ghost use Rattle.std.specs.Prelude.{◌≡◌};
    ghost use Rattle.std.specs.Arc.{arc_value};
    ghost use Rattle.async_ends.specs.Tables.{EndSeatValue};

    ghost Value = { EndSeatValue };

    ghost view = { λ e. e.seat };

    ghost invariant = { λ e. (e.seat.table ≡ arc_value e.table) × ((arc_value e.table).frames ≡ 512) };
}

impl End {
    pub(crate) fn new(table: Arc<EndTable>, seat: EndSeat) -> End
        requires table { seat.table ≡ arc_value table }
        requires frames { (arc_value table).frames ≡ 512 }
        ensures { result ≡ seat }
    {
        End { table, seat }
    }

    // Makes the call that is asked, after the look of the core's port. The seat has calls left.
    pub(crate) fn ask(&mut self, looker: &mut Looker, ask: EndAsk) -> EndDone
        requires { self.old.made < most_calls }
        ensures looks { HasLooked looker.old.port (look ask.number result.looked) looker.new.port }
        ensures comes { Comes ask.op (look ask.number result.looked) result.answer self.old self.new }
    {
        self.table.ask(&mut self.seat, looker, ask)
    }

    // How many calls were made with the seat.
    pub(crate) fn made(&self) -> u64
        ensures { result ≡ self.now.made }
    {
        self.seat.made()
    }
}
