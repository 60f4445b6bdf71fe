//! The table of endpoints, and the calls that seats make at it.

ghost use Rattle.std.specs.Prelude.{◌≡◌, ◌<◌, ◌≤◌, Ok};
ghost use Rattle.async_ends.specs.declared.endpoint.EndOp.TheVariants.{Send, Recv};
ghost use Rattle.async_ends.specs.Asked.{MakesDone};
ghost use Rattle.async_ends.specs.Calls.{Acts, Comes, MakesEndCall};
ghost use Rattle.async_ends.specs.Looks.{NamesBelow, look, reached};
ghost use Rattle.async_ends.specs.Running.{most_calls};

use crate::asks::{EndAsk, EndDone, Look};
use crate::authority::Authority;
use crate::endpoint::{EndCall, EndOp, EndReply};
use crate::run::EndRun;
use crate::seat::EndSeat;
use spk_nums::{CapId, FrameNo};
use std::marker::Model;
use turn_rule::TurnTable;

/// The endpoints of all frames, at which cores send and receive at once. Every seat that a call takes is of this table.
#[derive(Drop)]
pub struct EndTable {
    pub(crate) table: TurnTable<EndRun>,
    pub(crate) frames: u16,
    pub(crate) cores: u8,
}

impl Model for EndTable {
    ghost use Rattle.async_ends.specs.Tables.{EndTableValue, table_value, IsStart};

    ghost Value = { EndTableValue };

    ghost view = { λ t. table_value t.frames t.cores t.table };

    ghost invariant = { λ t. IsStart t.frames t.cores t.table.start };
}

impl EndTable {
    /// Sends one to the component of the gate of this number: adds one to its frame's count, in one step. It is refused
    /// where the look at the gate is, and with `wrong-cap` where that is a capability of another kind; nothing is sent then,
    /// and no step made. The look comes first: the step has it.
    ///
    /// The seat has made fewer than 2^40 - 1 calls, and the authority knows no more frames than the table. It takes no
    /// memory.
    pub fn send<A: Authority>(&self, seat: &mut EndSeat, who: &mut A, gate: CapId) -> EndReply
        requires table { seat.old.table ≡ self.now }
        requires few { seat.old.made < most_calls }
        requires frames { A.frame_count who.old ≤ self.now.frames }
        ensures makes { MakesEndCall Send gate (A.looks who.old) (A.looks who.new) (λ l. A.goes who.old l who.new)
            seat.old result seat.new }
        ensures frames { A.frame_count who.new ≡ A.frame_count who.old }
    {
        let op = EndOp::Send;
        self.ask(seat, who, EndAsk { op, number: gate }).answer
    }

    /// Takes all that was sent to the component of the capability of this number and was not taken yet. It is one step, a
    /// load of the count, where that is 0; else two, the load and a compare that puts 0 in place of what it loaded. It is
    /// raced, and takes nothing, exactly where the compare finds another count than the load: then another core sent there
    /// or took some between the two. It is refused as a send is, and its conditions are the same.
    pub fn recv<A: Authority>(&self, seat: &mut EndSeat, who: &mut A, comp: CapId) -> EndReply
        requires table { seat.old.table ≡ self.now }
        requires few { seat.old.made < most_calls }
        requires frames { A.frame_count who.old ≤ self.now.frames }
        ensures makes { MakesEndCall Recv comp (A.looks who.old) (A.looks who.new) (λ l. A.goes who.old l who.new)
            seat.old result seat.new }
        ensures frames { A.frame_count who.new ≡ A.frame_count who.old }
    {
        let op = EndOp::Recv;
        self.ask(seat, who, EndAsk { op, number: comp }).answer
    }

    /// Sends or receives as it is asked, as `send` and `recv` do and under their conditions, and tells the call that was
    /// made: what its look was answered and what it was answered.
    pub fn ask<A: Authority>(&self, seat: &mut EndSeat, who: &mut A, ask: EndAsk) -> EndDone
        requires table { seat.old.table ≡ self.now }
        requires few { seat.old.made < most_calls }
        requires frames { A.frame_count who.old ≤ self.now.frames }
        ensures asked { result.ask ≡ ask }
        ensures makes { MakesDone (A.looks who.old) (A.looks who.new) seat.old result seat.new }
        ensures goes { A.goes who.old (look ask.number result.looked) who.new }
        ensures frames { A.frame_count who.new ≡ A.frame_count who.old }
    {
        let EndAsk { op, number } = ask;
        let reply = who.look(number);
        let look = Look { number, reply };
        let answer = self.answer(seat, op, &look);
        let Look { number, reply } = look;
        EndDone {
            ask: EndAsk { op, number },
            looked: reply,
            answer,
        }
    }

    // Makes the call with this look: at the frame that it leads to, if it does.
    fn answer(&self, seat: &mut EndSeat, op: EndOp, look: &Look) -> EndReply
        requires table { seat.old.table ≡ self.now }
        requires few { seat.old.made < most_calls }
        requires frames { NamesBelow self.now.frames look.now.reply }
        ensures { Comes op look.now result seat.old seat.new }
    {
        match op.reach(&look.reply) {
            Ok(frame) => self.act(seat, op, frame, look),
            Err(refusal) => {
                seat.made += 1;
                EndReply::Refused(refusal)
            }
        }
    }

    // Makes the call at the frame to which its look has led.
    fn act(&self, seat: &mut EndSeat, op: EndOp, frame: FrameNo, look: &Look) -> EndReply
        requires table { seat.old.table ≡ self.now }
        requires few { seat.old.made < most_calls }
        requires frame { frame < self.now.frames }
        requires leads { reached op look.now.reply ≡ Ok frame }
        ensures acts { Acts op frame look.now result seat.old seat.new }
    {
        let frame = frame.number();
        let look = *look;
        self.table.call(&mut seat.seat, EndCall { op, frame, look });
        seat.made += 1;
        seat.seat.program().last.reply()
    }
}
