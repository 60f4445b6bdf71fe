//! A table of endpoints: what its calls answer to the seat of a core of a kernel.

ghost use Rattle.std.specs.Prelude.{◌≡◌, ◌+◌, ◌<◌, ◌≤◌, IfOk, IfSome};

use async_ends::{Authority, EndAsk, EndOp, EndReply, EndSeat, EndTable, cross_threads};
use core_runs::core_kernel::{CoreSeat, Kernel};
use ends_runners::SeatAuthority;
use spk_nums::{
    Call, CapId, FrameArg, FrameKind, Grant, Grants, Make, Memory, Reply, Setup, Value, in_limits,
};
use std::alloc::Global;
use std::test::Fail;

// A machine of one core and 32 frames.
fn setup() -> Result<Setup, Memory>
    ensures { IfOk result (λ s. s.cores ≡ 1) }
{
    let mut grants = Grants::empty();
    let _added = grants.add(Grant {
        budget: 100,
        sched: 0,
        quality: 1,
    });
    match Setup::new(1, 32, grants, 20, 1) {
        Some(setup) => Ok(setup),
        None => Err(Memory),
    }
}

// Puts a gate to component 3 into slot 20.
fn put_gate(kernel: &Kernel, seat: &mut CoreSeat) -> Reply
    requires { seat.old.kernel ≡ kernel.now }
    ensures { seat.new.kernel ≡ seat.old.kernel }
{
    let _made: Option<Make> = None;
    kernel.call(
        seat,
        Call::Gate {
            c: CapId::new(3),
            t: CapId::new(1),
            b: CapId::new(20),
        },
    )
}

// Two sends through slot 20, a receive of what slot 3 names, a send through slot 21, and a receive of what slot 20 names.
fn exchange(table: &EndTable, seat: &mut EndSeat, who: &mut SeatAuthority) -> [EndReply; 5]
    requires table { seat.old.table ≡ table.now }
    requires made { seat.old.made ≡ 0 }
    requires frames { 512 ≤ table.now.frames }
{
    let first = table.send(seat, who, CapId::new(20));
    let second = table.send(seat, who, CapId::new(20));
    let taken = table.recv(seat, who, CapId::new(3));
    let refused = table.send(seat, who, CapId::new(21));
    let ask = EndAsk {
        op: EndOp::Recv,
        number: CapId::new(20),
    };
    let asked = table.ask(seat, who, ask);
    [first, second, taken, refused, asked.answer]
}

// Whether an exchange at a new table, whose only core has this authority, is answered so, as five calls of that core.
fn is_answered(
    alloc: Global,
    who: &mut SeatAuthority,
    wanted: [EndReply; 5],
) -> Result<bool, Memory> {
    let (table, mut ends) = EndTable::new(alloc, 512, 1)?;
    match ends.pop() {
        Some(mut end) => {
            let answers = exchange(&table, &mut end, who);
            Ok(answers == wanted && end.made() == 5)
        }
        None => Ok(false),
    }
}

// The authority of a core that has put a gate into slot 20, if it was answered so.
fn gated<'a>(kernel: &'a Kernel, seat: CoreSeat) -> Option<SeatAuthority<'a>>
    requires { seat.kernel ≡ kernel.now }
{
    let mut seat = seat;
    match put_gate(kernel, &mut seat) {
        Reply::Ok(Value::Nothing) => Some(SeatAuthority::new(kernel, seat)),
        _ => None,
    }
}

#[test]
fn a_core_sends_to_the_component_of_a_gate_and_receives_there(rt: HostRuntime) -> Result<(), Fail> {
    cross_threads();
    let alloc = rt.alloc();
    let (kernel, mut seats) = Kernel::boot(alloc, &setup()?)?;
    let Some(seat) = seats.pop() else {
        panic!(rt; "no seat");
    };
    let Some(mut who) = gated(&kernel, seat) else {
        panic!(rt; "no gate");
    };
    assert_eq!(rt; who.frames(), 512);
    let wanted = [
        EndReply::Sent,
        EndReply::Sent,
        EndReply::Taken(2),
        EndReply::Refused(Reply::Empty),
        EndReply::Refused(Reply::WrongCap),
    ];
    assert!(rt; is_answered(alloc, &mut who, wanted)?);
    Ok(())
}

// Whether each of these calls is in its limits and is answered `ok`.
fn are_made(kernel: &Kernel, seat: &mut CoreSeat, calls: &[Call]) -> bool
    requires { seat.old.kernel ≡ kernel.now }
    ensures { seat.new.kernel ≡ seat.old.kernel }
{
    let _made: Option<Make> = None;
    for call in calls {
        if !in_limits(call) {
            return false;
        }
        let reply = kernel.call(seat, *call);
        if !matches!(reply, Reply::Ok(_)) {
            return false;
        }
    }
    true
}

// Makes the component that is slot 21's in frame 8, with this liveness number.
fn make_comp(live: u8) -> Call {
    Call::Make {
        what: Make::Comp {
            table: CapId::new(1),
            pages: CapId::new(2),
            live,
        },
        range: CapId::new(0),
        frame: FrameArg::new(8),
        table: CapId::new(1),
        slot: CapId::new(21),
    }
}

fn retype_frame_8(k: FrameKind) -> Call {
    Call::Retype {
        r: CapId::new(0),
        f: FrameArg::new(8),
        k,
    }
}

fn remove(slot: u16) -> Call {
    Call::Remove {
        t: CapId::new(1),
        b: CapId::new(slot),
    }
}

// What the core of this seat is answered at the endpoints, and its seat at the kernel after that.
fn asked(
    kernel: &Kernel,
    seat: CoreSeat,
    table: &EndTable,
    end: &mut EndSeat,
    ask: EndAsk,
) -> (EndReply, CoreSeat)
    requires kernel { seat.kernel ≡ kernel.now }
    requires table { end.old.table ≡ table.now }
    requires made { end.old.made < 100 }
    requires frames { 512 ≤ table.now.frames }
    ensures kernel { result.1.kernel ≡ kernel.now }
    ensures table { end.new.table ≡ end.old.table }
    ensures made { end.new.made ≡ end.old.made + 1 }
{
    let mut who = SeatAuthority::new(kernel, seat);
    let done = table.ask(end, &mut who, ask);
    (done.answer, who.seat())
}

// Makes these calls at the kernel, and then this one at the endpoints, and answers it, if all calls are answered `ok`, with the seat.
fn made_then_asked(
    kernel: &Kernel,
    seat: CoreSeat,
    calls: &[Call],
    table: &EndTable,
    end: &mut EndSeat,
    ask: EndAsk,
) -> Option<(EndReply, CoreSeat)>
    requires kernel { seat.kernel ≡ kernel.now }
    requires table { end.old.table ≡ table.now }
    requires made { end.old.made < 100 }
    requires frames { 512 ≤ table.now.frames }
    ensures kernel { IfSome result (λ r. r.1.kernel ≡ kernel.now) }
    ensures table { IfSome result (λ _. end.new.table ≡ end.old.table) }
    ensures made { IfSome result (λ _. end.new.made ≡ end.old.made + 1) }
{
    let mut seat = seat;
    if !are_made(kernel, &mut seat, calls) {
        return None;
    }
    Some(asked(kernel, seat, table, end, ask))
}

// What a send to the component that is made in frame 8 is answered, and then a receive by the one that is made there after it.
fn sent_and_taken(
    kernel: &Kernel,
    seat: CoreSeat,
    table: &EndTable,
    end: &mut EndSeat,
) -> Option<[EndReply; 2]>
    requires kernel { seat.kernel ≡ kernel.now }
    requires table { end.old.table ≡ table.now }
    requires made { end.old.made ≡ 0 }
    requires frames { 512 ≤ table.now.frames }
{
    let gate = Call::Gate {
        c: CapId::new(21),
        t: CapId::new(1),
        b: CapId::new(22),
    };
    let first = [retype_frame_8(FrameKind::Kernel), make_comp(1), gate];
    let send = EndAsk {
        op: EndOp::Send,
        number: CapId::new(22),
    };
    let (sent, seat) = made_then_asked(kernel, seat, &first, table, end, send)?;
    let second = [
        Call::Kill { c: CapId::new(21) },
        remove(22),
        remove(21),
        retype_frame_8(FrameKind::Untyped),
        retype_frame_8(FrameKind::Kernel),
        make_comp(2),
    ];
    let recv = EndAsk {
        op: EndOp::Recv,
        number: CapId::new(21),
    };
    let (taken, _seat) = made_then_asked(kernel, seat, &second, table, end, recv)?;
    Some([sent, taken])
}

// The same at a new kernel and a new table of one core each.
fn sent_and_taken_anew(alloc: Global) -> Result<Option<[EndReply; 2]>, Memory> {
    let (kernel, mut seats) = Kernel::boot(alloc, &setup()?)?;
    let (table, mut ends) = EndTable::new(alloc, 512, 1)?;
    match (seats.pop(), ends.pop()) {
        (Some(seat), Some(mut end)) => Ok(sent_and_taken(&kernel, seat, &table, &mut end)),
        _ => Ok(None),
    }
}

#[test]
fn a_component_has_what_was_sent_to_the_one_before_it_in_its_frame(
    rt: HostRuntime,
) -> Result<(), Memory> {
    let Some(answers) = sent_and_taken_anew(rt.alloc())? else {
        panic!(rt; "a call is refused");
    };
    assert!(rt; answers == [EndReply::Sent, EndReply::Taken(1)]);
    Ok(())
}
