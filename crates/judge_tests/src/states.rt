//! The state of the sequential kernel, part by part, at the smallest and at the largest machine.
ghost use Rattle.std.specs.Prelude.{◌<◌, ◌≡◌};
ghost use Rattle.spk_nums.specs.Limits.{least_arg, end_of_arg};
ghost use Rattle.seq_state.specs.Parts.{thing_of};
ghost use Rattle.seq_state.specs.Representation.{HasIndex};

use seq_state::{Core, Frame, Liveness, Object, Pending, Place, SeqKernel, Stack, Thing};
use spk_nums::{Cap, CoreNo, CoreSet, EntryNo, FrameNo, Grant, Grants, Kind, Setup};
use std::process::Abort;
use std::test::Fail;

/// A machine of so many cores and frames, core c granted 100 + c ticks by scheduler c.
fn machine(cores: u8, frames: u16) -> Option<Setup> {
    let mut grants = Grants::empty();
    'each: for core in 0..cores {
        let _added = grants.add(Grant {
            budget: 100 + u32::from(core),
            sched: core,
            quality: 1 + u32::from(core),
        });
    }
    Setup::new(cores, frames, grants, 1000, 9)
}

/// Whether a place is this one.
fn place_is(rt: &impl Abort, kernel: &SeqKernel, node: u16, index: u16, place: Place)
    requires node { node < 512 }
    requires index { index < 64 }
{
    let found = kernel.place(FrameNo::new(node), EntryNo::new(index));
    assert!(rt; found == place, "place {index} of {node}");
}

/// A capability without a number of its own.
fn plain(kind: Kind, frame: u16) -> Place
    requires least { least_arg kind ≡ 0 }
    requires end { 0 < end_of_arg kind }
    requires frame { frame < 512 }
{
    Place::Holds(Cap::new(kind, FrameNo::new(frame), 0))
}

#[test]
fn counts_the_references_of_the_smallest_machine(rt: HostRuntime) -> Result<(), Fail> {
    let setup = machine(1, 8).ok_or("a setup")?;
    let kernel = SeqKernel::start(rt.alloc(), &setup)?;
    assert!(rt; kernel.refs(FrameNo::new(0)) == 2);
    assert!(rt; kernel.refs(FrameNo::new(1)) == 1);
    assert!(rt; kernel.refs(FrameNo::new(2)) == 2);
    assert!(rt; kernel.refs(FrameNo::new(3)) == 3);
    assert!(rt; kernel.refs(FrameNo::new(4)) == 2);
    assert!(rt; kernel.refs(FrameNo::new(5)) == 2);
    assert!(rt; kernel.refs(FrameNo::new(6)) == 0);
    assert!(rt; kernel.refs(FrameNo::new(7)) == 0);
    Ok(())
}

#[test]
fn starts_the_largest_machine(rt: HostRuntime) -> Result<(), Fail> {
    let setup = machine(8, 512).ok_or("a setup")?;
    let kernel = SeqKernel::start(rt.alloc(), &setup)?;
    assert!(rt; kernel.frames() == 512);
    assert!(rt; kernel.calls() == 1000);
    assert!(rt; kernel.epochs() == 9);
    place_is(&rt, &kernel, 0, 0, plain(Kind::Link, 1));
    place_is(&rt, &kernel, 0, 1, Place::Free);
    place_is(
        &rt,
        &kernel,
        1,
        0,
        Place::Holds(Cap::new(Kind::Range, FrameNo::new(20), 492)),
    );
    place_is(&rt, &kernel, 1, 11, plain(Kind::Thread, 11));
    place_is(&rt, &kernel, 1, 19, plain(Kind::Tcap, 19));
    place_is(&rt, &kernel, 1, 20, Place::Free);
    place_is(&rt, &kernel, 511, 63, Place::Free);
    assert!(rt; kernel.refs(FrameNo::new(3)) == 10);
    Ok(())
}

#[test]
fn reads_the_ends_of_the_largest_machine(rt: HostRuntime) -> Result<(), Fail> {
    let setup = machine(8, 512).ok_or("a setup")?;
    let kernel = SeqKernel::start(rt.alloc(), &setup)?;
    let last = FrameNo::new(511);
    assert!(rt; kernel.frame(FrameNo::new(0)) == Frame::Kernel(Object::Table));
    assert!(rt; kernel.frame(last) == Frame::Untyped);
    assert!(rt;
        kernel.number(0)
            == Liveness::Live {
                epoch: 1,
                frame: FrameNo::new(3)
            }
    );
    assert!(rt; kernel.number(63) == Liveness::Unused);
    assert!(rt; kernel.cores() == 8);
    assert!(rt; kernel.core(CoreNo::new(0)).thread == FrameNo::new(4));
    assert!(rt; kernel.core(CoreNo::new(7)).tcap == FrameNo::new(19));
    let last_core = CoreNo::new(7);
    assert!(rt; kernel.pending(last_place(), last_core) == nothing());
    assert!(rt; kernel.pending(Thing::FrameOf(last), last_core) == nothing());
    assert!(rt; kernel.pending(Thing::NumberOf(63), last_core) == nothing());
    assert!(rt; kernel.waits(last_place()) == CoreSet::empty());
    assert!(rt; kernel.unflushed(last_place()) == CoreSet::empty());
    Ok(())
}

#[test]
fn sets_each_part(rt: HostRuntime) -> Result<(), Fail> {
    let setup = machine(2, 16).ok_or("a setup")?;
    let mut kernel = SeqKernel::start(rt.alloc(), &setup)?;
    let last = FrameNo::new(15);
    let removed = Cap::new(Kind::Comp, FrameNo::new(3), 0);
    kernel.set_place(FrameNo::new(1), EntryNo::new(3), Place::Quiescing(removed));
    place_is(&rt, &kernel, 1, 2, plain(Kind::Pages, 2));
    place_is(&rt, &kernel, 1, 3, Place::Quiescing(removed));
    place_is(&rt, &kernel, 1, 4, plain(Kind::Thread, 4));
    assert!(rt; kernel.refs(FrameNo::new(3)) == 3);
    kernel.set_frame(last, Frame::User);
    assert!(rt; kernel.frame(last) == Frame::User);
    kernel.set_number(63, Liveness::Dead { epoch: 2 });
    assert!(rt; kernel.number(63) == Liveness::Dead { epoch: 2 });
    assert!(rt; kernel.cores() == 2);
    let core = *kernel.core(CoreNo::new(1));
    kernel.set_core(CoreNo::new(1), Core { spent: 7, ..core });
    assert!(rt; kernel.core(CoreNo::new(1)).spent == 7);
    assert!(rt; kernel.core(CoreNo::new(0)).spent == 0);
    Ok(())
}

/// The last place of the largest machine.
fn last_place() -> Thing
    ensures { HasIndex (thing_of result) }
{
    Thing::PlaceOf {
        node: FrameNo::new(511),
        index: EntryNo::new(63),
    }
}

/// A frame as a thing with a grace period.
fn frame_15() -> Thing
    ensures { HasIndex (thing_of result) }
{
    Thing::FrameOf(FrameNo::new(15))
}

/// Nothing to do for a grace period.
fn nothing() -> Pending {
    Pending {
        waits: false,
        not_passed: false,
        unflushed: false,
        flush_unknown: false,
    }
}

#[test]
fn enters_returns_and_flushes(rt: HostRuntime) -> Result<(), Fail> {
    let setup = machine(2, 16).ok_or("a setup")?;
    let mut kernel = SeqKernel::start(rt.alloc(), &setup)?;
    assert!(rt; kernel.cores() == 2);
    let one = CoreNo::new(1);
    kernel.enter(one);
    assert!(rt; kernel.core(one).inside);
    kernel.begin(frame_15(), true);
    let begun = Pending {
        waits: true,
        not_passed: true,
        unflushed: true,
        flush_unknown: true,
    };
    assert!(rt; kernel.pending(frame_15(), one) == begun);
    assert!(rt; kernel.waits(frame_15()) == CoreSet::empty().with(one));
    kernel.flush(one);
    kernel.leave(one);
    assert!(rt; !kernel.core(one).inside);
    let left = Pending {
        not_passed: true,
        ..nothing()
    };
    assert!(rt; kernel.pending(frame_15(), one) == left);
    assert!(rt; kernel.unflushed(frame_15()) == CoreSet::empty().with(CoreNo::new(0)));
    kernel.enter(one);
    assert!(rt; kernel.pending(frame_15(), one) == left);
    kernel.leave(one);
    assert!(rt; kernel.pending(frame_15(), one) == nothing());
    kernel.clear(frame_15());
    assert!(rt; kernel.pending(frame_15(), CoreNo::new(0)) == nothing());
    Ok(())
}

#[test]
fn a_stack_holds_what_was_pushed(rt: HostRuntime) {
    let mut stack = Stack::one(FrameNo::new(3));
    stack.push(FrameNo::new(9));
    assert!(rt; stack.len() == 2);
    assert!(rt; stack.top() == Some(FrameNo::new(9)));
    assert!(rt; stack.times(FrameNo::new(3)) == 1);
    stack.pop();
    assert!(rt; stack == Stack::one(FrameNo::new(3)));
}
