//! The start state.

ghost use Rattle.std.specs.Prelude.{◌≡◌, ◌<◌, ◌≤◌, ◌+◌, ◌-◌, ◌*◌, ◌/◌, ◌%◌, IfOk, Some, IsSome, slice_get, length, [], ◌∷◌};
ghost use Rattle.kernel_invariant.specs.spk_nums.specs.Limits.{least_arg, end_of_arg};
ghost use Rattle.kernel_invariant.specs.kernel_rules.specs.Start.{plain_cap, start_range, core_cap, start_cap, start_place, granted, grant_pair};
ghost use Rattle.kernel_invariant.specs.kernel_rules.specs.Start.{start_frame, start_number, start_core, start, place_with};
ghost use Rattle.seq_state.specs.Parts.{place_held, tcap_fields_of, frame_of, number_of, core_of, thread_fields_of};
ghost use Rattle.seq_state.specs.Times.{no_period};
ghost use Rattle.seq_state.specs.Maps.{HasAll, HasKeys};
ghost use Rattle.seq_state.specs.Counted.{IsCounted};
ghost use Rattle.seq_state.specs.Representation.{Represents};

use crate::counts::{count_cores, count_frames, count_numbers, count_places};
use crate::kernel::SeqKernel;
use crate::maps::insert_at;
use crate::parts::{CompFields, Core, Frame, Liveness, Object, Place, TcapFields, ThreadFields};
use crate::stack::Stack;
use crate::times::{Period, Times};
use kernel_invariant::spk_nums::{
    Cap, CoreNo, FrameNo, Grant, Kind, Memory, Qualities, Setup, Translations,
};
use std::alloc::Global;

/// A capability to a frame, without a number of its own.
fn plain_cap(kind: Kind, frame: u16) -> Cap
    requires least { least_arg kind ≡ 0 }
    requires end { 0 < end_of_arg kind }
    requires frame { frame < 512 }
    ensures { result ≡ plain_cap kind frame }
{
    Cap::new(kind, FrameNo::new(frame), 0)
}

/// The range of the frames that are untyped at the start.
fn range_cap(setup: &Setup) -> Cap
    ensures { result ≡ start_range setup.now }
{
    let first = 4 + 2 * u16::from(setup.cores());
    Cap::new(
        Kind::Range,
        FrameNo::new(first),
        u32::from(setup.frames() - first),
    )
}

/// The capability that each core is given at an index of the leaf: 4 + c to its thread, 12 + c to its temporal capability.
fn cap_of_core(setup: &Setup, index: u16) -> Option<Cap>
    ensures { result ≡ core_cap setup.now index }
{
    let cores = u16::from(setup.cores());
    if index < 4 {
        None
    } else if index < 4 + cores {
        Some(plain_cap(Kind::Thread, index))
    } else if index < 12 {
        None
    } else if index < 12 + cores {
        Some(plain_cap(Kind::Tcap, 4 + cores + (index - 12)))
    } else {
        None
    }
}

/// The capability at an index of the leaf.
fn cap_at(setup: &Setup, index: u16) -> Option<Cap>
    ensures { result ≡ start_cap setup.now index }
{
    if index == 0 {
        Some(range_cap(setup))
    } else if index == 1 {
        Some(plain_cap(Kind::Table, 0))
    } else if index == 2 {
        Some(plain_cap(Kind::Pages, 2))
    } else if index == 3 {
        Some(plain_cap(Kind::Comp, 3))
    } else {
        cap_of_core(setup, index)
    }
}

/// A place that holds the capability, or is free.
fn place_with(cap: Option<Cap>) -> Place
    ensures { place_held result ≡ place_with cap }
{
    match cap {
        None => Place::Free,
        Some(cap) => Place::Holds(cap),
    }
}

/// The place of a node.
fn place_at(setup: &Setup, node: u16, index: u16) -> Place
    ensures { place_held result ≡ start_place setup.now node index }
{
    if node == 0 {
        if index == 0 {
            Place::Holds(plain_cap(Kind::Link, 1))
        } else {
            Place::Free
        }
    } else if node == 1 {
        place_with(cap_at(setup, index))
    } else {
        Place::Free
    }
}

/// The temporal capability that a grant gives.
fn tcap_with(grant: Option<Grant>) -> TcapFields
    requires { ForSome grant GrantFits }
    ensures { tcap_fields_of result ≡ granted grant }
{
    match grant {
        None => TcapFields {
            budget: 0,
            qualities: Qualities::empty(),
        },
        Some(grant) => TcapFields {
            budget: grant.budget,
            qualities: Qualities::one(grant.sched, grant.quality),
        },
    }
}

/// The temporal capability of a core.
fn tcap_at(setup: &Setup, core: u16) -> TcapFields
    ensures { tcap_fields_of result ≡ granted (slice_get setup.now.grants core) }
{
    tcap_with(setup.grants().get(usize::from(core)))
}

/// The scheduler and the number of a core's grant.
fn grant_at(setup: &Setup, core: u16) -> (u8, u32)
    ensures { result ≡ grant_pair (slice_get setup.now.grants core) }
{
    match setup.grants().get(usize::from(core)) {
        None => (0, 0),
        Some(grant) => (grant.sched, grant.quality),
    }
}

/// The thread of a core, in the component in frame 3.
fn thread_at(core: u8) -> ThreadFields
    requires { core < 8 }
    ensures { thread_fields_of result ≡ record { stack = 3 ∷ []; runs_on = Some core } }
{
    ThreadFields {
        stack: Stack::one(FrameNo::new(3)),
        runs_on: Some(CoreNo::new(core)),
    }
}

/// The object in one of the first frames; the others are untyped.
fn frame_at(setup: &Setup, frame: u16) -> Frame
    ensures { frame_of result ≡ start_frame setup.now frame }
{
    let cores = u16::from(setup.cores());
    if frame == 0 {
        Frame::Kernel(Object::Table)
    } else if frame == 1 {
        Frame::Kernel(Object::Leaf)
    } else if frame == 2 {
        Frame::Kernel(Object::Pages)
    } else if frame == 3 {
        Frame::Kernel(Object::Comp(CompFields {
            table: FrameNo::new(0),
            pages: FrameNo::new(2),
            number: 0,
            epoch: 1,
        }))
    } else if frame < 4 + cores {
        Frame::Kernel(Object::Thread(thread_at((frame - 4) as u8)))
    } else if frame < 4 + 2 * cores {
        Frame::Kernel(Object::Tcap(tcap_at(setup, frame - 4 - cores)))
    } else {
        Frame::Untyped
    }
}

/// A liveness number: 0 is live for the component.
fn number_at(number: u16) -> Liveness
    ensures { number_of result ≡ start_number number }
{
    if number == 0 {
        Liveness::Live {
            epoch: 1,
            frame: FrameNo::new(3),
        }
    } else {
        Liveness::Unused
    }
}

/// A core, on its own thread and temporal capability.
fn core_at(setup: &Setup, core: u16) -> Core
    requires { core < 8 }
    ensures { core_of result ≡ start_core setup.now core }
{
    Core {
        inside: false,
        thread: FrameNo::new(4 + core),
        tcap: FrameNo::new(4 + u16::from(setup.cores()) + core),
        cached: Translations::empty(),
        spent: 0,
        back: 0,
        owed: 0,
        counted: 0,
        grant: grant_at(setup, core),
    }
}

/// The places of all frames.
fn all_places(alloc: Global, setup: &Setup) -> Result<Vec<Place>, Memory>
    ensures { IfOk result (λ m. HasAll (64 * setup.now.frames) m.items (λ k p. place_held p ≡ start_place setup.now (k / 64) (k % 64))) }
{
    let mut map = Vec::new(alloc);
    'each: for key in 0..64 * setup.frames() {
        insert_at(&mut map, key, place_at(setup, key / 64, key % 64))?;
    }
    Ok(map)
}

/// All frames.
fn all_frames(alloc: Global, setup: &Setup) -> Result<Vec<Frame>, Memory>
    ensures { IfOk result (λ m. HasAll setup.now.frames m.items (λ k x. frame_of x ≡ start_frame setup.now k)) }
{
    let mut map = Vec::new(alloc);
    'each: for key in 0..setup.frames() {
        insert_at(&mut map, key, frame_at(setup, key))?;
    }
    Ok(map)
}

/// All liveness numbers.
fn all_numbers(alloc: Global) -> Result<Vec<Liveness>, Memory>
    ensures { IfOk result (λ m. HasAll 64 m.items (λ k x. number_of x ≡ start_number k)) }
{
    let mut map = Vec::new(alloc);
    'each: for key in 0..64 {
        insert_at(&mut map, key, number_at(key))?;
    }
    Ok(map)
}

/// All cores.
fn all_cores(alloc: Global, setup: &Setup) -> Result<Vec<Core>, Memory>
    ensures { IfOk result (λ m. HasAll setup.now.cores m.items (λ k x. core_of x ≡ start_core setup.now k)) }
{
    let mut map = Vec::new(alloc);
    'each: for key in 0..u16::from(setup.cores()) {
        insert_at(&mut map, key, core_at(setup, key))?;
    }
    Ok(map)
}

/// No grace period at any key below `end`.
fn all_graces(alloc: Global, end: u16) -> Result<Vec<Period>, Memory>
    ensures { IfOk result (λ m. HasAll end m.items (λ k p. p ≡ no_period)) }
{
    let mut map = Vec::new(alloc);
    let none = Period::none();
    'each: for key in 0..end {
        insert_at(&mut map, key, none)?;
    }
    Ok(map)
}

/// No reference to any frame, 0 to 511.
fn no_counts(alloc: Global) -> Result<Vec<u32>, Memory>
    ensures zeros { IfOk result (λ v. HasAll 512 v.items (λ k n. n ≡ 0)) }
    ensures all { IfOk result (λ v. length v.items ≡ 512) }
{
    let mut map = Vec::new(alloc);
    'each: for key in 0..512 {
        insert_at(&mut map, key, 0_u32)?;
    }
    Ok(map)
}

/// The references to each frame, by what is at the keys of the machine.
fn all_counts(
    alloc: Global,
    setup: &Setup,
    places: &Vec<Place>,
    frames: &Vec<Frame>,
    numbers: &Vec<Liveness>,
    cores: &Vec<Core>,
) -> Result<Vec<u32>, Memory>
    requires { HasKeys setup.now.cores cores.now.items }
    ensures { IfOk result (λ v. IsCounted setup.now.frames setup.now.cores places.now.items frames.now.items numbers.now.items
        cores.now.items v.items) }
{
    let mut counts = no_counts(alloc)?;
    count_places(&mut counts, places, 64 * setup.frames());
    count_frames(&mut counts, frames, setup.frames());
    count_cores(&mut counts, cores, u16::from(setup.cores()));
    count_numbers(&mut counts, numbers, 64);
    Ok(counts)
}

impl SeqKernel {
    /// The start state of a machine: every key stands in its maps from now on, so that nothing later takes memory. Want of
    /// memory leaves nothing.
    pub fn start(alloc: Global, setup: &Setup) -> Result<SeqKernel, Memory>
        ensures { IfOk result (λ k. Represents k (start setup.now)) }
    {
        let places = all_places(alloc, setup)?;
        let frames = all_frames(alloc, setup)?;
        let numbers = all_numbers(alloc)?;
        let cores = all_cores(alloc, setup)?;
        let place_graces = all_graces(alloc, 64 * setup.frames())?;
        let frame_graces = all_graces(alloc, setup.frames())?;
        let number_graces = all_graces(alloc, 64)?;
        let counts = all_counts(alloc, setup, &places, &frames, &numbers, &cores)?;
        Ok(SeqKernel {
            places,
            frames,
            numbers,
            cores,
            place_graces,
            frame_graces,
            number_graces,
            times: [Times::none(); 8],
            clock: 0,
            counts,
            core_count: setup.cores(),
            frame_count: setup.frames(),
            calls: setup.calls(),
            epochs: setup.epochs(),
        })
    }
}

ghost use Rattle.std.specs.Option.{ForSome};
ghost use Rattle.kernel_invariant.specs.spk_nums.specs.Setting.{GrantFits};
