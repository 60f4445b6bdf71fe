//! The plain kernel's state, in lists.

ghost use Rattle.std.specs.Prelude.{◌≡◌, ◌<◌, ◌+◌, ◌*◌, ◌==◌, if◌then◌else◌, ℕ};
ghost use Rattle.kernel_invariant.specs.kernel_rules.specs.References.{refs};
ghost use Rattle.seq_state.specs.Parts.{place_held, frame_of, number_of, core_of, thing_of};
ghost use Rattle.kernel_invariant.specs.spk_nums.specs.CoreSets.{has_core};
ghost use Rattle.seq_state.specs.Maps.{at, core_or_none, state_of, period_of, grace_from, LimitsFit};
ghost use Rattle.seq_state.specs.Representation.{HasIndex};

use crate::maps::{held, standing};
use crate::parts::{Core, Frame, Liveness, Pending, Place, Thing};
use crate::times::{Period, Times};
use kernel_invariant::spk_nums::{CoreNo, CoreSet, EntryNo, FrameNo};
use std::marker::Model;

/// The state of the sequential kernel in lists by number.
///
/// Each key of the machine stands from the start, so that a change takes no memory and cannot fail half-way. The key of a place
/// is 64 times its node's frame and its index; every other key is the number itself. The references to each frame are kept
/// beside the lists. Contracts see the state that the lists stand for, `state_of`; past the machine's frames there is nothing to
/// read and nothing to set.
#[derive(Drop)]
pub struct SeqKernel {
    pub(crate) places: Vec<Place>,
    pub(crate) frames: Vec<Frame>,
    pub(crate) numbers: Vec<Liveness>,
    pub(crate) cores: Vec<Core>,
    pub(crate) place_graces: Vec<Period>,
    pub(crate) frame_graces: Vec<Period>,
    pub(crate) number_graces: Vec<Period>,
    pub(crate) times: [Times; 8],
    pub(crate) clock: u32,
    pub(crate) counts: Vec<u32>,
    pub(crate) core_count: u8,
    pub(crate) frame_count: u16,
    pub(crate) calls: u64,
    pub(crate) epochs: u16,
}

impl Model for SeqKernel {
    ghost use Rattle.seq_state.specs.Maps.{Maps};

    ghost Value = { Maps };

    ghost use Rattle.seq_state.specs.Kernel.{maps_of, IsKernel};

    ghost view = { maps_of };

    ghost invariant = { IsKernel };
}

/// The key of a place.
pub(crate) fn place_key(node: FrameNo, index: EntryNo) -> u16
    requires { index < 64 }
    ensures { result ≡ 64 * node + index }
{
    64 * node.number() + index.number()
}

/// Whether the core at a key is in a call; false where it does not stand.
fn is_inside(cores: &Vec<Core>, key: u16) -> bool
    ensures { result ≡ (core_or_none (at cores.now.items key)).inside }
{
    match held(cores, key) {
        Some(core) => core.inside,
        None => false,
    }
}

/// The set with a core or without it.
fn put(set: CoreSet, core: CoreNo, member: bool) -> CoreSet
    ensures { (other : ℕ) → other < 8 → has_core result other ≡ (if other == core then member else has_core set other) }
{
    if member {
        set.with(core)
    } else {
        set.without(core)
    }
}

impl SeqKernel {
    /// The number of cores, 1 to 8.
    pub fn cores(&self) -> u8
        ensures value { result ≡ (state_of self.now).limits.cores }
        ensures limits { LimitsFit (state_of self.now).limits }
    {
        self.core_count
    }

    /// The number of frames, `4 + 2 * cores` to 512.
    pub fn frames(&self) -> u16
        ensures value { result ≡ (state_of self.now).limits.frames }
        ensures limits { LimitsFit (state_of self.now).limits }
    {
        self.frame_count
    }

    /// The most calls that a core may make, at most 2^40 - 1. No change sets it.
    pub fn calls(&self) -> u64
        ensures value { result ≡ (state_of self.now).limits.calls }
        ensures limits { LimitsFit (state_of self.now).limits }
    {
        self.calls
    }

    /// The most epochs that a liveness number has, 1 to 65,535. No change sets it.
    pub fn epochs(&self) -> u16
        ensures value { result ≡ (state_of self.now).limits.epochs }
        ensures limits { LimitsFit (state_of self.now).limits }
    {
        self.epochs
    }

    /// The place of a node, the index below 64; of a frame that is no node, what was left there. It is free past the
    /// machine's frames.
    pub fn place(&self, node: FrameNo, index: EntryNo) -> Place
        requires { index < 64 }
        ensures { place_held result ≡ (state_of self.now).place node index }
    {
        held(&self.places, place_key(node, index)).unwrap_or(Place::Free)
    }

    /// The frame; untyped past the machine's frames.
    pub fn frame(&self, frame: FrameNo) -> Frame
        ensures { frame_of result ≡ (state_of self.now).frame frame }
    {
        match held(&self.frames, frame.number()) {
            Some(value) => value,
            None => Frame::Untyped,
        }
    }

    /// The liveness number; unused past 63.
    pub fn number(&self, number: u8) -> Liveness
        ensures { number_of result ≡ (state_of self.now).number number }
    {
        held(&self.numbers, u16::from(number)).unwrap_or(Liveness::Unused)
    }

    /// The core, one of the machine's.
    pub fn core(&self, core: CoreNo) -> &Core
        requires { core < (state_of self.now).limits.cores }
        ensures { core_of result.now ≡ (state_of self.now).core core }
    {
        standing(&self.cores, u16::from(core.number()))
    }

    /// The references to a frame: those of all places that hold a capability, a link or a page, ranges
    /// excepted; of components, stacks, cores and live liveness numbers.
    pub fn refs(&self, frame: FrameNo) -> u32
        ensures { result ≡ refs (state_of self.now) frame }
    {
        self.counts[usize::from(frame.number())]
    }

    /// When the grace period of a thing began.
    fn period(&self, thing: Thing) -> Period
        requires { HasIndex (thing_of thing) }
        ensures { result ≡ period_of self.now (thing_of thing) }
    {
        let found = match thing {
            Thing::PlaceOf { node, index } => held(&self.place_graces, place_key(node, index)),
            Thing::FrameOf(frame) => held(&self.frame_graces, frame.number()),
            Thing::NumberOf(number) => held(&self.number_graces, u16::from(number)),
        };
        found.unwrap_or(Period::none())
    }

    /// What a core has still to do in a grace period.
    fn part(&self, period: Period, core: CoreNo) -> Pending
        ensures waits { result.waits ≡ (grace_from self.now period).waits core }
        ensures not_passed { result.not_passed ≡ (grace_from self.now period).not_passed core }
        ensures unflushed { result.unflushed ≡ (grace_from self.now period).unflushed core }
        ensures flush_unknown { result.flush_unknown ≡ (grace_from self.now period).flush_unknown core }
    {
        let inside = is_inside(&self.cores, u16::from(core.number()));
        let times = &self.times[usize::from(core.number())];
        Pending {
            waits: inside & (times.entered < period.began),
            not_passed: times.passed < period.began,
            unflushed: period.flushes & (times.flushed < period.began),
            flush_unknown: period.flushes & (times.flush_known < period.began),
        }
    }

    /// What a core has still to do in the grace period of a thing: nothing for what the machine does not have. A place's
    /// index is below 64.
    pub fn pending(&self, thing: Thing, core: CoreNo) -> Pending
        requires { HasIndex (thing_of thing) }
        ensures waits { result.waits ≡ ((state_of self.now).grace (thing_of thing)).waits core }
        ensures not_passed { result.not_passed ≡ ((state_of self.now).grace (thing_of thing)).not_passed core }
        ensures unflushed { result.unflushed ≡ ((state_of self.now).grace (thing_of thing)).unflushed core }
        ensures flush_unknown { result.flush_unknown ≡ ((state_of self.now).grace (thing_of thing)).flush_unknown core }
    {
        self.part(self.period(thing), core)
    }

    /// The cores that are still in the call in which the removal of a thing met them.
    pub fn waits(&self, thing: Thing) -> CoreSet
        requires { HasIndex (thing_of thing) }
        ensures { (core : ℕ) → core < (state_of self.now).limits.cores
            → has_core result core ≡ ((state_of self.now).grace (thing_of thing)).waits core }
    {
        let period = self.period(thing);
        let mut set = CoreSet::empty();
        'each: for number in 0..self.cores() {
            let core = CoreNo::new(number);
            set = put(set, core, self.part(period, core).waits);
        }
        set
    }

    /// The cores that have decided no flush since the removal of a thing whose users may have translations.
    pub fn unflushed(&self, thing: Thing) -> CoreSet
        requires { HasIndex (thing_of thing) }
        ensures { (core : ℕ) → core < (state_of self.now).limits.cores
            → has_core result core ≡ ((state_of self.now).grace (thing_of thing)).unflushed core }
    {
        let period = self.period(thing);
        let mut set = CoreSet::empty();
        'each: for number in 0..self.cores() {
            let core = CoreNo::new(number);
            set = put(set, core, self.part(period, core).unflushed);
        }
        set
    }
}
