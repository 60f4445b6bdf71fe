//! The changes of the plain kernel's state: each sets one part and leaves all else. None takes memory.
//!
//! What is set past the machine's frames or liveness numbers is no part of the machine.

ghost use Rattle.std.specs.Prelude.{◌≡◌, ◌<◌, ◌≤◌};
ghost use Rattle.kernel_invariant.specs.kernel_rules.specs.State.{with_place, with_frame, with_number, with_core};
ghost use Rattle.seq_state.specs.Parts.{place_held, frame_of, number_of, core_of, thing_of};
ghost use Rattle.seq_state.specs.Maps.{state_of, grace_from};
ghost use Rattle.kernel_invariant.specs.kernel_rules.specs.Start.{no_grace};
ghost use Rattle.seq_state.specs.Passing.{grace_begun};
ghost use Rattle.seq_state.specs.Representation.{HasIndex, with_grace_of, Represents};

use crate::counts::{names_of_core, names_of_frame, names_of_number, names_of_place, recount};
use crate::kernel::{SeqKernel, place_key};
use crate::maps::{standing, write_at};
use crate::parts::{Core, Frame, Liveness, Place, Thing};
use crate::times::Period;
use kernel_invariant::spk_nums::{CoreNo, EntryNo, FrameNo};

impl SeqKernel {
    /// Sets a place of a node, the index below 64.
    pub fn set_place(&mut self, node: FrameNo, index: EntryNo, place: Place)
        requires { index < 64 }
        ensures machine { Represents self.new (with_place (state_of self.old) node index (place_held place)) }
        ensures exact { node < (state_of self.old).limits.frames
            → state_of self.new ≡ with_place (state_of self.old) node index (place_held place) }
    {
        if node.number() < self.frame_count {
            let key = place_key(node, index);
            let old = names_of_place(standing(&self.places, key));
            recount(&mut self.counts, old, names_of_place(&place));
            write_at(&mut self.places, key, place);
        }
    }

    /// Sets a frame; its places stay.
    pub fn set_frame(&mut self, frame: FrameNo, value: Frame)
        ensures machine { Represents self.new (with_frame (state_of self.old) frame (frame_of value)) }
        ensures exact { frame < (state_of self.old).limits.frames
            → state_of self.new ≡ with_frame (state_of self.old) frame (frame_of value) }
    {
        let key = frame.number();
        if key < self.frame_count {
            let old = names_of_frame(standing(&self.frames, key));
            recount(&mut self.counts, old, names_of_frame(&value));
            write_at(&mut self.frames, key, value);
        }
    }

    /// Sets a liveness number.
    pub fn set_number(&mut self, number: u8, value: Liveness)
        ensures machine { Represents self.new (with_number (state_of self.old) number (number_of value)) }
        ensures exact { number < 64 → state_of self.new ≡ with_number (state_of self.old) number (number_of value) }
    {
        if number < 64 {
            let key = u16::from(number);
            let old = names_of_number(standing(&self.numbers, key));
            recount(&mut self.counts, old, names_of_number(&value));
            write_at(&mut self.numbers, key, value);
        }
    }

    /// Sets a core of the machine, which stays in its call or out of it.
    pub fn set_core(&mut self, core: CoreNo, value: Core)
        requires machine { core < (state_of self.old).limits.cores }
        requires inside { value.inside ≡ ((state_of self.old).core core).inside }
        ensures { state_of self.new ≡ with_core (state_of self.old) core (core_of value) }
    {
        let key = u16::from(core.number());
        let old = names_of_core(standing(&self.cores, key));
        recount(&mut self.counts, old, names_of_core(&value));
        write_at(&mut self.cores, key, value);
    }

    /// Sets when the grace period of a thing began, now at the latest; a place's index is below 64.
    fn set_period(&mut self, thing: Thing, period: Period)
        requires index { HasIndex (thing_of thing) }
        requires begun { period.began ≤ self.old.clock }
        ensures { Represents self.new (with_grace_of (state_of self.old) (thing_of thing) (grace_from self.old period)) }
    {
        match thing {
            Thing::PlaceOf { node, index } => write_at(
                &mut self.place_graces,
                place_key(node, index),
                period,
            ),
            Thing::FrameOf(frame) => write_at(&mut self.frame_graces, frame.number(), period),
            Thing::NumberOf(number) => write_at(&mut self.number_graces, u16::from(number), period),
        }
    }

    /// Begins the grace period of a thing, with flushes or without: the cores in a call wait, and all cores are still to pass
    /// it. A place's index is below 64.
    pub fn begin(&mut self, thing: Thing, flushes: bool)
        requires { HasIndex (thing_of thing) }
        ensures { Represents self.new
            (with_grace_of (state_of self.old) (thing_of thing) (grace_begun (state_of self.old) flushes)) }
    {
        let began = self.tick();
        self.set_period(thing, Period { began, flushes });
    }

    /// Ends the grace period of a thing; a place's index is below 64.
    pub fn clear(&mut self, thing: Thing)
        requires { HasIndex (thing_of thing) }
        ensures { Represents self.new (with_grace_of (state_of self.old) (thing_of thing) no_grace) }
    {
        self.set_period(thing, Period::none());
    }
}
