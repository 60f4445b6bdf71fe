//! Beginning grace periods, and the changes of places that several calls share.

ghost use Rattle.std.specs.Prelude.{◌≡◌, [], ◌∷◌};
ghost use Rattle.seq_state.specs.kernel_rules.specs.GracePeriods.{begun, needs_flush, is_translated, is_paging};
ghost use Rattle.seq_state.specs.kernel_rules.specs.State.{Holds, with_place};
ghost use Rattle.seq_state.specs.Parts.{frame_of, thing_of};
ghost use Rattle.seq_state.specs.Maps.{state_of};
ghost use Rattle.seq_state.specs.Representation.{HasIndex, Represents};
ghost use Rattle.seq_lookups.specs.Carried.{removed};

use crate::slots::Slot;
use seq_state::spk_nums::{Cap, Kind};
use seq_state::{Frame, Object, Place, SeqKernel, Thing};

/// Whether a frame is a node of page maps.
fn is_paging(frame: Frame) -> bool
    ensures { result ≡ is_paging (frame_of frame) }
{
    match frame {
        Frame::Kernel(Object::Pages) => true,
        Frame::Kernel(Object::Pleaf) => true,
        _ => false,
    }
}

/// Whether a frame may be reached through translations.
fn is_translated(frame: Frame) -> bool
    ensures { result ≡ is_translated (frame_of frame) }
{
    match frame {
        Frame::User => true,
        _ => is_paging(frame),
    }
}

/// Whether a thing's grace period also waits for the flushes of all cores.
fn needs_flush(k: &SeqKernel, thing: &Thing) -> bool
    ensures { result ≡ needs_flush (state_of k.now) (thing_of thing.now) }
{
    match thing {
        Thing::PlaceOf { node, .. } => is_paging(k.frame(*node)),
        Thing::FrameOf(frame) => is_translated(k.frame(*frame)),
        Thing::NumberOf(_) => false,
    }
}

/// Begins the grace period of a thing: the cores in a call wait, and all cores are still to pass it.
pub fn begin(k: &mut SeqKernel, thing: Thing)
    requires { HasIndex (thing_of thing) }
    ensures { Represents k.new (begun (state_of k.old) (thing_of thing ∷ []) (state_of k.old)) }
{
    let flushes = needs_flush(k, &thing);
    k.begin(thing, flushes);
}

/// Fills a place: it then holds the capability.
pub fn fill(k: &mut SeqKernel, at: Slot, cap: Cap)
    ensures { Represents k.new (with_place (state_of k.old) at.node at.index (Holds cap)) }
{
    k.set_place(at.node(), at.index(), Place::Holds(cap));
}

/// Removes what a place holds: the place is quiescing, its grace period begins, and so does that of the frame to which what it
/// held had a reference. The place is not free before its grace period is over.
pub fn remove(k: &mut SeqKernel, at: Slot, cap: Cap)
    ensures { Represents k.new (removed (state_of k.old) at cap) }
{
    begin(k, at.thing());
    match cap.kind() {
        Kind::Range => {}
        _ => begin(k, Thing::FrameOf(cap.frame())),
    }
    k.set_place(at.node(), at.index(), Place::Quiescing(cap));
}
