//! The blank frame and the liveness number that a `make` takes, and what becomes of them.

ghost use Rattle.std.specs.Prelude.{◌≡◌, ◌<◌};
ghost use Rattle.seq_lookups.specs.spk_nums.specs.Limits.{least_arg, end_of_arg};
ghost use Rattle.seq_lookups.specs.seq_state.specs.kernel_rules.specs.CapabilityCalls.{epoch_of, is_blank, is_live};
ghost use Rattle.seq_lookups.specs.seq_state.specs.kernel_rules.specs.Edits.{cleared};
ghost use Rattle.seq_lookups.specs.seq_state.specs.Parts.{object_of, frame_of, number_of};
ghost use Rattle.seq_lookups.specs.seq_state.specs.Maps.{state_of};
ghost use Rattle.seq_lookups.specs.seq_state.specs.Representation.{Represents};
ghost use Rattle.seq_caps.specs.Holding.{holding};

use seq_lookups::Slot;
use seq_lookups::seq_state::{Frame, Liveness, Object, Place, SeqKernel, Thing};
use seq_lookups::spk_nums::{Cap, EntryNo, FrameNo, Kind};

/// Whether a frame is a blank kernel frame.
pub(crate) fn is_blank(frame: Frame) -> bool
    ensures { result ≡ is_blank (frame_of frame) }
{
    match frame {
        Frame::Kernel(Object::Blank) => true,
        _ => false,
    }
}

/// Every place of a node is free, without a grace period, whatever stood in its frame before.
pub(crate) fn clear(k: &mut SeqKernel, frame: FrameNo)
    ensures { Represents k.new (cleared (state_of k.old) frame) }
{
    'each: for number in 0..64 {
        let index = EntryNo::new(number);
        k.set_place(frame, index, Place::Free);
        k.clear(Thing::PlaceOf { node: frame, index });
    }
}

/// The frame holds the object, and the place its capability.
pub(crate) fn put(k: &mut SeqKernel, frame: FrameNo, object: Object, cap: Cap, at: Slot)
    requires { cap ≡ plain_cap cap.kind frame }
    ensures { Represents k.new (holding (state_of k.old) frame (object_of object) cap.kind at) }
{
    k.set_frame(frame, Frame::Kernel(object));
    k.set_place(at.node(), at.index(), Place::Holds(cap));
}

/// A capability to a frame, of a kind without a number.
pub(crate) fn plain_cap(kind: Kind, frame: FrameNo) -> Cap
    requires least { least_arg kind ≡ 0 }
    requires end { 0 < end_of_arg kind }
    ensures { result ≡ plain_cap kind frame }
{
    Cap::new(kind, frame, 0)
}

/// Whether a liveness number is live.
pub(crate) fn is_live(number: &Liveness) -> bool
    ensures { result ≡ is_live (number_of number.now) }
{
    match number {
        Liveness::Live { .. } => true,
        _ => false,
    }
}

/// The last epoch of a liveness number: 0 where it was never used.
pub(crate) fn epoch_of(number: &Liveness) -> u16
    ensures { result ≡ epoch_of (number_of number.now) }
{
    match number {
        Liveness::Unused => 0,
        Liveness::Live { epoch, .. } => *epoch,
        Liveness::Dead { epoch } => *epoch,
    }
}

ghost use Rattle.seq_lookups.specs.seq_state.specs.kernel_rules.specs.Start.{plain_cap};
