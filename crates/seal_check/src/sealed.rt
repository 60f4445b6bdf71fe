//! Whether a set of frames is sealed.

ghost use Rattle.std.specs.Prelude.{◌≡◌, ◌<◌, ◌&&◌, false};
ghost use Rattle.seq_lookups.specs.seq_state.specs.kernel_rules.specs.Access.{found};
ghost use Rattle.seq_lookups.specs.seq_state.specs.kernel_rules.specs.CapabilityCalls.{has_frame};
ghost use Rattle.seq_lookups.specs.seq_state.specs.Parts.{frame_of};
ghost use Rattle.seq_lookups.specs.seq_state.specs.Maps.{state_of};
ghost use Rattle.world_laws.specs.Worlds.{gates, HoldsNone};
ghost use Rattle.seal_check.specs.Sealing.{Tells, is_in, IsRangeFree, MeetsBy, IsPlaceFree, ArePlacesFree, has_none, IsFrameFree};
ghost use Rattle.seal_check.specs.Sealing.{IsSealedHere, TellsSeal};

use crate::held::{holds, in_range, used_at};
use seq_lookups::Slot;
use seq_lookups::seq_state::{Frame, Object, SeqKernel};
use spk_nums::{Cap, EntryNo, FrameNo, Kind};

/// Whether a frame is in the world; one past the slice is not.
fn is_in(world: &[bool], frame: usize) -> bool
    ensures { result ≡ is_in world.now frame }
{
    match world.get(frame) {
        Some(inside) => *inside,
        None => false,
    }
}

/// Whether a frame is in the world and in a range.
fn is_in_both(world: &[bool], range: Cap, frame: usize) -> bool
    ensures { result ≡ (is_in world.now frame && has_frame (found range) frame) }
{
    is_in(world, frame) && in_range(range, frame)
}

/// Whether no frame of a range is in the world.
fn is_range_free(world: &[bool], range: Cap) -> bool
    ensures { Tells result (IsRangeFree (is_in world.now) range) }
{
    'frames: for frame in 0..world.len() {
        if is_in_both(world, range, frame) {
            return false;
        }
    }
    true
}

/// Whether a capability leads to a frame of the world.
fn meets(world: &[bool], cap: Cap) -> bool
    ensures { MeetsBy cap.kind (is_in world.now) cap result }
{
    match cap.kind() {
        Kind::Range => !is_range_free(world, cap),
        _ => is_in(world, usize::from(cap.frame().number())),
    }
}

/// Whether a capability holds nothing of the world.
fn spares(world: &[bool], cap: Cap) -> bool
    ensures { Tells result (HoldsNone (is_in world.now) gates cap) }
{
    if !holds(cap) {
        return true;
    }
    !meets(world, cap)
}

/// Whether a place holds nothing of the world for any core.
fn is_free(k: &SeqKernel, world: &[bool], at: Slot) -> bool
    ensures { Tells result (IsPlaceFree (state_of k.now) (is_in world.now) at) }
{
    match used_at(k, at) {
        None => true,
        Some(cap) => spares(world, cap),
    }
}

/// Whether no place of a node holds anything of the world.
fn are_free(k: &SeqKernel, world: &[bool], node: FrameNo) -> bool
    ensures { Tells result (ArePlacesFree (state_of k.now) (is_in world.now) node) }
{
    'places: for index in 0..64 {
        if !is_free(k, world, Slot::new(node, EntryNo::new(index))) {
            return false;
        }
    }
    true
}

/// Whether a component has neither its table nor its pages in the world.
fn has_none(world: &[bool], value: Frame) -> bool
    ensures { result ≡ has_none (is_in world.now) (frame_of value) }
{
    match value {
        Frame::Kernel(Object::Comp(comp)) => {
            !is_in(world, usize::from(comp.table.number()))
                && !is_in(world, usize::from(comp.pages.number()))
        }
        _ => true,
    }
}

/// Whether neither the fields nor the places of a frame hold anything of the world.
fn is_frame_free(k: &SeqKernel, world: &[bool], frame: FrameNo) -> bool
    ensures { Tells result (IsFrameFree (state_of k.now) (is_in world.now) frame) }
{
    if !has_none(world, k.frame(frame)) {
        return false;
    }
    are_free(k, world, frame)
}

/// Whether a frame is in the world, or holds nothing of it.
fn is_fine(k: &SeqKernel, world: &[bool], frame: FrameNo) -> bool
    ensures { Tells result (is_in world.now frame ≡ false → IsFrameFree (state_of k.now) (is_in world.now) frame) }
{
    if is_in(world, usize::from(frame.number())) {
        return true;
    }
    is_frame_free(k, world, frame)
}

/// Whether a world, the frames at which the slice is true, is sealed: no place outside has a capability for any core, also one that was
/// removed and still serves a call, that holds something of it; and no component outside has its table or its pages there. Frames past
/// the slice are outside; what the slice says of frames past the machine's changes nothing.
pub fn is_sealed(k: &SeqKernel, world: &[bool]) -> bool
    ensures here { Tells result (IsSealedHere (state_of k.now) (is_in world.now)) }
    ensures reached { TellsSeal k.now world.now result }
{
    is_all_fine(k, world)
}

/// Whether no frame of the machine outside holds anything of the world.
fn is_all_fine(k: &SeqKernel, world: &[bool]) -> bool
    ensures { Tells result (IsSealedHere (state_of k.now) (is_in world.now)) }
{
    'frames: for frame in 0..k.frames() {
        if !is_fine(k, world, FrameNo::new(frame)) {
            return false;
        }
    }
    true
}
