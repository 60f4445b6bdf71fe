//! The frames to which there are references, each as often as it is referenced.

ghost use Rattle.std.specs.Prelude.{◌≡◌, ◌<◌, ◌++◌, OnOk, [], ◌∷◌, Some, length, slice_get, reverse};
ghost use Rattle.seq_lookups.specs.seq_state.specs.kernel_rules.specs.State.{Kernel};
ghost use Rattle.seq_lookups.specs.seq_state.specs.kernel_rules.specs.References.{sum_below, times, named_by, place_names, frame_names};
ghost use Rattle.seq_lookups.specs.seq_state.specs.kernel_rules.specs.References.{number_names, core_names, refs};
ghost use Rattle.seq_lookups.specs.seq_state.specs.Parts.{place_held, object_of, frame_of, number_of, core_of};
ghost use Rattle.seq_lookups.specs.seq_state.specs.Maps.{state_of};
ghost use Rattle.table_lines.specs.Counting.{Adds};

use seq_lookups::seq_state::{CompFields, Core, Frame, Liveness, Object, Place, SeqKernel, Stack};
use spk_nums::{Cap, CoreNo, EntryNo, FrameNo, Kind};
use std::alloc::AllocError;

// Appends a frame.
fn push_name(names: &mut Vec<u64>, frame: FrameNo) -> Result<(), AllocError>
    ensures { OnOk result (names.new.items ≡ names.old.items ++ frame ∷ []) }
{
    names.push(u64::from(frame.number()))?;
    Ok(())
}

// Appends the frame that a capability names; a range names none.
fn push_cap(names: &mut Vec<u64>, cap: &Cap) -> Result<(), AllocError>
    ensures { OnOk result (names.new.items ≡ names.old.items ++ named_by cap.now.kind cap.now.frame) }
{
    if cap.kind() == Kind::Range {
        return Ok(());
    }
    names.push(u64::from(cap.frame().number()))?;
    Ok(())
}

fn push_place(names: &mut Vec<u64>, place: &Place) -> Result<(), AllocError>
    ensures { OnOk result (names.new.items ≡ names.old.items ++ place_names (place_held place.now)) }
{
    match place {
        Place::Free => Ok(()),
        Place::Holds(cap) => push_cap(names, cap),
        Place::Quiescing(_) => Ok(()),
    }
}

fn push_node(names: &mut Vec<u64>, k: &SeqKernel, node: FrameNo) -> Result<(), AllocError>
    ensures { OnOk result (Adds names.old.items names.new.items
        (λ f. sum_below (λ i. times f (place_names ((state_of k.now).place node i))) 64)) }
{
    'entries: for index in 0..64 {
        let place = k.place(node, EntryNo::new(index));
        push_place(names, &place)?;
    }
    Ok(())
}

// Appends what the places of nodes name.
fn push_nodes(names: &mut Vec<u64>, k: &SeqKernel) -> Result<(), AllocError>
    ensures { OnOk result (Adds names.old.items names.new.items
        (λ f. sum_below (λ g. sum_below (λ i. times f (place_names ((state_of k.now).place g i))) 64) (state_of k.now).limits.frames)) }
{
    'frames: for frame in 0..k.frames() {
        push_node(names, k, FrameNo::new(frame))?;
    }
    Ok(())
}

/// The frame at a height of a stack, which is below its depth.
pub(crate) fn frame_at(stack: &Stack, height: usize) -> FrameNo
    requires { height < length stack.now }
    ensures { slice_get (reverse stack.now) height ≡ Some result }
{
    stack.at_height(height).unwrap()
}

fn push_stack(names: &mut Vec<u64>, stack: &Stack) -> Result<(), AllocError>
    ensures { OnOk result (Adds names.old.items names.new.items (λ f. times f stack.now)) }
{
    'heights: for height in 0..stack.len() {
        let frame = frame_at(stack, height);
        push_name(names, frame)?;
    }
    Ok(())
}

fn push_comp(names: &mut Vec<u64>, comp: &CompFields) -> Result<(), AllocError>
    ensures { OnOk result (names.new.items ≡ names.old.items ++ comp.now.table ∷ comp.now.pages ∷ []) }
{
    push_name(names, comp.table)?;
    push_name(names, comp.pages)?;
    Ok(())
}

fn push_object(names: &mut Vec<u64>, object: &Object) -> Result<(), AllocError>
    ensures { OnOk result (Adds names.old.items names.new.items (λ f. times f (frame_names (Kernel (object_of object.now))))) }
{
    match object {
        Object::Comp(comp) => push_comp(names, comp),
        Object::Thread(thread) => push_stack(names, &thread.stack),
        Object::Blank => Ok(()),
        Object::Table => Ok(()),
        Object::Leaf => Ok(()),
        Object::Pages => Ok(()),
        Object::Pleaf => Ok(()),
        Object::Tcap(_) => Ok(()),
    }
}

fn push_frame(names: &mut Vec<u64>, frame: &Frame) -> Result<(), AllocError>
    ensures { OnOk result (Adds names.old.items names.new.items (λ f. times f (frame_names (frame_of frame.now)))) }
{
    match frame {
        Frame::Untyped => Ok(()),
        Frame::User => Ok(()),
        Frame::Kernel(object) => push_object(names, object),
    }
}

// Appends what the objects of frames name.
fn push_frames(names: &mut Vec<u64>, k: &SeqKernel) -> Result<(), AllocError>
    ensures { OnOk result (Adds names.old.items names.new.items
        (λ f. sum_below (λ g. times f (frame_names ((state_of k.now).frame g))) (state_of k.now).limits.frames)) }
{
    'frames: for frame in 0..k.frames() {
        let value = k.frame(FrameNo::new(frame));
        push_frame(names, &value)?;
    }
    Ok(())
}

fn push_core(names: &mut Vec<u64>, core: &Core) -> Result<(), AllocError>
    ensures { OnOk result (names.new.items ≡ names.old.items ++ core_names (core_of core.now)) }
{
    push_name(names, core.thread)?;
    push_name(names, core.tcap)?;
    Ok(())
}

// Appends what the cores name.
fn push_cores(names: &mut Vec<u64>, k: &SeqKernel) -> Result<(), AllocError>
    ensures { OnOk result (Adds names.old.items names.new.items
        (λ f. sum_below (λ c. times f (core_names ((state_of k.now).core c))) (state_of k.now).limits.cores)) }
{
    'cores: for core in 0..k.cores() {
        let value = k.core(CoreNo::new(core));
        push_core(names, value)?;
    }
    Ok(())
}

fn push_number(names: &mut Vec<u64>, number: &Liveness) -> Result<(), AllocError>
    ensures { OnOk result (names.new.items ≡ names.old.items ++ number_names (number_of number.now)) }
{
    match number {
        Liveness::Unused => Ok(()),
        Liveness::Live { frame, .. } => push_name(names, *frame),
        Liveness::Dead { .. } => Ok(()),
    }
}

// Appends what the liveness numbers name.
fn push_numbers(names: &mut Vec<u64>, k: &SeqKernel) -> Result<(), AllocError>
    ensures { OnOk result (Adds names.old.items names.new.items
        (λ f. sum_below (λ l. times f (number_names ((state_of k.now).number l))) 64)) }
{
    'numbers: for number in 0..64 {
        let value = k.number(number);
        push_number(names, &value)?;
    }
    Ok(())
}

/// Appends each frame as often as there are references to it.
pub fn push_all(names: &mut Vec<u64>, k: &SeqKernel) -> Result<(), AllocError>
    ensures { OnOk result (Adds names.old.items names.new.items (refs (state_of k.now))) }
{
    push_nodes(names, k)?;
    push_frames(names, k)?;
    push_cores(names, k)?;
    push_numbers(names, k)?;
    Ok(())
}
