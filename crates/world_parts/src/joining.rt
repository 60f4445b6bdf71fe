//! The finest partition of a machine's frames into worlds that are apart.

ghost use Rattle.std.specs.Prelude.{◌≡◌, ◌⊎◌, None, true};
ghost use Rattle.kernel_history.specs.kernel_rules.specs.Access.{found};
ghost use Rattle.kernel_history.specs.kernel_rules.specs.CapabilityCalls.{has_frame};
ghost use Rattle.seal_check.specs.world_laws.specs.Worlds.{LeadsTo};
ghost use Rattle.seal_check.specs.Holding.{holds};
ghost use Rattle.world_parts.specs.Seen.{seen};
ghost use Rattle.world_parts.specs.Partitions.{JoinsBy};
ghost use Rattle.world_parts.specs.Led.{HasField, Reaches, HoldsBelow, HoldsFrame, IsHeldBelow, InRange, AreWith};
ghost use Rattle.world_parts.specs.Finest.{TellsFinest};

use crate::parts::Parts;
use crate::seen::{comp_at, held_at};
use machine_image::Image;
use seal_check::{holds, in_range};
use spk_nums::{Cap, EntryNo, FrameNo, Kind};

/// Joins a node with a frame, if a range has it.
fn join_one(parts: &mut Parts, node: FrameNo, range: Cap, frame: FrameNo)
    ensures { JoinsBy (λ f g. (f ≡ node) × ((has_frame (found range) g ≡ true) × (g ≡ frame))) parts.old parts.new }
{
    if in_range(range, usize::from(frame.number())) {
        parts.join(node, frame);
    }
}

/// Joins a node with each frame of a range.
fn join_range(parts: &mut Parts, node: FrameNo, range: Cap)
    ensures { JoinsBy (λ f g. (f ≡ node) × (has_frame (found range) g ≡ true)) parts.old parts.new }
{
    'frames: for frame in 0..512u16 {
        join_one(parts, node, range, FrameNo::new(frame));
    }
}

/// Whether a range has the same frames as another.
fn is_same_range(range: Cap, done: &Option<Cap>) -> bool
    ensures { result ≡ true → (g : _) → has_frame (found range) g ≡ true → InRange done.now g }
{
    match done {
        None => false,
        Some(done) => range.frame() == done.frame() && range.arg() == done.arg(),
    }
}

/// Joins a node with each frame of a range, unless it is the one with whose frames the node was joined last.
fn join_new(parts: &mut Parts, node: FrameNo, range: Cap, done: &Option<Cap>)
    requires { AreWith parts.old node done.now }
    ensures { JoinsBy (λ f g. (f ≡ node) × (has_frame (found range) g ≡ true)) parts.old parts.new }
{
    if is_same_range(range, done) {
        return;
    }
    join_range(parts, node, range);
}

/// Joins a node with each frame to which a capability leads.
fn join_led(parts: &mut Parts, node: FrameNo, cap: Cap, done: &Option<Cap>)
    requires { AreWith parts.old node done.now }
    ensures { JoinsBy (λ f g. (f ≡ node) × LeadsTo cap.kind cap g) parts.old parts.new }
{
    match cap.kind() {
        Kind::Range => join_new(parts, node, cap, done),
        _ => parts.join(node, cap.frame()),
    }
}

/// Joins a node with each frame to which a capability leads that may be used and is no gate.
fn join_cap(parts: &mut Parts, node: FrameNo, cap: Cap, done: &Option<Cap>)
    requires { AreWith parts.old node done.now }
    ensures { JoinsBy (λ f g. (f ≡ node) × ((holds cap ≡ true) × LeadsTo cap.kind cap g)) parts.old parts.new }
{
    if holds(cap) {
        join_led(parts, node, cap, done);
    }
}

/// Joins a node with what one of its places holds.
fn join_held(parts: &mut Parts, node: FrameNo, held: &Option<Cap>, done: &Option<Cap>)
    requires { AreWith parts.old node done.now }
    ensures { JoinsBy (λ f g. (f ≡ node) × Reaches held.now g) parts.old parts.new }
{
    if let Some(cap) = held {
        join_cap(parts, node, *cap, done);
    }
}

/// Before the first range.
fn no_range() -> Option<Cap>
    ensures { result ≡ None }
{
    None
}

/// A range that may be used, or else the one that is done.
fn range_after(cap: Cap, done: &Option<Cap>) -> Option<Cap>
    ensures { (g : _) → InRange result g → ((holds cap ≡ true) × LeadsTo cap.kind cap g) ⊎ InRange done.now g }
{
    match cap.kind() {
        Kind::Range => { if holds(cap) { Some(cap) } else { *done } }
        _ => *done,
    }
}

/// The range with whose frames a node was joined last, after what a place holds.
fn last_range(held: &Option<Cap>, done: &Option<Cap>) -> Option<Cap>
    ensures { (g : _) → InRange result g → Reaches held.now g ⊎ InRange done.now g }
{
    match held {
        None => *done,
        Some(cap) => range_after(*cap, done),
    }
}

/// Joins a component's frame with those of its table and its pages.
fn join_fields(parts: &mut Parts, frame: FrameNo, fields: Option<(FrameNo, FrameNo)>)
    ensures { JoinsBy (λ f g. (f ≡ frame) × HasField fields g) parts.old parts.new }
{
    if let Some(both) = fields {
        parts.join(frame, both.0);
        parts.join(frame, both.1);
    }
}

/// Joins a node with what its places hold.
fn join_places(parts: &mut Parts, image: &Image<'_>, node: FrameNo)
    ensures { JoinsBy (λ f g. (f ≡ node) × HoldsBelow (seen image.now) node 64 g) parts.old parts.new }
{
    let mut done = no_range();
    'places: for index in 0..64 {
        let held = held_at(image, node, EntryNo::new(index));
        join_held(parts, node, &held, &done);
        done = last_range(&held, &done);
    }
}

/// Joins a frame with all that its component and its places hold.
fn join_frame(parts: &mut Parts, image: &Image<'_>, frame: FrameNo)
    ensures { JoinsBy (λ f g. (f ≡ frame) × HoldsFrame (seen image.now) frame g) parts.old parts.new }
{
    join_fields(parts, frame, comp_at(image, frame));
    join_places(parts, image, frame);
}

/// Joins each frame of the machine with all that it holds.
fn join_all(parts: &mut Parts, image: &Image<'_>)
    ensures { JoinsBy (IsHeldBelow (seen image.now) image.now.shape.frames) parts.old parts.new }
{
    'frames: for frame in 0..image.frames() {
        join_frame(parts, image, FrameNo::new(frame));
    }
}

/// The finest partition of the frames of a machine, in which no core is in a call, into worlds that are apart.
pub fn parts_of(image: &Image<'_>) -> Parts
    ensures { TellsFinest image.now result }
{
    let mut parts = Parts::alone();
    join_all(&mut parts, image);
    let _first = parts.first();
    parts
}
