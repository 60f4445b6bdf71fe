//! The references to each frame, counted as they come and go.

ghost use Rattle.std.specs.Prelude.{◌≡◌, ◌<◌, ◌≤◌, ◌+◌, ◌-◌, ◌*◌, ◌^◌, ℕ, IsSome, length, [], ◌∷◌};
ghost use Rattle.kernel_invariant.specs.kernel_rules.specs.References.{named_by, place_names, frame_names, number_names};
ghost use Rattle.kernel_invariant.specs.kernel_rules.specs.References.{core_names, sum_below, times};
ghost use Rattle.seq_state.specs.Parts.{place_held, object_of, frame_of, number_of, core_of};
ghost use Rattle.seq_state.specs.Maps.{at, HasKeys, count_at, place_or_free, frame_or_untyped, number_or_unused, core_or_none};

use crate::maps::{held, standing};
use crate::parts::{Core, Frame, Liveness, Object, Place};
use crate::stack::Stack;
use kernel_invariant::spk_nums::{Cap, FrameNo, Kind};

/// The frame to which a capability has a reference; a range has none.
fn names_of_cap(cap: Cap) -> Stack
    ensures { result ≡ named_by cap.kind cap.frame }
{
    match cap.kind() {
        Kind::Range => Stack::empty(),
        _ => Stack::one(cap.frame()),
    }
}

/// The frame to which a place has a reference.
pub fn names_of_place(place: &Place) -> Stack
    ensures { result ≡ place_names (place_held place.now) }
{
    match place {
        Place::Free => Stack::empty(),
        Place::Holds(cap) => names_of_cap(*cap),
        Place::Quiescing(_) => Stack::empty(),
    }
}

/// The frames to which an object has references.
fn names_of_object(object: &Object) -> Stack
    ensures { result ≡ frame_names (frame_of (Kernel object.now)) }
{
    match object {
        Object::Comp(comp) => both(comp.table, comp.pages),
        Object::Thread(thread) => thread.stack,
        Object::Blank => Stack::empty(),
        Object::Table => Stack::empty(),
        Object::Leaf => Stack::empty(),
        Object::Pages => Stack::empty(),
        Object::Pleaf => Stack::empty(),
        Object::Tcap(_) => Stack::empty(),
    }
}

/// Two frames.
fn both(first: FrameNo, second: FrameNo) -> Stack
    ensures { result ≡ first ∷ second ∷ [] }
{
    let mut names = Stack::one(second);
    names.push(first);
    names
}

/// The frames to which what is in a frame has references, at most 16.
pub fn names_of_frame(value: &Frame) -> Stack
    ensures names { result ≡ frame_names (frame_of value.now) }
    ensures most { length (frame_names (frame_of value.now)) ≤ 16 }
{
    let names = match value {
        Frame::Untyped => Stack::empty(),
        Frame::User => Stack::empty(),
        Frame::Kernel(object) => names_of_object(object),
    };
    let _most = names.len();
    names
}

/// The frame to which a liveness number has a reference.
pub fn names_of_number(number: &Liveness) -> Stack
    ensures { result ≡ number_names (number_of number.now) }
{
    match number {
        Liveness::Unused => Stack::empty(),
        Liveness::Live { frame, .. } => Stack::one(*frame),
        Liveness::Dead { .. } => Stack::empty(),
    }
}

/// The frames to which a core has references.
pub fn names_of_core(core: &Core) -> Stack
    ensures { result ≡ core_names (core_of core.now) }
{
    both(core.thread, core.tcap)
}

/// A frame has one reference more.
#[tactic(auto, using(crate::proofs::CountLemmas::set_up, crate::proofs::CountLemmas::none_past, crate::proofs::CountLemmas::set_length))]
fn count_up(counts: &mut Vec<u32>, frame: FrameNo)
    requires room { frame < length counts.old.items → count_at counts.old.items frame < 2 ^ 32 - 1 }
    ensures counts { (f : ℕ) → f < length counts.old.items
        → count_at counts.new.items f ≡ count_at counts.old.items f + times f (frame ∷ []) }
    ensures all { length counts.new.items ≡ length counts.old.items }
{
    let at = usize::from(frame.number());
    if at < counts.len() {
        counts[at] += 1;
    }
}

/// A frame has one reference less.
#[tactic(auto, using(crate::proofs::CountLemmas::set_down, crate::proofs::CountLemmas::none_past, crate::proofs::CountLemmas::set_length))]
fn count_down(counts: &mut Vec<u32>, frame: FrameNo)
    requires some { frame < length counts.old.items → 1 ≤ count_at counts.old.items frame }
    ensures counts { (f : ℕ) → f < length counts.old.items
        → count_at counts.new.items f + times f (frame ∷ []) ≡ count_at counts.old.items f }
    ensures all { length counts.new.items ≡ length counts.old.items }
{
    let at = usize::from(frame.number());
    if at < counts.len() {
        counts[at] -= 1;
    }
}

/// The frames that are named have these references more.
pub fn gain(counts: &mut Vec<u32>, names: Stack)
    requires room { (f : ℕ) → f < length counts.old.items → count_at counts.old.items f < 2 ^ 31 }
    ensures counts { (f : ℕ) → f < length counts.old.items
        → count_at counts.new.items f ≡ count_at counts.old.items f + times f names }
    ensures all { length counts.new.items ≡ length counts.old.items }
    ensures most { (f : ℕ) → f < length counts.old.items → count_at counts.new.items f ≤ count_at counts.old.items f + 16 }
{
    let mut rest = names;
    let _most = names.len();
    'each: while let Some(frame) = rest.top() {
        count_up(counts, frame);
        rest.pop();
    }
}

/// The frames that are named have these references less.
pub fn lose(counts: &mut Vec<u32>, names: Stack)
    requires some { (f : ℕ) → f < length counts.old.items → times f names ≤ count_at counts.old.items f }
    ensures counts { (f : ℕ) → f < length counts.old.items
        → count_at counts.new.items f + times f names ≡ count_at counts.old.items f }
    ensures all { length counts.new.items ≡ length counts.old.items }
{
    let mut rest = names;
    'each: while let Some(frame) = rest.top() {
        count_down(counts, frame);
        rest.pop();
    }
}

/// What was named is named no more, and what is named now is.
pub fn recount(counts: &mut Vec<u32>, old: Stack, new: Stack)
    requires some { (f : ℕ) → f < length counts.old.items → times f old ≤ count_at counts.old.items f }
    requires room { (f : ℕ) → f < length counts.old.items → count_at counts.old.items f < 2 ^ 31 }
    ensures counts { (f : ℕ) → f < length counts.old.items
        → count_at counts.new.items f + times f old ≡ count_at counts.old.items f + times f new }
    ensures all { length counts.new.items ≡ length counts.old.items }
{
    lose(counts, old);
    gain(counts, new);
}

/// The frames to which the place at a key has references.
fn names_at_place(places: &Vec<Place>, key: u16) -> Stack
    ensures { result ≡ place_names (place_or_free (at places.now.items key)) }
{
    match held(places, key) {
        Some(place) => names_of_place(&place),
        None => Stack::empty(),
    }
}

/// The frames to which what is in the frame at a key has references.
fn names_at_frame(frames: &Vec<Frame>, key: u16) -> Stack
    ensures { result ≡ frame_names (frame_or_untyped (at frames.now.items key)) }
{
    match held(frames, key) {
        Some(value) => names_of_frame(&value),
        None => Stack::empty(),
    }
}

/// The frames to which the core at a key, which stands, has references.
fn names_at_core(cores: &Vec<Core>, key: u16) -> Stack
    requires { IsSome (at cores.now.items key) }
    ensures { result ≡ core_names (core_or_none (at cores.now.items key)) }
{
    names_of_core(standing(cores, key))
}

/// The frames to which the liveness number at a key has references.
fn names_at_number(numbers: &Vec<Liveness>, key: u16) -> Stack
    ensures { result ≡ number_names (number_or_unused (at numbers.now.items key)) }
{
    match held(numbers, key) {
        Some(number) => names_of_number(&number),
        None => Stack::empty(),
    }
}

/// Counts the references of the places at the keys below `end`.
pub fn count_places(counts: &mut Vec<u32>, places: &Vec<Place>, end: u16)
    requires room { (f : ℕ) → f < length counts.old.items → count_at counts.old.items f ≤ 2 ^ 30 }
    ensures counts { (f : ℕ) → f < length counts.old.items → count_at counts.new.items f
        ≡ count_at counts.old.items f + sum_below (λ k. times f (place_names (place_or_free (at places.now.items k)))) end }
    ensures most { (f : ℕ) → f < length counts.old.items → count_at counts.new.items f ≤ count_at counts.old.items f + 16 * end }
    ensures all { length counts.new.items ≡ length counts.old.items }
{
    'each: for key in 0..end {
        gain(counts, names_at_place(places, key));
    }
}

/// Counts the references of the frames below `end`.
pub fn count_frames(counts: &mut Vec<u32>, frames: &Vec<Frame>, end: u16)
    requires room { (f : ℕ) → f < length counts.old.items → count_at counts.old.items f ≤ 2 ^ 30 }
    ensures counts { (f : ℕ) → f < length counts.old.items → count_at counts.new.items f
        ≡ count_at counts.old.items f + sum_below (λ k. times f (frame_names (frame_or_untyped (at frames.now.items k)))) end }
    ensures most { (f : ℕ) → f < length counts.old.items → count_at counts.new.items f ≤ count_at counts.old.items f + 16 * end }
    ensures all { length counts.new.items ≡ length counts.old.items }
{
    'each: for key in 0..end {
        gain(counts, names_at_frame(frames, key));
    }
}

/// Counts the references of the cores below `end`, which stand.
pub fn count_cores(counts: &mut Vec<u32>, cores: &Vec<Core>, end: u16)
    requires stands { HasKeys end cores.now.items }
    requires room { (f : ℕ) → f < length counts.old.items → count_at counts.old.items f ≤ 2 ^ 30 }
    ensures counts { (f : ℕ) → f < length counts.old.items → count_at counts.new.items f
        ≡ count_at counts.old.items f + sum_below (λ k. times f (core_names (core_or_none (at cores.now.items k)))) end }
    ensures most { (f : ℕ) → f < length counts.old.items → count_at counts.new.items f ≤ count_at counts.old.items f + 16 * end }
    ensures all { length counts.new.items ≡ length counts.old.items }
{
    'each: for key in 0..end {
        gain(counts, names_at_core(cores, key));
    }
}

/// Counts the references of the liveness numbers below `end`.
pub fn count_numbers(counts: &mut Vec<u32>, numbers: &Vec<Liveness>, end: u16)
    requires room { (f : ℕ) → f < length counts.old.items → count_at counts.old.items f ≤ 2 ^ 30 }
    ensures counts { (f : ℕ) → f < length counts.old.items → count_at counts.new.items f
        ≡ count_at counts.old.items f + sum_below (λ k. times f (number_names (number_or_unused (at numbers.now.items k)))) end }
    ensures all { length counts.new.items ≡ length counts.old.items }
{
    'each: for key in 0..end {
        gain(counts, names_at_number(numbers, key));
    }
}

ghost use Rattle.seq_state.specs.declared.parts.Frame.TheVariants.{Kernel};
