//! Frames, their counts, and what nodes hold.

ghost use Rattle.std.specs.Prelude.{◌≡◌, ◌<◌};
ghost use Rattle.spk_nums.specs.Capability.{Capability};
ghost use Rattle.machine_image.specs.Views.{is_link, leaf_of};
ghost use Rattle.final_parts.specs.Kinds.{use_code, object_code};
ghost use Rattle.final_parts.specs.Parts.{capability, frame_at, frame_in, count_in, held_in_entry, entry_in, under, under_in};

use crate::parts::{CapPart, FramePart, NoPart, kind_number};
use frame_words::FrameWord;
use machine_image::Image;
use spk_nums::{Cap, CoreNo, EntryNo, FrameKind, FrameNo, Kind, Obj};

fn use_number(kind: FrameKind) -> u8
    ensures { result ≡ use_code kind }
{
    match kind {
        FrameKind::Untyped => 0,
        FrameKind::User => 1,
        FrameKind::Kernel => 2,
    }
}

fn object_number(object: Obj) -> u8
    ensures { result ≡ object_code object }
{
    match object {
        Obj::Blank => 255,
        Obj::Table => 1,
        Obj::Leaf => 2,
        Obj::Pages => 3,
        Obj::Pleaf => 4,
        Obj::Comp => 5,
        Obj::Thread => 7,
        Obj::Tcap => 8,
    }
}

// What a frame is. It is below the machine's frames.
pub(crate) fn frame_of(image: &Image<'_>, frame: FrameNo) -> FramePart
    requires { frame < image.now.shape.frames }
    ensures { result ≡ frame_at image.now frame }
{
    match image.frame(frame) {
        Some(
            FrameWord {
                kind,
                object,
                mark: _,
            },
        ) => FramePart {
            kind: use_number(kind),
            object: object_number(object),
        },
        None => FramePart {
            kind: 0,
            object: 255,
        },
    }
}

/// What a frame is; outside where it is none of the machine's.
pub fn frame_part(image: &Image<'_>, frame: u16) -> Result<FramePart, NoPart>
    ensures { result ≡ frame_in image.now frame }
{
    if frame < image.frames() {
        Ok(frame_of(image, FrameNo::new(frame)))
    } else {
        Err(NoPart::Outside)
    }
}

/// What a core counts of the references to a frame: those made less those released, modulo 2^16, from -2^15 to 2^15 - 1. The references to
/// it are the sum of what all cores count, modulo 2^16; one core's count alone says nothing.
pub fn count_part(image: &Image<'_>, frame: u16, core: u8) -> Result<i32, NoPart>
    ensures { result ≡ count_in image.now frame core }
{
    if image.frames() <= frame || image.cores() <= core {
        return Err(NoPart::Outside);
    }
    match image.count(FrameNo::new(frame), CoreNo::new(core)) {
        Some(word) => Ok(word.count),
        None => Err(NoPart::Empty),
    }
}

fn cap_part(cap: Option<Cap>) -> Result<CapPart, NoPart>
    ensures { result ≡ capability cap }
{
    match cap {
        Some(cap) => Ok(CapPart {
            kind: kind_number(cap.kind()),
            rights: cap.rights().number(),
            frame: cap.frame().number(),
            argument: cap.arg(),
        }),
        None => Err(NoPart::Empty),
    }
}

// What an entry holds. The frame is below the machine's frames, and the entry below 64.
fn held(image: &Image<'_>, frame: FrameNo, entry: u16) -> Option<Cap>
    requires frame_in { frame < image.now.shape.frames }
    requires entry_in { entry < 64 }
    ensures { result ≡ held_in_entry image.now frame entry }
{
    image.node(frame).held(EntryNo::new(entry))
}

/// What an entry of a node holds, from 0 to 63.
pub fn entry_part(image: &Image<'_>, frame: u16, entry: u16) -> Result<CapPart, NoPart>
    ensures { result ≡ entry_in image.now frame entry }
{
    if image.frames() <= frame || 64 <= entry {
        return Err(NoPart::Outside);
    }
    let frame = FrameNo::new(frame);
    let object = frame_of(image, frame).object;
    if object == 1 || object == 2 || object == 3 || object == 4 {
        cap_part(held(image, frame, entry))
    } else {
        Err(NoPart::Kind)
    }
}

fn links(kind: Kind) -> bool
    ensures { result ≡ is_link kind }
{
    match kind {
        Kind::Link => true,
        Kind::Range => false,
        Kind::Table => false,
        Kind::Leaf => false,
        Kind::Pages => false,
        Kind::Pleaf => false,
        Kind::Comp => false,
        Kind::Gate => false,
        Kind::Thread => false,
        Kind::Tcap => false,
        Kind::Page => false,
    }
}

// The leaf to which what an entry of a root holds links, where it is a frame of the machine.
fn leaf(image: &Image<'_>, link: Option<Cap>) -> Option<FrameNo>
    ensures { result ≡ leaf_of image.now.shape.frames link }
{
    match link {
        Some(cap) => {
            if links(cap.kind()) && cap.frame().number() < image.frames() {
                Some(cap.frame())
            } else {
                None
            }
        }
        None => None,
    }
}

// What stands under a number. The root is below the machine's frames, and the number below 4,096.
fn held_under(image: &Image<'_>, root: FrameNo, number: u16) -> Option<Cap>
    requires root_in { root < image.now.shape.frames }
    requires number_in { number < 4096 }
    ensures { result ≡ under image.now root number }
{
    match leaf(image, held(image, root, number / 64)) {
        Some(leaf) => held(image, leaf, number % 64),
        None => None,
    }
}

/// The capability or the mapping under a number, 0 to 4,095, of the table or the page table whose root is in this frame.
pub fn under_part(image: &Image<'_>, root: u16, number: u16) -> Result<CapPart, NoPart>
    ensures { result ≡ under_in image.now root number }
{
    if image.frames() <= root || 4096 <= number {
        return Err(NoPart::Outside);
    }
    let root = FrameNo::new(root);
    let object = frame_of(image, root).object;
    if object == 1 || object == 3 {
        cap_part(held_under(image, root, number))
    } else {
        Err(NoPart::Kind)
    }
}
