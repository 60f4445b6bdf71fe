//! What of an image tells the worlds.

ghost use Rattle.std.specs.Prelude.{◌≡◌};
ghost use Rattle.world_parts.specs.Seen.{is_node, is_comp, says, says_untyped, fields, held_seen, comp_seen, untyped_seen, works_seen};

use frame_words::FrameWord;
use machine_image::{Component, Image};
use spk_nums::{Cap, CoreNo, EntryNo, FrameKind, FrameNo, Obj};

fn is_node_object(object: Obj) -> bool
    ensures { result ≡ is_node object }
{
    match object {
        Obj::Table => true,
        Obj::Leaf => true,
        Obj::Pages => true,
        Obj::Pleaf => true,
        Obj::Blank => false,
        Obj::Comp => false,
        Obj::Thread => false,
        Obj::Tcap => false,
    }
}

fn is_comp_object(object: Obj) -> bool
    ensures { result ≡ is_comp object }
{
    match object {
        Obj::Comp => true,
        Obj::Blank => false,
        Obj::Table => false,
        Obj::Leaf => false,
        Obj::Pages => false,
        Obj::Pleaf => false,
        Obj::Thread => false,
        Obj::Tcap => false,
    }
}

/// Whether a frame's word says a node.
fn says_node(word: Option<FrameWord>) -> bool
    ensures { result ≡ says is_node word }
{
    match word {
        None => false,
        Some(word) => match word.kind {
            FrameKind::Untyped => false,
            FrameKind::User => false,
            FrameKind::Kernel => is_node_object(word.object),
        },
    }
}

/// Whether a frame's word says a component.
fn says_comp(word: Option<FrameWord>) -> bool
    ensures { result ≡ says is_comp word }
{
    match word {
        None => false,
        Some(word) => match word.kind {
            FrameKind::Untyped => false,
            FrameKind::User => false,
            FrameKind::Kernel => is_comp_object(word.object),
        },
    }
}

/// Whether a frame's word says that it is untyped.
fn says_untyped(word: Option<FrameWord>) -> bool
    ensures { result ≡ says_untyped word }
{
    match word {
        None => true,
        Some(word) => match word.kind {
            FrameKind::Untyped => true,
            FrameKind::User => false,
            FrameKind::Kernel => false,
        },
    }
}

/// What a place holds: something only in a node of the machine.
pub fn held_at(image: &Image<'_>, frame: FrameNo, entry: EntryNo) -> Option<Cap>
    ensures { result ≡ held_seen image.now frame entry }
{
    if frame.number() < image.frames() && entry.number() < 64 {
        if says_node(image.frame(frame)) {
            return image.node(frame).held(entry);
        }
    }
    None
}

/// The frames of a component's table and pages.
fn fields_of(component: Option<Component>) -> Option<(FrameNo, FrameNo)>
    ensures { result ≡ fields component }
{
    match component {
        None => None,
        Some(component) => Some((component.table, component.pages)),
    }
}

/// The frames of the table and the pages of the component in a frame of the machine.
pub fn comp_at(image: &Image<'_>, frame: FrameNo) -> Option<(FrameNo, FrameNo)>
    ensures { result ≡ comp_seen image.now frame }
{
    if frame.number() < image.frames() {
        if says_comp(image.frame(frame)) {
            return fields_of(image.component(frame));
        }
    }
    None
}

/// Whether a frame is untyped, as each past the machine is.
pub fn is_untyped(image: &Image<'_>, frame: FrameNo) -> bool
    ensures { result ≡ untyped_seen image.now frame }
{
    if frame.number() < image.frames() {
        return says_untyped(image.frame(frame));
    }
    true
}

/// The frame of the component in which a core works; 0 for one past the machine.
pub fn works_in(image: &Image<'_>, core: CoreNo) -> FrameNo
    ensures { result ≡ works_seen image.now core }
{
    if core.number() < image.cores() {
        return image.core(core).comp;
    }
    FrameNo::new(0)
}
