//! Components, threads and temporal capabilities.

ghost use Rattle.std.specs.Prelude.{◌≡◌, ◌<◌};
ghost use Rattle.final_parts.specs.Parts.{frame_word, comp_in, stack_in, budget_in, quality_in};

use crate::nodes::frame_of;
use crate::parts::{CompPart, NoPart, QualityPart};
use machine_image::{Component, Image};
use spk_nums::FrameNo;
use tcap_words::{HeadWord, QualityWord, StackWord};

// A word of a frame. The frame is below the machine's frames, and the index below 64.
fn word(image: &Image<'_>, frame: FrameNo, index: u16) -> u64
    requires frame_in { frame < image.now.shape.frames }
    requires index_in { index < 64 }
    ensures { result ≡ frame_word image.now frame index }
{
    image.node(frame).words()[index as usize]
}

/// The component in a frame.
pub fn comp_part(image: &Image<'_>, frame: u16) -> Result<CompPart, NoPart>
    ensures { result ≡ comp_in image.now frame }
{
    if image.frames() <= frame {
        return Err(NoPart::Outside);
    }
    let frame = FrameNo::new(frame);
    if frame_of(image, frame).object != 5 {
        return Err(NoPart::Kind);
    }
    match image.component(frame) {
        Some(
            Component {
                table,
                pages,
                number,
                epoch,
            },
        ) => Ok(CompPart {
            table: table.number(),
            pages: pages.number(),
            epoch,
            live: number,
        }),
        None => Err(NoPart::Empty),
    }
}

/// The frame of the component at a height of the stack, from 0 to 15, of the thread in a frame; the one that the thread was made in is at 0.
pub fn stack_part(image: &Image<'_>, frame: u16, height: u16) -> Result<u16, NoPart>
    ensures { result ≡ stack_in image.now frame height }
{
    if image.frames() <= frame || 16 <= height {
        return Err(NoPart::Outside);
    }
    let frame = FrameNo::new(frame);
    if frame_of(image, frame).object != 7 {
        return Err(NoPart::Kind);
    }
    match StackWord::unpack(word(image, frame, 1 + height)) {
        Some(StackWord(Some(comp))) => Ok(comp.number()),
        Some(StackWord(None)) => Err(NoPart::Empty),
        None => Err(NoPart::Empty),
    }
}

/// The budget, in ticks, of the temporal capability in a frame.
pub fn budget_part(image: &Image<'_>, frame: u16) -> Result<u32, NoPart>
    ensures { result ≡ budget_in image.now frame }
{
    if image.frames() <= frame {
        return Err(NoPart::Outside);
    }
    let frame = FrameNo::new(frame);
    if frame_of(image, frame).object != 8 {
        return Err(NoPart::Kind);
    }
    match HeadWord::unpack(word(image, frame, 0)) {
        Some(head) => Ok(head.budget),
        None => Err(NoPart::Empty),
    }
}

/// The scheduler and quality at a place, 0 to 7, of the list of the temporal capability in a frame.
pub fn quality_part(image: &Image<'_>, frame: u16, place: u16) -> Result<QualityPart, NoPart>
    ensures { result ≡ quality_in image.now frame place }
{
    if image.frames() <= frame || 8 <= place {
        return Err(NoPart::Outside);
    }
    let frame = FrameNo::new(frame);
    if frame_of(image, frame).object != 8 {
        return Err(NoPart::Kind);
    }
    match QualityWord::unpack(word(image, frame, 1 + place)) {
        Some(QualityWord(Some((sched, quality)))) => Ok(QualityPart { quality, sched }),
        Some(QualityWord(None)) => Err(NoPart::Empty),
        None => Err(NoPart::Empty),
    }
}
