//! The machine's size, liveness numbers, and where cores ended.

ghost use Rattle.std.specs.Prelude.{◌≡◌, Some};
ghost use Rattle.final_parts.specs.Parts.{size_in, life, live_in, core_in, translation, cached_in};

use crate::parts::{CachedPart, CorePart, LivePart, NoPart, SizePart};
use frame_words::LiveWord;
use machine_image::Image;
use spk_nums::Translation;

/// How many frames and cores the machine has.
pub fn size_part(image: &Image<'_>) -> SizePart
    ensures { result ≡ size_in image.now }
{
    SizePart {
        frames: image.frames(),
        cores: image.cores(),
    }
}

fn life(word: &LiveWord) -> Result<LivePart, NoPart>
    ensures { result ≡ life (Some word.now) }
{
    match word {
        LiveWord::Live { epoch, frame } => Ok(LivePart {
            epoch: *epoch,
            frame: frame.number(),
            lives: 1,
        }),
        LiveWord::Dead { epoch, stamp: _ } => Ok(LivePart {
            epoch: *epoch,
            frame: 0,
            lives: 0,
        }),
        LiveWord::Free => Err(NoPart::Empty),
        LiveWord::Closing { epoch: _, by: _ } => Err(NoPart::Empty),
    }
}

/// What a liveness number, 0 to 63, stands for: empty where no component was ever named so.
pub fn live_part(image: &Image<'_>, number: u8) -> Result<LivePart, NoPart>
    ensures { result ≡ live_in image.now number }
{
    if 64 <= number {
        return Err(NoPart::Outside);
    }
    match image.liveness(number) {
        Some(word) => life(&word),
        None => Err(NoPart::Empty),
    }
}

/// Where a core ended.
pub fn core_part(image: &Image<'_>, core: u8) -> Result<CorePart, NoPart>
    ensures { result ≡ core_in image.now core }
{
    match image.ends().get(usize::from(core)) {
        Some(end) => Ok(CorePart {
            spent: end.spent,
            back: end.back,
            owed: end.owed,
            thread: end.thread.number(),
            tcap: end.tcap.number(),
            comp: end.comp.number(),
            cached: end.cached.len() as u16,
        }),
        None => Err(NoPart::Outside),
    }
}

fn cached(found: Option<Translation>) -> Result<CachedPart, NoPart>
    ensures { result ≡ translation found }
{
    match found {
        Some(it) => Ok(CachedPart {
            pages: it.pages.number(),
            page: it.page.number(),
            frame: it.frame.number(),
            flags: it.flags.number(),
        }),
        None => Err(NoPart::Empty),
    }
}

/// A translation that a core has cached, the earliest at place 0; empty past the last.
pub fn cached_part(image: &Image<'_>, core: u8, place: u8) -> Result<CachedPart, NoPart>
    ensures { result ≡ cached_in image.now core place }
{
    match image.ends().get(usize::from(core)) {
        Some(end) => cached(end.cached.get(usize::from(place))),
        None => Err(NoPart::Outside),
    }
}
