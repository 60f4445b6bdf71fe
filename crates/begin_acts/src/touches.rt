//! A touch begins: its page is sought among the translations that the core has cached.

ghost use Rattle.act_counts.specs.act_states.specs.Touches.{touches};
ghost use Rattle.act_counts.specs.kernel_rules.specs.MemoryCalls.{translation_of};
ghost use Rattle.std.specs.Prelude.{Some, length, slice_get, ◌&&◌, ◌<◌, ◌==◌, ◌≡◌};

use act_counts::act_states::stage_look::Look;
use act_counts::act_states::{Act, Own, Refusal, Touching, Work, WorkStep};
use act_counts::refuse;
use spk_nums::{CapId, FrameNo, PageNo, Translation, Translations};

/// A page of a core's own pages is touched; one past 4,095 has no slot.
#[inline(never)]
pub fn begin_touch(own: &Own, page: PageNo) -> WorkStep
    ensures { result ≡ touches own.now page }
{
    let number = page.number();
    if number <= 4095 {
        WorkStep::Goes {
            work: Work::Act {
                act: Act::Touch {
                    touching: Touching {
                        look: Look::place(own.pages, CapId::new(number)),
                        pages: own.pages,
                        page,
                        frames: own.layout.frames(),
                        cached: translation_of(&own.cached, own.pages, page),
                    },
                },
            },
        }
    } else {
        refuse(Refusal::NoSlot)
    }
}

// Whether a translation is that of a page of a root.
fn is_of(item: &Translation, pages: FrameNo, page: PageNo) -> bool
    ensures { result ≡ (item.now.pages == pages && item.now.page == page) }
{
    item.pages == pages && item.page == page
}

// The translation at an index.
fn item_at(cached: &Translations, at: usize) -> Translation
    requires { at < length cached.now }
    ensures { slice_get cached.now at ≡ Some result }
{
    cached.get(at).unwrap()
}

// The first translation of a page of a root, if there is one.
fn translation_of(cached: &Translations, pages: FrameNo, page: PageNo) -> Option<Translation>
    ensures { result ≡ translation_of cached.now pages page }
{
    'each: for at in 0..cached.len() {
        let item = item_at(cached, at);
        if is_of(&item, pages, page) {
            return Some(item);
        }
    }
    None
}
