//! The cached translations of a core.

ghost use Rattle.std.specs.Prelude.{◌≡◌, ◌<◌, ◌&&◌, ◌==◌, Some, length, slice_get};
ghost use Rattle.seq_state.specs.kernel_rules.specs.MemoryCalls.{translation_of};

use spk_nums::{FrameNo, PageNo, Translation, Translations};

/// Whether a translation is that of a page of a root.
fn is_of(item: &Translation, pages: FrameNo, page: PageNo) -> bool
    ensures { result ≡ (item.now.pages == pages && item.now.page == page) }
{
    item.pages == pages && item.page == page
}

/// The translation at an index.
fn item_at(cached: &Translations, at: usize) -> Translation
    requires { at < length cached.now }
    ensures { slice_get cached.now at ≡ Some result }
{
    cached.get(at).unwrap()
}

/// The first translation of a page of a root, if there is one.
#[inline]
pub fn translation_of(cached: &Translations, pages: FrameNo, page: PageNo) -> Option<Translation>
    ensures { result ≡ translation_of cached.now pages page }
{
    'each: for at in 0..cached.len() {
        let item = item_at(cached, at);
        if is_of(&item, pages, page) {
            return Some(item);
        }
    }
    None
}
