//! What a core caches of the pages that it touches.
//!
//! A core answers a touch from its cached translations, first of all; a walk of the page table caches what it finds, as long
//! as the core has room.

ghost use Rattle.std.specs.Prelude.{◌≡◌, ◌<◌};
ghost use Rattle.seq_lookups.specs.spk_nums.specs.declared.kinds.Kind.TheVariants as kind;
ghost use Rattle.seq_lookups.specs.seq_state.specs.kernel_rules.specs.Edits.{caching, Cache, edited};
ghost use Rattle.seq_lookups.specs.seq_state.specs.Maps.{state_of};
ghost use Rattle.seq_lookups.specs.seq_state.specs.Representation.{Represents};

use seq_lookups::seq_state::{Core, SeqKernel};
use seq_lookups::spk_nums::{Cap, CoreNo, PageFlags, Translation, Translations};

/// The flags of a page; of no other mapping is anything said.
pub(crate) fn flags_of(mapping: &Cap) -> PageFlags
    ensures { mapping.now.kind ≡ kind.Page → result ≡ record { 0 = mapping.now.arg } }
{
    PageFlags::of_bits((mapping.arg() % 4) as u8)
}

/// The translations with one more, where there is room.
fn caching(cached: &Translations, item: Translation) -> Translations
    ensures { result ≡ caching cached.now item }
{
    let mut all = *cached;
    let _added = all.add(item);
    all
}

/// A core of the machine caches a translation, where it has room.
pub(crate) fn cache(k: &mut SeqKernel, core: CoreNo, item: Translation)
    requires { core < (state_of k.old).limits.cores }
    ensures { Represents k.new (edited core (state_of k.old) (Cache item)) }
{
    let value = *k.core(core);
    let cached = caching(&value.cached, item);
    k.set_core(core, Core { cached, ..value });
}
