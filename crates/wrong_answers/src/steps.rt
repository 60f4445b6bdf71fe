//! The steps of a script's order, taken one after another: their text, their trace, their picture, their origins and their worlds.

ghost use Rattle.std.specs.Prelude.{◌≡◌, ◌<◌, All, IfOk, length, map, string_bytes};
ghost use Rattle.speck_run.specs.trace_run.specs.lone_kernel.specs.Machine.{AreLists};
ghost use Rattle.speck_run.specs.trace_run.specs.lone_kernel.specs.GivenSteps.{GivenSteps};
ghost use Rattle.speck_run.specs.trace_run.specs.GivenTrace.{GivenTrace};
ghost use Rattle.speck_run.specs.draw_run.specs.GivenDrawing.{GivenDrawing};
ghost use Rattle.speck_run.specs.origins_run.specs.GivenOrigins.{GivenOrigins};
ghost use Rattle.speck_run.specs.Worlds.{GivenWorlds};

use spk_nums::{Call, Item, Memory, Setup};
use std::alloc::Global;

/// The text of the trace that the order makes, as `replay` writes it.
pub fn replay(
    alloc: Global,
    setup: &Setup,
    lists: Vec<Vec<Call>>,
    items: &[Item],
) -> Result<String, Memory>
    requires can_run { AreLists (map (λ v. v.items) lists.items) }
    requires one_each { length lists.items ≡ setup.now.cores }
    requires named { All (λ item. item.core < setup.now.cores) items.now }
    ensures { IfOk result (λ text. GivenSteps setup.now (map (λ v. v.items) lists.items) items.now (string_bytes text)) }
{
    let text = speck_run::replay(alloc, setup, lists, items)?;
    Ok(text)
}

/// The trace that the order makes, as `trace` writes it.
pub fn trace(
    alloc: Global,
    version: u8,
    setup: &Setup,
    lists: Vec<Vec<Call>>,
    items: &[Item],
) -> Result<String, Memory>
    requires can_run { AreLists (map (λ v. v.items) lists.items) }
    requires one_each { length lists.items ≡ setup.now.cores }
    requires named { All (λ item. item.core < setup.now.cores) items.now }
    ensures { IfOk result (λ text. GivenTrace version setup.now (map (λ v. v.items) lists.items) items.now (string_bytes text)) }
{
    speck_run::trace_run::trace(alloc, version, setup, lists, items)
}

/// The picture of a page of the trace that the order makes, as `draw` writes it.
pub fn draw(
    alloc: Global,
    page: u32,
    setup: &Setup,
    lists: Vec<Vec<Call>>,
    items: &[Item],
) -> Result<String, Memory>
    requires can_run { AreLists (map (λ v. v.items) lists.items) }
    requires one_each { length lists.items ≡ setup.now.cores }
    requires named { All (λ item. item.core < setup.now.cores) items.now }
    ensures { IfOk result (λ text. GivenDrawing page setup.now (map (λ v. v.items) lists.items) items.now (string_bytes text)) }
{
    speck_run::draw_run::draw(alloc, page, setup, lists, items)
}

/// The origins of what is held after the steps of the order, as `origins` writes them.
pub fn origins(
    alloc: Global,
    setup: &Setup,
    lists: Vec<Vec<Call>>,
    items: &[Item],
) -> Result<String, Memory>
    requires can_run { AreLists (map (λ v. v.items) lists.items) }
    requires few { All (λ calls. length calls < 536870912) (map (λ v. v.items) lists.items) }
    requires one_each { length lists.items ≡ setup.now.cores }
    requires named { All (λ item. item.core < setup.now.cores) items.now }
    ensures { IfOk result (λ text. GivenOrigins setup.now (map (λ v. v.items) lists.items) items.now (string_bytes text)) }
{
    speck_run::origins_run::origins(alloc, setup, lists, items)
}

/// The worlds that are apart after the steps of the order, as `worlds` writes them.
pub fn worlds(
    alloc: Global,
    setup: &Setup,
    lists: Vec<Vec<Call>>,
    items: &[Item],
) -> Result<String, Memory>
    requires can_run { AreLists (map (λ v. v.items) lists.items) }
    requires one_each { length lists.items ≡ setup.now.cores }
    requires named { All (λ item. item.core < setup.now.cores) items.now }
    ensures { IfOk result (λ text. GivenWorlds setup.now (map (λ v. v.items) lists.items) items.now (string_bytes text)) }
{
    speck_run::worlds(alloc, setup, lists, items)
}
