//! The tables and the total of what a machine has left.

ghost use Rattle.std.specs.Prelude.{◌≡◌, IfOk, length, string_bytes};
ghost use Rattle.trace_run.specs.lone_kernel.specs.word_map.specs.Places.{size_of};
ghost use Rattle.trace_run.specs.lone_kernel.specs.kernel_rules.specs.State.{State};
ghost use Rattle.trace_run.specs.lone_kernel.specs.kernel_rules.specs.Laws.{ticks};
ghost use Rattle.trace_run.specs.lone_kernel.specs.kernel_history.specs.FinalWords.{Represent, word_in, end_in};
ghost use Rattle.trace_run.specs.lone_kernel.specs.kernel_history.specs.Counts.{RepresentCounts};
ghost use Rattle.trace_run.specs.lone_kernel.specs.kernel_history.specs.Tables.{tables_of};
ghost use Rattle.std.specs.Prelude.{[]};
ghost use Rattle.world_lines.specs.Telling.{TellsWorlds};

use spk_nums::Memory;
use std::alloc::Global;
use table_report::machine_image::image_of;
use table_report::word_map::Closed;
use table_report::{report, total};
use world_lines::push_worlds;

/// The tables of every state that the words and the ends represent, and whose references the count words represent. There are as
/// many words as the layout has places, and an end for each core; it fails only where memory runs out.
pub fn tables(alloc: Global, closed: &Closed) -> Result<String, Memory>
    requires words { length closed.now.words.items ≡ size_of closed.now.layout }
    requires ends { length closed.now.ends.items ≡ closed.now.layout.cores }
    ensures { IfOk result (λ text. (s : State) → s.limits.cores ≡ closed.now.layout.cores
        → s.limits.frames ≡ closed.now.layout.frames → Represent (word_in closed.now.layout closed.now.words.items)
        (end_in closed.now.ends.items) s → RepresentCounts (word_in closed.now.layout closed.now.words.items) s
        → string_bytes text ≡ tables_of s) }
{
    report(alloc, &image_of(closed))
}

/// The total of all ticks of every state that the words and the ends represent. There are as many words as the layout has places,
/// and an end for each core.
pub fn total_ticks(closed: &Closed) -> u128
    requires words { length closed.now.words.items ≡ size_of closed.now.layout }
    requires ends { length closed.now.ends.items ≡ closed.now.layout.cores }
    ensures { (s : State) → s.limits.cores ≡ closed.now.layout.cores → s.limits.frames ≡ closed.now.layout.frames
        → Represent (word_in closed.now.layout closed.now.words.items) (end_in closed.now.ends.items) s → result ≡ ticks s }
{
    total(&image_of(closed))
}

/// The lines of the worlds of the final state that the words and the ends represent, and of the gates between them. There are as many
/// words as the layout has places, and an end for each core; it fails only where memory runs out.
pub fn worlds_text(alloc: Global, closed: &Closed) -> Result<String, Memory>
    requires words { length closed.now.words.items ≡ size_of closed.now.layout }
    requires ends { length closed.now.ends.items ≡ closed.now.layout.cores }
    ensures { IfOk result (λ text. TellsWorlds
        record { shape = closed.now.layout; words = closed.now.words.items; ends = closed.now.ends.items } [] (string_bytes text)) }
{
    let mut text = String::new(alloc);
    push_worlds(alloc, &mut text, &image_of(closed))?;
    Ok(text)
}
