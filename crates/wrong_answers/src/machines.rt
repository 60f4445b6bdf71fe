//! Single machines: the words with which one boots, a call that goes on until it is ready, the machine that has run a schedule, the name of
//! a word, and what the image of a machine shows.

ghost use Rattle.std.specs.Prelude.{◌≡◌, ◌<◌, ◌^◌, IfOk, length, string_bytes};
ghost use Rattle.std.specs.Iterator.{YieldsFirst};
ghost use Rattle.spk_nums.specs.declared.steps.How.TheVariants.{Ready};
ghost use Rattle.word_map.specs.Word.{Word};
ghost use Rattle.word_map.specs.Places.{IsIn, place_of, size_of};
ghost use Rattle.speck_run.specs.trace_run.specs.lone_kernel.specs.kernel_history.specs.BootWords.{boot_word, shape_of};
ghost use Rattle.speck_run.specs.trace_run.specs.lone_kernel.specs.kernel_history.specs.FinalWords.{word_in};
ghost use Rattle.step_views.specs.Names.{named};
ghost use Rattle.speck_run.specs.trace_run.specs.lone_kernel.specs.Moves.{MovesBy};
ghost use Rattle.speck_run.specs.one_core.specs.sched_run.specs.Made.{IsSchedMade};

use machine_image::frame_words::CountWord;
use machine_image::{Caps, Counts};
use sched_reader::read_sched;
use script_reader::ReadFault;
use speck_run::one_core::sched_run::{Boot, Scheduled};
use speck_run::trace_run::lone_kernel::{LoneKernel, Moved};
use spk_nums::{Cap, CapId, CoreNo, Memory, Setup};
use std::alloc::Global;
use step_views::WordName;
use word_map::Layout;

/// The words of a machine that has just booted.
pub fn booted(alloc: Global, setup: &Setup) -> Result<Vec<u64>, Memory>
    ensures { IfOk result (λ words. (w : Word) → IsIn (shape_of setup.now) w
        → word_in (shape_of setup.now) words.items w ≡ boot_word setup.now w) }
{
    boot_words::boot_words(alloc, setup)
}

/// Goes on until the core's call is ready.
pub fn until_ready(kernel: &mut LoneKernel, core: CoreNo) -> Moved
    requires { core < kernel.old.setup.cores }
    ensures { MovesBy result Ready kernel.old kernel.new core }
{
    kernel.until_ready(core)
}

/// The text of the schedule that the input asks for, and the machine that has made the script's calls and those of the turns.
pub fn scheduled<M: Boot>(alloc: Global, source: &[u8]) -> Result<Scheduled<M>, ReadFault>
    requires { length source.now < 2 ^ 32 }
    ensures { IfOk result (λ s. IsSchedMade source.now (M.setup s.machine) (M.made s.machine) (string_bytes s.text)) }
{
    let _input = read_sched(alloc, source)?;
    speck_run::one_core::sched_run::sched(alloc, source)
}

/// The name of the word at a place of the table.
pub fn name_at(layout: &Layout, place: u32) -> WordName
    requires { place < size_of layout.now }
    ensures { (w : Word) → IsIn layout.now w → place_of layout.now w ≡ place → named result ≡ w }
{
    step_views::name_at(layout, place)
}

/// The next capability of a table.
pub fn next_cap<'a>(caps: &mut Caps<'a>) -> Option<(CapId, Cap)>
    ensures { YieldsFirst (λ c. c) caps.old result caps.new }
{
    caps.next()
}

/// The next count of a frame.
pub fn next_count<'a>(counts: &mut Counts<'a>) -> Option<CountWord>
    ensures { YieldsFirst (λ c. c) counts.old result counts.new }
{
    counts.next()
}
