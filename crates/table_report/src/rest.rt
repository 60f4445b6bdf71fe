//! The lines of liveness numbers, cores and ticks.

ghost use Rattle.std.specs.Prelude.{◌≡◌, ◌≤◌, ◌^◌, ◌++◌, length, OnOk, Some, string_bytes, codes};
ghost use Rattle.std.specs.List.{flat_map};
ghost use Rattle.table_lines.specs.kernel_rules.specs.State.{outstanding};
ghost use Rattle.table_lines.specs.kernel_rules.specs.References.{sum_below};
ghost use Rattle.table_lines.specs.kernel_history.specs.Tables.{number, number_line, translation_line, core_lines, total_line};
ghost use Rattle.table_lines.specs.Ends.{core_shown};
ghost use Rattle.table_report.specs.Shown.{number_shown, numbers_text, core_shown_at, cores_text};

use frame_words::LiveWord;
use machine_image::Image;
use spk_nums::CoreEnd;
use std::alloc::{AllocError, Global};
use table_lines::{push_core, push_dead, push_live};

fn push_word(text: &mut String, number: u8, live: &LiveWord) -> Result<(), AllocError>
    ensures { OnOk result (string_bytes text.new ≡ string_bytes text.old ++ number_line number (number_shown (Some live.now))) }
{
    match live {
        LiveWord::Live { epoch, frame } => push_live(text, number, *epoch, *frame),
        LiveWord::Dead { epoch, stamp: _ } => push_dead(text, number, *epoch),
        LiveWord::Free => Ok(()),
        LiveWord::Closing { epoch: _, by: _ } => Ok(()),
    }
}

// Appends the line of a liveness number that is live or dead.
fn push_number(text: &mut String, number: u8, word: Option<LiveWord>) -> Result<(), AllocError>
    ensures { OnOk result (string_bytes text.new ≡ string_bytes text.old ++ number_line number (number_shown word)) }
{
    match word {
        Some(live) => push_word(text, number, &live),
        None => Ok(()),
    }
}

/// Appends the lines of all liveness numbers.
pub fn push_numbers(text: &mut String, image: &Image<'_>) -> Result<(), AllocError>
    ensures { OnOk result (string_bytes text.new ≡ string_bytes text.old ++ numbers_text image.now.shape image.now.words 64) }
{
    'numbers: for number in 0..64 {
        push_number(text, number, image.liveness(number))?;
    }
    Ok(())
}

/// Appends the lines of all cores.
pub fn push_cores(alloc: Global, text: &mut String, ends: &[CoreEnd]) -> Result<(), AllocError>
    ensures { OnOk result (string_bytes text.new ≡ string_bytes text.old ++ cores_text ends.now (length ends.now)) }
{
    'cores: for core in 0..ends.len() {
        push_core(alloc, text, core, &ends[core])?;
    }
    Ok(())
}

/// The sum of the ticks that the cores have spent and have not had back.
pub fn spent(ends: &[CoreEnd]) -> u128
    requires { length ends.now ≤ 8 }
    ensures sum { result ≡ sum_below (λ c. outstanding (core_shown_at ends.now c)) (length ends.now) }
    ensures most { result ≤ 2 ^ 67 }
{
    let mut sum: u128 = 0;
    'cores: for core in 0..ends.len() {
        let end = &ends[core];
        sum += u128::from(end.spent.saturating_sub(end.back));
    }
    sum
}
