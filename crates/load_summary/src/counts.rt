//! The summary of calls that were decided.

ghost use Rattle.std.specs.Prelude.{◌≡◌, ◌++◌, length, OnOk, string_bytes};
ghost use Rattle.load_summary.specs.Summaries.{with_number, counted, counts_below, counts_text, total_text};

use spk_nums::{Decision, reply_name, reply_number};
use std::alloc::AllocError;

// How many replies there are; they are numbered from 0 on.
const REPLIES: u8 = 25;

// Appends the line of the replies of a number; none where none came.
fn push_count(text: &mut String, decisions: &[Decision], number: u8) -> Result<(), AllocError>
    ensures { OnOk result (string_bytes text.new ≡ string_bytes text.old ++ counted (with_number number decisions.now)) }
{
    let mut name = "";
    let mut count: usize = 0;
    'decisions: for decision in decisions {
        if reply_number(&decision.reply) == number {
            if count == 0 {
                name = reply_name(&decision.reply);
            }
            count += 1;
        }
    }
    if count == 0 {
        return Ok(());
    }
    write!(text, "{name} {count}\n")
}

// Appends the lines of all replies, in the order of their numbers.
fn push_lines(text: &mut String, decisions: &[Decision]) -> Result<(), AllocError>
    ensures { OnOk result (string_bytes text.new ≡ string_bytes text.old ++ counts_below 25 decisions.now) }
{
    'numbers: for number in 0..REPLIES {
        push_count(text, decisions, number)?;
    }
    Ok(())
}

/// Appends the counts of decisions, of which a summary's first lines are: for each reply that came, in the order of their
/// numbers, its word and how often; then how many calls there were.
pub fn push_counts(text: &mut String, decisions: &[Decision]) -> Result<(), AllocError>
    ensures { OnOk result (string_bytes text.new ≡ string_bytes text.old ++ counts_text decisions.now) }
{
    push_lines(text, decisions)?;
    let calls = decisions.len();
    write!(text, "calls {calls}\n")
}

/// Appends the last line of a summary: a total of ticks.
pub fn push_total(text: &mut String, total: u128) -> Result<(), AllocError>
    ensures { OnOk result (string_bytes text.new ≡ string_bytes text.old ++ total_text total) }
{
    write!(text, "total {total}\n")
}
