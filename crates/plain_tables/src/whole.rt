//! The tables, whole.

ghost use Rattle.std.specs.Prelude.{◌≡◌, IfOk, length, string_bytes};
ghost use Rattle.seq_lookups.specs.seq_state.specs.kernel_rules.specs.State.{State};
ghost use Rattle.seq_lookups.specs.seq_state.specs.kernel_rules.specs.References.{refs};
ghost use Rattle.table_lines.specs.kernel_history.specs.Tables.{tables_of};
ghost use Rattle.seq_lookups.specs.seq_state.specs.Maps.{state_of};
ghost use Rattle.seq_lookups.specs.seq_state.specs.Representation.{Represents};
ghost use Rattle.table_lines.specs.Counting.{AreCounts};
ghost use Rattle.plain_tables.specs.Within.{ThreadsWithin};

use crate::frames::{budgets, push_frames};
use crate::names::push_all;
use crate::rest::{push_cores, push_numbers, spent};
use seq_lookups::seq_state::SeqKernel;
use spk_nums::Memory;
use std::alloc::{AllocError, Global};
use table_lines::{push_total, tally};

// The references to each frame.
fn references(alloc: Global, k: &SeqKernel) -> Result<Vec<u64>, AllocError>
    ensures length { IfOk result (λ counts. length counts.items ≡ (state_of k.now).limits.frames) }
    ensures counts { IfOk result (λ counts. AreCounts counts.items (refs (state_of k.now)) (state_of k.now).limits.frames) }
{
    let mut names = Vec::new(alloc);
    push_all(&mut names, k)?;
    tally(alloc, &names, k.frames())
}

fn whole(alloc: Global, k: &SeqKernel) -> Result<String, AllocError>
    ensures { IfOk result (λ text. string_bytes text ≡ tables_of (state_of k.now)) }
{
    let counts = references(alloc, k)?;
    let total = u128::from(budgets(k)) + spent(k);
    let mut text = String::new(alloc);
    push_frames(&mut text, k, &counts)?;
    push_numbers(&mut text, k)?;
    push_cores(alloc, &mut text, k)?;
    push_total(&mut text, total)?;
    Ok(text)
}

/// The tables of the plain kernel: for each frame that is not untyped its line and those of its object, then the liveness
/// numbers that are live or dead, then the cores with their translations, then the total of all ticks. Removed entries are not
/// printed.
///
/// # Errors
///
/// `Memory` where memory has run out.
pub fn tables(alloc: Global, k: &SeqKernel) -> Result<String, Memory>
    // They are the tables of the state that the kernel's maps stand for.
    ensures own { IfOk result (λ text. string_bytes text ≡ tables_of (state_of k.now)) }
    // They are the tables of every state that it represents whose cores have their threads in the machine's frames.
    ensures represented { IfOk result (λ text. (s : State) → ThreadsWithin s → Represents k.now s → string_bytes text ≡ tables_of s) }
{
    let text = whole(alloc, k)?;
    Ok(text)
}
