//! The tables, whole.

ghost use Rattle.std.specs.Prelude.{◌≡◌, IfOk, string_bytes};
ghost use Rattle.table_lines.specs.kernel_rules.specs.State.{State};
ghost use Rattle.table_lines.specs.kernel_rules.specs.Laws.{ticks};
ghost use Rattle.table_lines.specs.kernel_history.specs.FinalWords.{Represent, word_in, end_in};
ghost use Rattle.table_lines.specs.kernel_history.specs.Counts.{RepresentCounts};
ghost use Rattle.table_lines.specs.kernel_history.specs.Tables.{tables_of};
ghost use Rattle.table_report.specs.Shown.{shown, tables_shown};

use crate::frames::{budgets, push_frames};
use crate::rest::{push_cores, push_numbers, spent};
use machine_image::Image;
use spk_nums::Memory;
use std::alloc::{AllocError, Global};
use table_lines::push_total;

// The budgets of all temporal capabilities and what the cores have spent.
fn total_ticks(image: &Image<'_>) -> u128
    ensures { result ≡ ticks (shown image.now.shape image.now.words image.now.ends) }
{
    let _cores = image.cores();
    u128::from(budgets(image)) + spent(image.ends())
}

fn tables(alloc: Global, image: &Image<'_>) -> Result<String, AllocError>
    ensures { IfOk result (λ text. string_bytes text ≡ tables_shown image.now.shape image.now.words image.now.ends) }
{
    let total = total_ticks(image);
    let mut text = String::new(alloc);
    push_frames(&mut text, image)?;
    push_numbers(&mut text, image)?;
    push_cores(alloc, &mut text, image.ends())?;
    push_total(&mut text, total)?;
    Ok(text)
}

/// The tables of a machine in which no core is in a call, by the image of its final words and of the ends of its cores: for each
/// frame that is not untyped its line, with the references that its count words show, and the lines of its object; then the
/// liveness numbers that are live or dead, then the cores with their translations, then the total of all ticks. Removed entries
/// are not printed, and a word that has no value is passed over.
///
/// # Errors
///
/// `Memory` where memory has run out.
pub fn report(alloc: Global, image: &Image<'_>) -> Result<String, Memory>
    // What is printed is what the words and the ends show, whatever they are.
    ensures shown { IfOk result (λ text. string_bytes text ≡ tables_shown image.now.shape image.now.words image.now.ends) }
    // It is the tables of every state that they represent, and whose references the count words represent.
    ensures tables { IfOk result (λ text. (s : State) → s.limits.cores ≡ image.now.shape.cores
        → s.limits.frames ≡ image.now.shape.frames → Represent (word_in image.now.shape image.now.words)
        (end_in image.now.ends) s → RepresentCounts (word_in image.now.shape image.now.words) s
        → string_bytes text ≡ tables_of s) }
{
    let text = tables(alloc, image)?;
    Ok(text)
}

/// The total of all ticks of a machine in which no core is in a call, by the image of its final words and of the ends of its cores:
/// the budgets of all temporal capabilities, and what the cores have spent.
pub fn total(image: &Image<'_>) -> u128
    // It is what the words and the ends show, whatever they are.
    ensures shown { result ≡ ticks (shown image.now.shape image.now.words image.now.ends) }
    // It is the total of every state that they represent.
    ensures total { (s : State) → s.limits.cores ≡ image.now.shape.cores → s.limits.frames ≡ image.now.shape.frames
        → Represent (word_in image.now.shape image.now.words) (end_in image.now.ends) s → result ≡ ticks s }
{
    total_ticks(image)
}
