//! The words of the machine at the start, written by one function, and that they represent the start state.
//!
//! See docs/MODEL.md, 'Traces and legal histories'.
#![tactic(auto)]

mod boot;

ghost use Rattle.boot_words.specs.BootLaws.{BootRepresentsStart};

pub use boot::boot_words;
pub use kernel_history::word_map;

/// The boot words of every setup, with the ends that the cores have at the start, represent its start state; so do the
/// counts of references.
#[tactic(auto, using(crate::proofs::BootRepresents::boot_represents))]
pub fn boot_words_represent_the_start()
    ensures { BootRepresentsStart }
{}
