//! What a page of a picture knows of the words of the table: the newest change of each, which cores have come to it since, and what each
//! frame is. So it is told which change a step meets, from which its arrow comes.
//!
//! See docs/FORMATS.md, 'Pictures'.
#![tactic(auto)]

mod touches;

ghost use Rattle.page_touches.specs.Blamed.{BlamedAreMet};

pub use page_layers;
pub use page_layers::step_views::StepMade;
pub use page_layers::{Change, step_views};
pub use touches::{
    Touch, first_words, frame_of, note_frame, note_word, start_words, tail_of, untouched, word_at,
};

/// A step that says by its call's reply that another is in the way has an arrow from the newest change of its word, whatever word this is
/// but the clock, if that change is another core's.
#[tactic(auto, using(crate::proofs::Blamed::blamed_are_met))]
pub fn blamed_are_met()
    ensures { BlamedAreMet }
{}
