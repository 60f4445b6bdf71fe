//! What may stand at each place of a line: of a script, and of what `ends`, `sched` and `check` read.
//!
//! **A line by its places.** A line is the list of its words, and what may stand at a place goes by the words before it and by what the
//! lines before it have come to (`Context`). The first word that does not fit its place is the one at which a reader refuses the line.
//!
//! The readers say what a line makes of a text, and the cause of a fault. Where in the line it stands, and what may stand there, is said
//! here: it is told to people, and nothing is read by it.
//!
//! See docs/FORMATS.md, 'Explanations'.
#![tactic(auto)]

mod calls;
mod context;
mod firsts;
mod fitting;
mod forms;
mod lines;
mod numbered;
mod replies;
mod slots;
mod starts;
mod texts;
mod words;

pub use calls::is_at;
pub use context::{Context, Reading, Stage, context_after, no_context};
pub use firsts::is_whole;
pub use fitting::fits;
pub use forms::{call_form_of, form_of};
pub use lines::slot_at;
pub use slots::Slot;
pub use starts::{Start, start_of};
pub use texts::Due;
pub use words::{words_before, words_from};
