//! What is told of a given history that is illegal: the line with which no history goes on, what its core's call finds in the state there,
//! and what may stand in the place of the line.
//!
//! **Judged as the line was.** Each line that might stand there is put in its place, and the lines up to it are judged (`history_check`):
//! it may stand there exactly where that verdict is `legal`. So nothing is said of the sequential kernel a second time.
//!
//! **Which lines are tried.** The decision of the call that is open there, or the call made whole, with each reply: the value of an `ok`,
//! and a number that a refusal tells, are those of the state (`open_calls`); each refusal that names a core comes with each core. No other
//! reply may decide the call there (`every_reply_is_tried`).
//!
//! See docs/FORMATS.md, 'Explanations'.
#![tactic(auto)]

mod advice;
mod calls;
mod forms;
mod history;
mod options;
mod replies;
mod texts;

pub use check_run;
pub use check_run::history_reader;
pub use history::told;
