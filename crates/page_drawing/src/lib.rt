//! The picture of a page of a trace, as SVG: left the machine, a bar for each call; right the history, a line for each decision.
//!
//! **One pass.** What a step adds depends on what came before it alone: the cores' calls, the newest change of each word, the heights so
//! far. So the picture grows a step at a time, and its size is known at the end of the page.
//!
//! **Pages.** The pages before the one that is asked for are counted and not drawn; after it nothing more is looked at.
//!
//! See docs/FORMATS.md, 'Pictures'.
#![tactic(auto)]

mod page;
mod text;

pub use page::TracePage;
pub use page_touches::step_views::StepMade;
