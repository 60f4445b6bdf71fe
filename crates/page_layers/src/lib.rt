//! The layers of a picture's page: what each step and each call adds to them.
//!
//! **Layers.** Shapes lie over one another: lanes lowest, then the dotted lines, arrows, bars, their edges and teeth, the marks of
//! decisions, and texts above all. Each layer is a text of its own, and the page puts them together at its end, when its height and width
//! are known.
//!
//! **Letters.** No metric of a font is known. So the width of a page is counted in letters, of the longest text, 8 pixels each.
//!
//! See docs/FORMATS.md, 'Pictures'.
#![tactic(auto)]

mod finish;
mod lanes;
mod meets;
mod sheet;
mod words;

pub use lanes::{Change, Lane};
pub use meets::is_blamed;
pub use sheet::{Moment, Sheet};
pub use word_texts::step_views;
