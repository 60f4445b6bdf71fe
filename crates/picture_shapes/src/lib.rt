//! The shapes of a picture, as elements of SVG: each is written by one function, from whole numbers and words.
//!
//! See docs/FORMATS.md, 'Pictures'.
#![tactic(auto)]

mod arrows;
mod bars;
mod frame;
mod lines;

pub use arrows::{Look, Spot, begin_arrow, end_line, end_short};
pub use bars::{begin_bar, begin_bar_name, end_bar, push_edge, push_lower_teeth, push_upper_teeth};
pub use frame::{
    begin_heading, begin_picture, begin_title, end_picture, end_title, push_about, push_core_names,
    push_heads, push_key, push_lane, push_paper, push_styles,
};
pub use lines::{
    Outcome, begin_aside, begin_line, begin_sentence, begin_span, end_span, end_text,
    push_decision_number, push_lead, push_mark, push_step_number, reply_style,
};
