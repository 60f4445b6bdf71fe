//! The marks of decisions, and the lines of the history with what leads to them.

ghost use Rattle.std.specs.Prelude.{◌≡◌, ◌<◌, ◌++◌, OnOk, string_bytes};
ghost use Rattle.picture_shapes.specs.Lines.{lead_to, lead, number_at, step_number, decision_number, line_begin, sentence_begin, text_end};
ghost use Rattle.picture_shapes.specs.Lines.{span_begin, aside_begin, span_end, reply_style, disc, diamond, mark};

use crate::frame::{lane_x, right_x};
use std::alloc::AllocError;

/// How a call ended: it was carried out, it was refused, or it was refused since another is in the way.
#[derive(Clone, Copy, PartialEq, Eq, Debug)]
pub enum Outcome {
    Done,
    Refused,
    InTheWay,
}

#[tactic(auto, unfolding(crate::specs::Lines::lead_to))]
fn push_lead_to(text: &mut String, x: u32, y: u32) -> Result<(), AllocError>
    ensures { OnOk result (string_bytes text.new ≡ string_bytes text.old ++ lead_to x y) }
{
    write!(text, "<path d='M62 {y}H{x}' class='lead'/>\n")
}

/// Appends the dotted line from the lanes of so many cores to a text.
pub fn push_lead(text: &mut String, cores: u8, y: u16) -> Result<(), AllocError>
    ensures { OnOk result (string_bytes text.new ≡ string_bytes text.old ++ lead cores y) }
{
    push_lead_to(text, right_x(cores) + 4, u32::from(y) + 1)
}

#[tactic(auto, unfolding(crate::specs::Lines::number_at))]
fn push_number_at(text: &mut String, x: u32, y: u32, number: u64) -> Result<(), AllocError>
    ensures { OnOk result (string_bytes text.new ≡ string_bytes text.old ++ number_at x y number) }
{
    write!(
        text,
        "<text x='{x}' y='{y}' class='m s e'>{number}</text>\n"
    )
}

/// Appends the number of a step, at the left margin.
pub fn push_step_number(text: &mut String, y: u16, number: u64) -> Result<(), AllocError>
    ensures { OnOk result (string_bytes text.new ≡ string_bytes text.old ++ step_number y number) }
{
    push_number_at(text, 58, u32::from(y) + 5, number)
}

/// Appends the number of a decision, before its text.
pub fn push_decision_number(
    text: &mut String,
    cores: u8,
    y: u16,
    number: u64,
) -> Result<(), AllocError>
    ensures { OnOk result (string_bytes text.new ≡ string_bytes text.old ++ decision_number cores y number) }
{
    push_number_at(text, right_x(cores) + 22, u32::from(y) + 5, number)
}

/// Begins a text of the right half; its words come next.
#[tactic(auto, unfolding(crate::specs::Lines::line_begin))]
pub fn begin_line(text: &mut String, cores: u8, y: u32) -> Result<(), AllocError>
    requires { y < 100000 }
    ensures { OnOk result (string_bytes text.new ≡ string_bytes text.old ++ line_begin cores y) }
{
    let x = right_x(cores) + 30;
    let y = y + 5;
    write!(text, "<text x='{x}' y='{y}'>")
}

/// Begins a text at the left margin; its words come next.
#[tactic(auto, unfolding(crate::specs::Lines::sentence_begin))]
pub fn begin_sentence(text: &mut String, y: u32) -> Result<(), AllocError>
    requires { y < 100000 }
    ensures { OnOk result (string_bytes text.new ≡ string_bytes text.old ++ sentence_begin y) }
{
    let y = y + 5;
    write!(text, "<text x='26' y='{y}' class='m'>")
}

/// Ends a text.
#[tactic(auto, unfolding(crate::specs::Lines::text_end))]
pub fn end_text(text: &mut String) -> Result<(), AllocError>
    ensures { OnOk result (string_bytes text.new ≡ string_bytes text.old ++ text_end) }
{
    text.push_str("</text>\n")
}

/// Begins words in a style.
#[tactic(auto, unfolding(crate::specs::Lines::span_begin))]
pub fn begin_span(text: &mut String, style: &'static str) -> Result<(), AllocError>
    ensures { OnOk result (string_bytes text.new ≡ string_bytes text.old ++ span_begin style.now) }
{
    write!(text, "<tspan class='{style}'>")
}

/// Begins words in grey that stand apart.
#[tactic(auto, unfolding(crate::specs::Lines::aside_begin))]
pub fn begin_aside(text: &mut String) -> Result<(), AllocError>
    ensures { OnOk result (string_bytes text.new ≡ string_bytes text.old ++ aside_begin) }
{
    text.push_str("<tspan class='m' dx='16'>")
}

/// Ends such words.
#[tactic(auto, unfolding(crate::specs::Lines::span_end))]
pub fn end_span(text: &mut String) -> Result<(), AllocError>
    ensures { OnOk result (string_bytes text.new ≡ string_bytes text.old ++ span_end) }
{
    text.push_str("</tspan>")
}

/// The style of a reply of this outcome.
pub fn reply_style(outcome: Outcome) -> &'static str
    ensures { result.now ≡ reply_style outcome }
{
    match outcome {
        Outcome::Done => "okt",
        Outcome::Refused => "not",
        Outcome::InTheWay => "wayt",
    }
}

#[tactic(auto, unfolding(crate::specs::Lines::disc))]
fn push_disc(text: &mut String, style: &'static str, core: u8, y: u16) -> Result<(), AllocError>
    ensures { OnOk result (string_bytes text.new ≡ string_bytes text.old ++ disc style.now core y) }
{
    let x = lane_x(core) + 22;
    let y = u32::from(y) + 1;
    write!(text, "<circle cx='{x}' cy='{y}' r='5' class='{style}'/>\n")
}

#[tactic(auto, unfolding(crate::specs::Lines::diamond))]
fn push_diamond(text: &mut String, core: u8, y: u16) -> Result<(), AllocError>
    ensures { OnOk result (string_bytes text.new ≡ string_bytes text.old ++ diamond core y) }
{
    let x = lane_x(core) + 22;
    let y = u32::from(y).saturating_sub(5);
    write!(text, "<path d='M{x} {y}l6 6l-6 6l-6 -6z' class='way'/>\n")
}

/// Appends the mark of a core's decision.
pub fn push_mark(text: &mut String, outcome: Outcome, core: u8, y: u16) -> Result<(), AllocError>
    ensures { OnOk result (string_bytes text.new ≡ string_bytes text.old ++ mark outcome core y) }
{
    match outcome {
        Outcome::Done => push_disc(text, "ok", core, y),
        Outcome::Refused => push_disc(text, "no", core, y),
        Outcome::InTheWay => push_diamond(text, core, y),
    }
}
