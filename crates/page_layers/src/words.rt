//! The words of a page.

ghost use Rattle.std.specs.Prelude.{◌≡◌, ◌≤◌, ◌++◌, nat_lt, if◌then◌else◌, OnOk, IfOk, string_bytes, codes};
ghost use Rattle.spk_nums.specs.Texts.{reply_text};
ghost use Rattle.page_layers.specs.Seen.{seen_made};
ghost use Rattle.page_layers.specs.Words.{letters, call_name, call_words, lane_words, finder_words, word_words, found_words, meets_word};
ghost use Rattle.page_layers.specs.Words.{arrow_words, at_step, decided_at, from_step, steps_to};
ghost use Rattle.page_layers.specs.Words.{reply_words, decided_words, span_words, bar_words};

use crate::lanes::{Change, Lane};
use line_texts::{push_call, push_reply};
use spk_nums::{Call, Reply};
use std::alloc::AllocError;
use word_texts::step_views::StepMade;
use word_texts::{push_name, push_value};

// How many letters a text counts for by its length.
fn counted(length: usize) -> u16
    ensures value { result ≡ (if nat_lt length 1000 then length else 1000) }
    ensures most { result ≤ 1000 }
{
    if length < 1000 { length as u16 } else { 1000 }
}

/// Appends a call by its number: its core, and its number among the core's.
pub fn push_call_name(text: &mut String, core: u8, index: u64) -> Result<(), AllocError>
    ensures { OnOk result (string_bytes text.new ≡ string_bytes text.old ++ call_name core index) }
{
    write!(text, "{core}.{index}")
}

fn push_call_words(text: &mut String, call: &Option<Call>) -> Result<(), AllocError>
    ensures { OnOk result (string_bytes text.new ≡ string_bytes text.old ++ call_words call.now) }
{
    match call {
        None => Ok(()),
        Some(call) => {
            text.push_str(" ")?;
            push_call(text, call)
        }
    }
}

fn push_lane(text: &mut String, core: u8, lane: &Lane) -> Result<(), AllocError>
    ensures { OnOk result (string_bytes text.new ≡ string_bytes text.old ++ lane_words core lane.now) }
{
    push_call_name(text, core, lane.index)?;
    push_call_words(text, &lane.call)
}

/// Appends a core's call, and says for how many letters it counts.
#[tactic(auto, using(crate::proofs::Grown::grown, crate::proofs::Grown::no_shorter))]
pub fn push_lane_words(text: &mut String, core: u8, lane: &Lane) -> Result<u16, AllocError>
    ensures text { OnOk result (string_bytes text.new ≡ string_bytes text.old ++ lane_words core lane.now) }
    ensures letters { IfOk result (λ n. n ≡ letters (lane_words core lane.now)) }
    ensures most { IfOk result (λ n. n ≤ 1000) }
{
    let begin = text.len();
    push_lane(text, core, lane)?;
    Ok(counted(text.len() - begin))
}

/// Appends a reply, and says for how many letters it counts.
#[tactic(auto, using(crate::proofs::Grown::grown, crate::proofs::Grown::no_shorter))]
pub fn push_reply_words(text: &mut String, reply: &Reply) -> Result<u16, AllocError>
    ensures text { OnOk result (string_bytes text.new ≡ string_bytes text.old ++ reply_text reply.now) }
    ensures letters { IfOk result (λ n. n ≡ letters (reply_text reply.now)) }
    ensures most { IfOk result (λ n. n ≤ 1000) }
{
    let begin = text.len();
    push_reply(text, reply)?;
    Ok(counted(text.len() - begin))
}

fn push_finder(text: &mut String, core: u8, lane: &Lane) -> Result<(), AllocError>
    ensures { OnOk result (string_bytes text.new ≡ string_bytes text.old ++ finder_words core lane.now) }
{
    push_call_name(text, core, lane.index)?;
    text.push_str(" finds ")
}

/// Appends who finds something, and says for how many letters that counts.
#[tactic(auto, using(crate::proofs::Grown::grown, crate::proofs::Grown::no_shorter))]
pub fn push_finder_words(text: &mut String, core: u8, lane: &Lane) -> Result<u16, AllocError>
    ensures text { OnOk result (string_bytes text.new ≡ string_bytes text.old ++ finder_words core lane.now) }
    ensures letters { IfOk result (λ n. n ≡ letters (finder_words core lane.now)) }
    ensures most { IfOk result (λ n. n ≤ 1000) }
{
    let begin = text.len();
    push_finder(text, core, lane)?;
    Ok(counted(text.len() - begin))
}

fn push_word(text: &mut String, frame: u64, made: &StepMade) -> Result<(), AllocError>
    ensures { OnOk result (string_bytes text.new ≡ string_bytes text.old ++ word_words frame (seen_made made.now)) }
{
    push_name(text, frame, &made.view.word)?;
    text.push_str(": ")?;
    push_value(text, frame, &made.view.word, made.view.found)
}

fn push_found(
    text: &mut String,
    frame: u64,
    made: &StepMade,
    change: &Change,
) -> Result<(), AllocError>
    ensures { OnOk result (string_bytes text.new ≡ string_bytes text.old ++ found_words frame (seen_made made.now) change.now) }
{
    push_word(text, frame, made)?;
    text.push_str(", from ")?;
    push_call_name(text, change.core.number(), change.index)
}

/// Appends what a step finds in its word, and from which call, and says for how many letters that counts.
#[tactic(auto, using(crate::proofs::Grown::grown, crate::proofs::Grown::no_shorter))]
pub fn push_found_words(
    text: &mut String,
    frame: u64,
    made: &StepMade,
    change: &Change,
) -> Result<u16, AllocError>
    ensures text { OnOk result (string_bytes text.new ≡ string_bytes text.old ++ found_words frame (seen_made made.now) change.now) }
    ensures letters { IfOk result (λ n. n ≡ letters (found_words frame (seen_made made.now) change.now)) }
    ensures most { IfOk result (λ n. n ≤ 1000) }
{
    let begin = text.len();
    push_found(text, frame, made, change)?;
    Ok(counted(text.len() - begin))
}

fn meets_word(overlaps: bool) -> &'static str
    ensures { result.now ≡ meets_word overlaps }
{
    if overlaps { " meets " } else { " finds " }
}

#[tactic(auto, unfolding(crate::specs::Words::at_step))]
fn push_at_step(text: &mut String, step: u64) -> Result<(), AllocError>
    ensures { OnOk result (string_bytes text.new ≡ string_bytes text.old ++ at_step step) }
{
    write!(text, " at step {step}")
}

fn push_left_by(text: &mut String, change: &Change) -> Result<(), AllocError>
    ensures { OnOk result (string_bytes text.new ≡ string_bytes text.old ++ (codes ", left by "
        ++ (call_name change.now.core change.now.index ++ at_step change.now.step))) }
{
    text.push_str(", left by ")?;
    push_call_name(text, change.core.number(), change.index)?;
    push_at_step(text, change.step)
}

/// Appends the title of an arrow.
pub fn push_arrow_words(
    text: &mut String,
    frame: u64,
    made: &StepMade,
    lane: &Lane,
    change: &Change,
) -> Result<(), AllocError>
    ensures { OnOk result (string_bytes text.new ≡ string_bytes text.old ++ arrow_words frame (seen_made made.now) lane.now change.now) }
{
    push_call_name(text, made.view.core.number(), lane.index)?;
    text.push_str(meets_word(lane.overlaps(change)))?;
    push_word(text, frame, made)?;
    push_left_by(text, change)
}

fn push_reply_after(text: &mut String, reply: &Option<Reply>) -> Result<(), AllocError>
    ensures { OnOk result (string_bytes text.new ≡ string_bytes text.old ++ reply_words reply.now) }
{
    match reply {
        None => Ok(()),
        Some(reply) => {
            text.push_str(" = ")?;
            push_reply(text, reply)
        }
    }
}

#[tactic(auto, unfolding(crate::specs::Words::decided_at))]
fn push_decided_at(text: &mut String, step: u64) -> Result<(), AllocError>
    ensures { OnOk result (string_bytes text.new ≡ string_bytes text.old ++ decided_at step) }
{
    write!(text, ", decided at {step}")
}

fn push_decided(text: &mut String, reply: &Option<Reply>, step: u64) -> Result<(), AllocError>
    ensures { OnOk result (string_bytes text.new ≡ string_bytes text.old ++ decided_words reply.now step) }
{
    if reply.is_none() {
        return Ok(());
    }
    push_decided_at(text, step)
}

#[tactic(auto, unfolding(crate::specs::Words::from_step))]
fn push_from_step(text: &mut String, first: u64) -> Result<(), AllocError>
    ensures { OnOk result (string_bytes text.new ≡ string_bytes text.old ++ from_step first) }
{
    write!(text, "&#10;from step {first}")
}

#[tactic(auto, unfolding(crate::specs::Words::steps_to))]
fn push_steps_to(text: &mut String, first: u64, last: u64) -> Result<(), AllocError>
    ensures { OnOk result (string_bytes text.new ≡ string_bytes text.old ++ steps_to first last) }
{
    write!(text, "&#10;steps {first} to {last}")
}

fn push_span(text: &mut String, first: u64, last: Option<u64>) -> Result<(), AllocError>
    ensures { OnOk result (string_bytes text.new ≡ string_bytes text.old ++ span_words first last) }
{
    match last {
        None => push_from_step(text, first),
        Some(last) => push_steps_to(text, first, last),
    }
}

/// Appends the title of the bar of a core's call, which returns at this step, or is in progress.
pub fn push_bar_words(
    text: &mut String,
    core: u8,
    lane: &Lane,
    last: Option<u64>,
) -> Result<(), AllocError>
    ensures { OnOk result (string_bytes text.new ≡ string_bytes text.old ++ bar_words core lane.now last) }
{
    push_lane(text, core, lane)?;
    push_reply_after(text, &lane.reply)?;
    push_span(text, lane.entered, last)?;
    push_decided(text, &lane.reply, lane.decided)
}
