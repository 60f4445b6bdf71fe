//! The layers of a page, and what a step adds to them.

ghost use Rattle.std.specs.Prelude.{◌≡◌, ◌+◌, ◌<◌, ◌≤◌, ◌++◌, ◌||◌, max, is_some, Some, None, OnOk, IfOk, codes, string_bytes};
ghost use Rattle.spk_nums.specs.Texts.{reply_text};
ghost use Rattle.picture_shapes.specs.Lines.{decision_number, mark};
ghost use Rattle.page_layers.specs.Seen.{seen_made};
ghost use Rattle.page_layers.specs.Lanes.{outcome};
ghost use Rattle.page_layers.specs.Words.{letters, lane_words};
ghost use Rattle.page_layers.specs.Layers.{no_layers, arrow_shape, with_arrow, aside, aside_letters, reply_span, decision_line};
ghost use Rattle.page_layers.specs.Layers.{decision_letters};
ghost use Rattle.page_layers.specs.Layers.{found_line, found_letters, with_line, with_words, with_lead, with_step, with_edge, bar_teeth};
ghost use Rattle.page_layers.specs.Layers.{with_bar, with_return};

use crate::lanes::{Change, Lane};
use crate::meets::{is_blamed, outcome_of};
use crate::words::{
    push_arrow_words, push_bar_words, push_call_name, push_finder_words, push_found_words,
    push_lane_words, push_reply_words,
};
use picture_shapes::{
    Look, Spot, begin_arrow, begin_aside, begin_bar, begin_bar_name, begin_line, begin_span,
    end_bar, end_line, end_short, end_span, end_text, push_decision_number, push_edge, push_lead,
    push_mark, push_step_number, push_upper_teeth, reply_style,
};
use spk_nums::Reply;
use std::alloc::{AllocError, Global};
use std::marker::Model;
use word_texts::step_views::StepMade;

/// Where a step stands: in a picture of so many cores, after so many steps that lie before the page, on a word of a frame with this word,
/// at a height; the step's number, and how many calls are decided up to it.
#[derive(Clone, Copy)]
pub struct Moment {
    pub cores: u8,
    pub first: u64,
    pub frame: u64,
    pub y: u16,
    pub step: u64,
    pub number: u64,
}

/// The layers of a page.
#[derive(Drop)]
pub struct Sheet {
    /// The letters of the longest text.
    pub letters: u16,
    /// How many calls stand below as in progress.
    pub feet: u8,
    pub grounds: String,
    pub leads: String,
    pub arrows: String,
    pub bars: String,
    pub edges: String,
    pub teeth: String,
    pub marks: String,
    pub texts: String,
    pub names: String,
}

impl Model for Sheet {
    ghost use Rattle.std.specs.Prelude.{string_bytes};
    ghost use Rattle.page_layers.specs.Layers.{Layers};

    ghost Value = { Layers };

    ghost view = { λ s. record {
      letters = s.letters;
      feet = s.feet;
      grounds = string_bytes s.grounds;
      leads = string_bytes s.leads;
      arrows = string_bytes s.arrows;
      bars = string_bytes s.bars;
      edges = string_bytes s.edges;
      teeth = string_bytes s.teeth;
      marks = string_bytes s.marks;
      texts = string_bytes s.texts;
      names = string_bytes s.names;
    } };
}

pub(crate) fn larger(a: u16, b: u16) -> u16
    ensures { result ≡ max a b }
{
    if a < b { b } else { a }
}

fn spot_at(core: u8, y: u16) -> Spot
    ensures { result ≡ record { core = core; y = y } }
{
    Spot { core, y }
}

// Appends the shape of an arrow to a step from a change.
fn push_arrow_shape(
    text: &mut String,
    moment: &Moment,
    made: &StepMade,
    lane: &Lane,
    change: &Change,
) -> Result<(), AllocError>
    ensures { OnOk result (string_bytes text.new ≡ string_bytes text.old
        ++ arrow_shape moment.now (seen_made made.now) lane.now change.now) }
{
    let core = made.view.core.number();
    let look = Look {
        race: is_blamed(&made.decides),
        right: change.core.number() < core,
    };
    if lane.overlaps(change) {
        return end_line(
            text,
            look,
            spot_at(change.core.number(), change.height(moment.first)),
            spot_at(core, moment.y),
        );
    }
    end_short(text, look, spot_at(core, moment.y))
}

// Appends a reply in its style, and says for how many letters it counts.
fn push_reply_span(text: &mut String, reply: &Reply) -> Result<u16, AllocError>
    ensures text { OnOk result (string_bytes text.new ≡ string_bytes text.old ++ reply_span reply.now) }
    ensures letters { IfOk result (λ n. n ≡ letters (reply_text reply.now)) }
    ensures most { IfOk result (λ n. n ≤ 1000) }
{
    begin_span(text, reply_style(outcome_of(reply)))?;
    let letters = push_reply_words(text, reply)?;
    end_span(text)?;
    Ok(letters)
}

// Appends what a step finds, where it is met, and says for how many letters that counts.
fn push_aside(
    text: &mut String,
    moment: &Moment,
    made: &StepMade,
    tail: &Option<Change>,
) -> Result<u16, AllocError>
    ensures text { OnOk result (string_bytes text.new ≡ string_bytes text.old ++ aside moment.now (seen_made made.now) tail.now) }
    ensures letters { IfOk result (λ n. n ≡ aside_letters moment.now (seen_made made.now) tail.now) }
    ensures most { IfOk result (λ n. n ≤ 1000) }
{
    match tail {
        None => Ok(0),
        Some(change) => {
            begin_aside(text)?;
            let letters = push_found_words(text, moment.frame, made, change)?;
            end_span(text)?;
            Ok(letters)
        }
    }
}

// Appends the text of a decision, and says for how many letters it counts.
fn push_decision_line(
    text: &mut String,
    moment: &Moment,
    made: &StepMade,
    lane: &Lane,
    reply: &Reply,
    tail: &Option<Change>,
) -> Result<u16, AllocError>
    ensures text { OnOk result (string_bytes text.new ≡ string_bytes text.old
        ++ decision_line moment.now (seen_made made.now) lane.now reply.now tail.now) }
    ensures letters { IfOk result (λ n. n ≡ decision_letters moment.now (seen_made made.now) lane.now reply.now tail.now) }
{
    begin_line(text, moment.cores, u32::from(moment.y))?;
    let call = push_lane_words(text, made.view.core.number(), lane)?;
    text.push_str(" = ")?;
    let answer = push_reply_span(text, reply)?;
    let found = push_aside(text, moment, made, tail)?;
    end_text(text)?;
    Ok(call + answer + found + 5)
}

// Appends the text of a step that is met and decides nothing, and says for how many letters it counts.
fn push_found_line(
    text: &mut String,
    moment: &Moment,
    made: &StepMade,
    lane: &Lane,
    change: &Change,
) -> Result<u16, AllocError>
    ensures text { OnOk result (string_bytes text.new ≡ string_bytes text.old
        ++ found_line moment.now (seen_made made.now) lane.now change.now) }
    ensures letters { IfOk result (λ n. n ≡ found_letters moment.now (seen_made made.now) lane.now change.now) }
{
    begin_line(text, moment.cores, u32::from(moment.y))?;
    begin_span(text, "m")?;
    let finder = push_finder_words(text, made.view.core.number(), lane)?;
    let found = push_found_words(text, moment.frame, made, change)?;
    end_span(text)?;
    end_text(text)?;
    Ok(finder + found + 2)
}

impl Sheet {
    /// Nothing yet.
    pub fn new(alloc: Global) -> Sheet
        ensures { result ≡ no_layers }
    {
        Sheet {
            letters: 38,
            feet: 0,
            grounds: String::new(alloc),
            leads: String::new(alloc),
            arrows: String::new(alloc),
            bars: String::new(alloc),
            edges: String::new(alloc),
            teeth: String::new(alloc),
            marks: String::new(alloc),
            texts: String::new(alloc),
            names: String::new(alloc),
        }
    }

    fn draw_arrow(
        &mut self,
        moment: &Moment,
        made: &StepMade,
        lane: &Lane,
        tail: &Option<Change>,
    ) -> Result<(), AllocError>
        ensures { OnOk result (self.new ≡ with_arrow moment.now (seen_made made.now) lane.now tail.now self.old) }
    {
        let Some(change) = tail else {
            return Ok(());
        };
        begin_arrow(&mut self.arrows)?;
        push_arrow_words(&mut self.arrows, moment.frame, made, lane, change)?;
        push_arrow_shape(&mut self.arrows, moment, made, lane, change)
    }

    fn draw_decision(
        &mut self,
        moment: &Moment,
        made: &StepMade,
        lane: &Lane,
        reply: &Reply,
        tail: &Option<Change>,
    ) -> Result<(), AllocError>
        ensures { OnOk result (self.new ≡ with_words moment.now (seen_made made.now) lane.now (Some reply.now) tail.now self.old) }
    {
        let letters = push_decision_line(&mut self.texts, moment, made, lane, reply, tail)?;
        push_decision_number(&mut self.texts, moment.cores, moment.y, moment.number)?;
        push_mark(
            &mut self.marks,
            outcome_of(reply),
            made.view.core.number(),
            moment.y,
        )?;
        self.letters = larger(self.letters, letters);
        Ok(())
    }

    fn draw_found(
        &mut self,
        moment: &Moment,
        made: &StepMade,
        lane: &Lane,
        tail: &Option<Change>,
    ) -> Result<(), AllocError>
        ensures { OnOk result (self.new ≡ with_words moment.now (seen_made made.now) lane.now None tail.now self.old) }
    {
        let Some(change) = tail else {
            return Ok(());
        };
        let letters = push_found_line(&mut self.texts, moment, made, lane, change)?;
        self.letters = larger(self.letters, letters);
        Ok(())
    }

    fn draw_words(
        &mut self,
        moment: &Moment,
        made: &StepMade,
        lane: &Lane,
        tail: &Option<Change>,
    ) -> Result<(), AllocError>
        ensures { OnOk result (self.new ≡ with_words moment.now (seen_made made.now) lane.now made.now.decides tail.now self.old) }
    {
        match &made.decides {
            None => self.draw_found(moment, made, lane, tail),
            Some(reply) => self.draw_decision(moment, made, lane, reply, tail),
        }
    }

    fn draw_lead(&mut self, moment: &Moment, has_text: bool) -> Result<(), AllocError>
        ensures { OnOk result (self.new ≡ with_lead moment.now has_text self.old) }
    {
        if !has_text {
            return Ok(());
        }
        push_lead(&mut self.leads, moment.cores, moment.y)?;
        push_step_number(&mut self.texts, moment.y, moment.step)
    }

    /// Draws a step: the arrow to it, its text and its mark, where it has any. Where memory has run out a part of it may be drawn.
    pub fn draw_step(
        &mut self,
        moment: &Moment,
        made: &StepMade,
        lane: &Lane,
        tail: &Option<Change>,
    ) -> Result<(), AllocError>
        ensures { OnOk result (self.new ≡ with_step moment.now (seen_made made.now) lane.now tail.now self.old) }
    {
        self.draw_arrow(moment, made, lane, tail)?;
        self.draw_words(moment, made, lane, tail)?;
        self.draw_lead(moment, made.decides.is_some() || tail.is_some())
    }

    /// Draws a piece of the edge of a core's bar, from the height of one step to that of another.
    pub fn draw_edge(&mut self, core: u8, first: u16, last: u16) -> Result<(), AllocError>
        ensures { OnOk result (self.new ≡ with_edge core first last self.old) }
    {
        push_edge(&mut self.edges, core, first, last)
    }

    fn draw_bar_shape(
        &mut self,
        core: u8,
        lane: &Lane,
        first: u64,
        end: u32,
        last: Option<u64>,
    ) -> Result<(), AllocError>
        ensures { OnOk result (self.new ≡ record self.old { bars = (with_bar core lane.now first end last self.old).bars }) }
    {
        begin_bar(&mut self.bars, core, lane.top_y(first), end)?;
        push_bar_words(&mut self.bars, core, lane, last)?;
        end_bar(&mut self.bars)
    }

    fn draw_bar_name(&mut self, core: u8, lane: &Lane, first: u64) -> Result<(), AllocError>
        ensures { OnOk result (self.new ≡ record self.old { marks = (with_bar core lane.now first 0 None self.old).marks }) }
    {
        begin_bar_name(&mut self.marks, core, lane.name_y(first))?;
        push_call_name(&mut self.marks, core, lane.index)?;
        end_text(&mut self.marks)
    }

    fn draw_bar_teeth(&mut self, core: u8, lane: &Lane, first: u64) -> Result<(), AllocError>
        ensures { OnOk result (self.new ≡ record self.old { teeth = (with_bar core lane.now first 0 None self.old).teeth }) }
    {
        if lane.entered <= first {
            return push_upper_teeth(&mut self.teeth, core);
        }
        Ok(())
    }

    /// Draws the bar of a core's call, down to a height, where so many steps lie before the page. The call returns at this step, or is in
    /// progress.
    pub fn draw_bar(
        &mut self,
        core: u8,
        lane: &Lane,
        first: u64,
        end: u32,
        last: Option<u64>,
    ) -> Result<(), AllocError>
        ensures { OnOk result (self.new ≡ with_bar core lane.now first end last self.old) }
    {
        self.draw_bar_shape(core, lane, first, end, last)?;
        self.draw_bar_name(core, lane, first)?;
        self.draw_bar_teeth(core, lane, first)
    }

    /// Draws the bar of a core's call, where it returns at a step.
    pub fn draw_return(
        &mut self,
        moment: &Moment,
        core: u8,
        returns: &Option<Reply>,
        lane: &Lane,
    ) -> Result<(), AllocError>
        ensures { OnOk result (self.new ≡ with_return moment.now core returns.now lane.now self.old) }
    {
        if returns.is_none() {
            return Ok(());
        }
        self.draw_bar(
            core,
            lane,
            moment.first,
            u32::from(moment.y) + 2,
            Some(moment.step),
        )
    }
}
