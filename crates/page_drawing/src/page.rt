//! A page, as it grows.

ghost use Rattle.std.specs.Prelude.{◌≡◌, ◌==◌, ◌+◌, ◌*◌, ◌<◌, ◌≤◌, ◌^◌, OnOk, IfOk, All, false, ◌&&◌, if◌then◌else◌, is_some, not, replicate};
ghost use Rattle.word_map.specs.Places.{size_of};
ghost use Rattle.picture_rows.specs.Rows.{IsWithin, is_full};
ghost use Rattle.page_touches.specs.page_layers.specs.Lanes.{lane_entered, lane_decided, lane_topped, lane_returned};
ghost use Rattle.page_touches.specs.step_views.specs.kernel_history.specs.BootWords.{shape_of};
ghost use Rattle.page_touches.specs.page_layers.specs.Seen.{seen_made};
ghost use Rattle.page_drawing.specs.Pages.{blank, lane_of, first_due, first_dues, returns_of, turned, follows, run_after};
ghost use Rattle.page_drawing.specs.Pages.{run_ended, run_left, placed, next_step, lane_at, tail_at, decisions_after, moment};
ghost use Rattle.page_drawing.specs.Pages.{layers_at, layers_after, change_at, words_after, noted, taken_at, taken_in, taken, turned_to};
ghost use Rattle.page_drawing.specs.Pages.{step_taken};
ghost use Rattle.page_touches.specs.Touches.{frame_of};

use page_touches::page_layers::{Change, Lane, Moment, Sheet};
use page_touches::step_views::{StepMade, place_in};
use page_touches::{
    Touch, first_words, frame_of, note_frame, note_word, start_words, tail_of, word_at,
};
use picture_rows::{Placed, Rows};
use spk_nums::Setup;
use std::alloc::{AllocError, Global};
use std::marker::Model;
use word_map::Layout;

/// Steps of one core in a row: the core, and the height of the first.
#[derive(Clone, Copy)]
pub struct Run {
    pub core: u8,
    pub y: u16,
}

/// A page of the steps that are told so far.
#[derive(Drop)]
pub struct TracePage {
    pub(crate) cores: u8,
    pub(crate) wanted: u32,
    pub(crate) page: u32,
    pub(crate) is_cut: bool,
    pub(crate) first: u64,
    pub(crate) decisions: u64,
    pub(crate) lanes: [Lane; 8],
    pub(crate) words: Vec<Touch>,
    pub(crate) frames: Vec<u64>,
    pub(crate) rows: Rows,
    pub(crate) run: Option<Run>,
    pub(crate) sheet: Sheet,
}

impl Model for TracePage {
    ghost use Rattle.page_drawing.specs.Pages.{Page, IsSound};

    ghost Value = { Page };

    ghost view = { λ p. record {
      cores = p.cores;
      wanted = p.wanted;
      page = p.page;
      is_cut = p.is_cut;
      first = p.first;
      decisions = p.decisions;
      lanes = p.lanes;
      words = p.words.items;
      frames = p.frames.items;
      rows = p.rows;
      run = p.run;
      layers = p.sheet;
    } };

    ghost invariant = { λ p. IsSound p.rows p.cores p.page p.first p.decisions p.lanes };
}

fn first_due(lane: &Lane) -> u16
    ensures value { result ≡ first_due lane.now }
    ensures most { result ≤ 178 }
{
    if lane.call.is_some() && lane.reply.is_none() {
        176
    } else {
        156
    }
}

// What is due of each core at the beginning of a page.
#[tactic(auto, using(crate::proofs::Sound::dues_most))]
fn first_dues(lanes: &[Lane; 8]) -> [u16; 8]
    ensures value { result ≡ first_dues lanes.now }
    ensures most { All (λ d. d ≤ 178) result }
{
    [
        first_due(&lanes[0]),
        first_due(&lanes[1]),
        first_due(&lanes[2]),
        first_due(&lanes[3]),
        first_due(&lanes[4]),
        first_due(&lanes[5]),
        first_due(&lanes[6]),
        first_due(&lanes[7]),
    ]
}

// The step of each core's last return.
fn returns_of(lanes: &[Lane; 8]) -> [u64; 8]
    ensures { result ≡ returns_of lanes.now }
{
    [
        lanes[0].returned,
        lanes[1].returned,
        lanes[2].returned,
        lanes[3].returned,
        lanes[4].returned,
        lanes[5].returned,
        lanes[6].returned,
        lanes[7].returned,
    ]
}

// A core's calls at its step, with its entry and its decision.
fn lane_at(lanes: &[Lane; 8], made: &StepMade, step: u64) -> Lane
    requires { (lane_of lanes.now made.now.view.core).index + 1 < 2 ^ 64 }
    ensures { result ≡ lane_decided made.now.decides step (lane_entered made.now.view.enters step (returns_of lanes.now)
        (lane_of lanes.now made.now.view.core)) }
{
    let mut lane = lanes[usize::from(made.view.core.number())];
    lane.enter(&made.view.enters, step, &returns_of(lanes));
    lane.decide(&made.decides, step);
    lane
}

// And with the height of its entry.
#[tactic(auto, using(crate::proofs::Sound::index_most))]
fn lane_drawn(lanes: &[Lane; 8], made: &StepMade, step: u64, y: u16) -> Lane
    requires { (lane_of lanes.now made.now.view.core).index + 1 < 2 ^ 64 }
    ensures value { result ≡ lane_topped made.now.view.enters y (lane_decided made.now.decides step
        (lane_entered made.now.view.enters step (returns_of lanes.now) (lane_of lanes.now made.now.view.core))) }
    ensures index { result.index ≤ (lane_of lanes.now made.now.view.core).index + 1 }
{
    let mut lane = lane_at(lanes, made, step);
    lane.set_top(&made.view.enters, y);
    lane
}

fn follows(run: &Option<Run>, core: u8) -> bool
    ensures { result ≡ follows run.now core }
{
    match run {
        None => false,
        Some(run) => run.core == core,
    }
}

// Draws the piece of the edge of a run that ends.
pub(crate) fn end_run(sheet: &mut Sheet, run: &Option<Run>, last: u16) -> Result<(), AllocError>
    ensures { OnOk result (sheet.new ≡ run_ended run.now last sheet.old) }
{
    match run {
        None => Ok(()),
        Some(run) => sheet.draw_edge(run.core, run.y, last),
    }
}

// Whether a core's step goes on with a run.
fn goes_on(run: &Option<Run>, made: &StepMade) -> bool
    ensures { result ≡ (follows run.now made.now.view.core && not (is_some made.now.view.enters)) }
{
    follows(run, made.view.core.number()) && made.view.enters.is_none()
}

fn leave_run(
    sheet: &mut Sheet,
    run: &Option<Run>,
    made: &StepMade,
    last: u16,
) -> Result<(), AllocError>
    ensures { OnOk result (sheet.new ≡ run_left run.now (seen_made made.now) last sheet.old) }
{
    if goes_on(run, made) {
        return Ok(());
    }
    end_run(sheet, run, last)
}

fn next_run(run: &mut Option<Run>, made: &StepMade, y: u16)
    ensures { run.new ≡ run_after run.old (seen_made made.now) y }
{
    if goes_on(run, made) {
        return;
    }
    *run = Some(Run {
        core: made.view.core.number(),
        y,
    });
}

fn placing(run: &Option<Run>, made: &StepMade, met: bool) -> Placed
    ensures core { result.core < 8 }
    ensures value { result ≡ record {
      core = made.now.view.core;
      enters = is_some made.now.view.enters;
      decides = is_some made.now.decides;
      returns = is_some made.now.returns;
      met = met;
      changes = not (made.now.view.found == made.now.view.left);
      follows = follows run.now made.now.view.core;
    } }
{
    Placed {
        core: made.view.core.number(),
        enters: made.view.enters.is_some(),
        decides: made.decides.is_some(),
        returns: made.returns.is_some(),
        met,
        changes: made.view.found != made.view.left,
        follows: follows(run, made.view.core.number()),
    }
}

// How many words the table has.
fn table_size(setup: &Setup) -> u32
    ensures { result ≡ size_of (shape_of setup.now) }
{
    let Some(layout) = Layout::new(setup.cores(), setup.frames()) else {
        // A setup is within the limits of a layout.
        return 0;
    };
    layout.size()
}

// The number of the next step, after so many pages and steps.
pub(crate) fn next_step(page: u32, first: u64, count: u16) -> u64
    requires before { first ≤ 2000 * page }
    ensures { result ≡ first + (count + 1) }
{
    let _page = page;
    first + (u64::from(count) + 1)
}

impl TracePage {
    /// Before any step, in a machine of this setup, where this page is asked for; pages count from 1. It fails only where memory runs out.
    #[tactic(auto, using(crate::proofs::Sound::blank_sound))]
    pub fn new(alloc: Global, wanted: u32, setup: &Setup) -> Result<TracePage, AllocError>
        ensures { IfOk result (λ page. page ≡ blank wanted setup.now) }
    {
        let words = first_words(alloc, table_size(setup))?;
        let frames = start_words(alloc, setup.cores(), setup.frames())?;
        Ok(TracePage {
            cores: setup.cores(),
            wanted,
            page: 1,
            is_cut: false,
            first: 0,
            decisions: 0,
            lanes: [Lane::new(); 8],
            words,
            frames,
            rows: Rows::new([156; 8]),
            run: None,
            sheet: Sheet::new(alloc),
        })
    }

    // Begins the next page.
    #[tactic(auto, using(crate::proofs::Sound::turned_sound))]
    fn turn(&mut self)
        requires { self.old.page < self.old.wanted }
        ensures { self.new ≡ turned self.old }
    {
        self.first += u64::from(self.rows.count);
        self.page += 1;
        self.rows = Rows::new(first_dues(&self.lanes));
        self.run = None;
    }

    /// Takes a step that was made. Where memory has run out a part of it may be drawn.
    pub fn tell(&mut self, made: &StepMade) -> Result<(), AllocError>
        ensures { OnOk result (self.new ≡ step_taken self.old (seen_made made.now)) }
    {
        if self.is_cut {
            return Ok(());
        }
        if !self.rows.is_full(made.view.enters.is_some()) {
            return self.take(made);
        }
        self.tell_next(made)
    }

    // Takes the first step of the next page, if that is still wanted.
    #[tactic(auto, using(picture_rows::proofs::Room::none_room))]
    fn tell_next(&mut self, made: &StepMade) -> Result<(), AllocError>
        ensures { OnOk result (self.new ≡ turned_to self.old (seen_made made.now)) }
    {
        if self.wanted <= self.page {
            self.is_cut = true;
            return Ok(());
        }
        self.turn();
        self.take(made)
    }

    // Takes a step for which the page has room.
    #[tactic(auto, using(crate::proofs::Sound::step_room, crate::proofs::Sound::call_room, crate::proofs::Sound::own_index))]
    fn take(&mut self, made: &StepMade) -> Result<(), AllocError>
        requires room { is_full self.old.rows (is_some made.now.view.enters) ≡ false }
        ensures { OnOk result (self.new ≡ taken self.old (seen_made made.now)) }
    {
        let step = next_step(self.page, self.first, self.rows.count);
        let word = word_at(&self.words, place_in(&made.view.op) as usize);
        let tail = tail_of(&word, made);
        let mut rows = self.rows;
        rows.take(&placing(&self.run, made, tail.is_some()));
        let lane = lane_drawn(&self.lanes, made, step, rows.y);
        self.draw(made, &lane, &tail, step, rows.y)?;
        self.note(made, &lane, step, &rows);
        Ok(())
    }

    // Where a step stands, at this height.
    fn moment(&self, made: &StepMade, step: u64, y: u16) -> Moment
        requires { self.now.decisions + 1 < 2 ^ 64 }
        ensures { result ≡ moment self.now (seen_made made.now) step y }
    {
        Moment {
            cores: self.cores,
            first: self.first,
            frame: frame_of(&self.frames, &made.view.word),
            y,
            step,
            number: decided(self.decisions, made),
        }
    }

    // Draws a step at this height, where the page is the one that is asked for.
    #[tactic(auto, using(crate::proofs::Sound::decision_room))]
    fn draw(
        &mut self,
        made: &StepMade,
        lane: &Lane,
        tail: &Option<Change>,
        step: u64,
        y: u16,
    ) -> Result<(), AllocError>
        requires rows { self.old.rows.count < 2000 }
        requires tail { tail.now ≡ tail_at self.old (seen_made made.now) }
        ensures { OnOk result (self.new ≡ record self.old { layers = layers_after self.old (seen_made made.now) lane.now step y }) }
    {
        if self.page != self.wanted {
            return Ok(());
        }
        let moment = self.moment(made, step, y);
        let run = self.run;
        let last = self.rows.y;
        leave_run(&mut self.sheet, &run, made, last)?;
        self.sheet.draw_step(&moment, made, lane, tail)?;
        self.sheet
            .draw_return(&moment, made.view.core.number(), &made.returns, lane)
    }

    // Notes a step, with the rows and its core's calls after it.
    #[tactic(auto, using(crate::proofs::Sound::noted_sound, crate::proofs::Sound::decision_room))]
    fn note(&mut self, made: &StepMade, lane: &Lane, step: u64, rows: &Rows)
        requires within { IsWithin rows.now }
        requires rows { rows.now.count ≡ self.old.rows.count + 1 }
        requires room { self.old.rows.count < 2000 }
        requires index { lane.now.index ≤ self.old.first + rows.now.count }
        ensures { self.new ≡ noted self.old (seen_made made.now) rows.now lane.now step }
    {
        let core = made.view.core;
        let change = Change {
            core,
            index: lane.index,
            step,
            y: rows.y,
        };
        self.decisions = decided(self.decisions, made);
        note_word(
            &mut self.words,
            place_in(&made.view.op) as usize,
            made.view.found != made.view.left,
            &change,
        );
        note_frame(&mut self.frames, &made.view.word, made.view.left);
        next_run(&mut self.run, made, rows.y);
        self.lanes[usize::from(core.number())] = left(lane, made, step);
        self.rows = *rows;
    }
}

// How many calls are decided, with a step more.
fn decided(decisions: u64, made: &StepMade) -> u64
    requires { decisions + 1 < 2 ^ 64 }
    ensures { result ≡ (if is_some made.now.decides then decisions + 1 else decisions) }
{
    if made.decides.is_some() {
        decisions + 1
    } else {
        decisions
    }
}

// A core's calls after its step.
fn left(lane: &Lane, made: &StepMade, step: u64) -> Lane
    ensures { result ≡ lane_returned made.now.returns step lane.now }
{
    let mut lane = *lane;
    lane.leave(&made.returns, step);
    lane
}
