//! The end of a page: what each core adds to the layers.

ghost use Rattle.std.specs.Prelude.{◌≡◌, ◌+◌, ◌*◌, ◌<◌, ◌≤◌, ◌++◌, max, OnOk, IfOk, codes, string_bytes};
ghost use Rattle.page_layers.specs.Words.{letters, lane_words};
ghost use Rattle.page_layers.specs.Layers.{with_ground, with_open_bar, with_open, foot_y, in_progress, foot_line, with_foot, with_undecided, with_progress, with_core};

use crate::lanes::Lane;
use crate::sheet::{Sheet, larger};
use crate::words::push_lane_words;
use picture_shapes::{
    begin_aside, begin_line, end_span, end_text, push_core_names, push_lane, push_lower_teeth,
};
use std::alloc::AllocError;

// The height of a line below the page, after so many others.
fn foot_y(y: u16, feet: u8) -> u32
    ensures value { result ≡ foot_y y feet }
    ensures most { result < 100000 }
{
    u32::from(y) + 53 + 17 * u32::from(feet)
}

// Appends what stands after a call in progress.
fn push_in_progress(text: &mut String) -> Result<(), AllocError>
    ensures { OnOk result (string_bytes text.new ≡ string_bytes text.old ++ in_progress) }
{
    begin_aside(text)?;
    text.push_str("in progress")?;
    end_span(text)?;
    end_text(text)
}

// Appends the line of a call in progress, and says for how many letters it counts.
fn push_foot_line(
    text: &mut String,
    cores: u8,
    core: u8,
    lane: &Lane,
    y: u16,
    feet: u8,
) -> Result<u16, AllocError>
    ensures text { OnOk result (string_bytes text.new ≡ string_bytes text.old ++ foot_line cores core lane.now y feet) }
    ensures letters { IfOk result (λ n. n ≡ letters (lane_words core lane.now) + 13) }
{
    begin_line(text, cores, foot_y(y, feet))?;
    let call = push_lane_words(text, core, lane)?;
    push_in_progress(text)?;
    Ok(call + 13)
}

impl Sheet {
    fn draw_ground(&mut self, core: u8, y: u16) -> Result<(), AllocError>
        ensures { OnOk result (self.new ≡ with_ground core y self.old) }
    {
        push_lane(&mut self.grounds, core, y)?;
        push_core_names(&mut self.names, core, y)
    }

    fn draw_open(&mut self, core: u8, lane: &Lane, first: u64, y: u16) -> Result<(), AllocError>
        ensures { OnOk result (self.new ≡ with_open core lane.now lane.now.call first y self.old) }
    {
        if lane.call.is_none() {
            return Ok(());
        }
        self.draw_bar(core, lane, first, u32::from(y) + 14, None)?;
        push_lower_teeth(&mut self.teeth, core, y)
    }

    fn draw_foot(&mut self, cores: u8, core: u8, lane: &Lane, y: u16) -> Result<(), AllocError>
        requires { self.old.feet < 200 }
        ensures { OnOk result (self.new ≡ with_foot cores core lane.now y self.old) }
    {
        let letters = push_foot_line(&mut self.texts, cores, core, lane, y, self.feet)?;
        self.letters = larger(self.letters, letters);
        self.feet += 1;
        Ok(())
    }

    fn draw_undecided(&mut self, cores: u8, core: u8, lane: &Lane, y: u16) -> Result<(), AllocError>
        requires { self.old.feet < 200 }
        ensures { OnOk result (self.new ≡ with_undecided cores core lane.now lane.now.reply y self.old) }
    {
        if lane.reply.is_some() {
            return Ok(());
        }
        self.draw_foot(cores, core, lane, y)
    }

    fn draw_progress(&mut self, cores: u8, core: u8, lane: &Lane, y: u16) -> Result<(), AllocError>
        requires { self.old.feet < 200 }
        ensures { OnOk result (self.new ≡ with_progress cores core lane.now lane.now.call lane.now.reply y self.old) }
    {
        if lane.call.is_none() {
            return Ok(());
        }
        self.draw_undecided(cores, core, lane, y)
    }

    /// Finishes a core's lane at the end of a page, whose last step has this height: its lane and its names; the bar of the call in which
    /// it still is; that call's line, where it is not decided. So many steps lie before the page.
    pub fn finish_core(
        &mut self,
        cores: u8,
        core: u8,
        lane: &Lane,
        first: u64,
        y: u16,
    ) -> Result<(), AllocError>
        requires { self.old.feet < 200 }
        ensures value { OnOk result (self.new ≡ with_core cores core lane.now first y self.old) }
    {
        self.draw_ground(core, y)?;
        self.draw_open(core, lane, first, y)?;
        self.draw_progress(cores, core, lane, y)
    }
}
