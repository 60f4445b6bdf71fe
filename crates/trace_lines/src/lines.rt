//! The lines of a trace.

ghost use Rattle.std.specs.Prelude.{◌≡◌, [], OnOk, IfOk, string_bytes};
ghost use Rattle.script_printer.specs.Printing.{setup_lines};
ghost use Rattle.trace_lines.specs.Steps.{enter_line, decide_line, return_line};
ghost use Rattle.trace_lines.specs.Traces.{line_ended, lines_told, step_told, told};
ghost use Rattle.trace_lines.specs.Views.{view_text, made_lines};

use crate::steps::push_step;
use line_texts::{push_call, push_one, push_reply};
use script_printer::push_setup;
use spk_nums::{Call, CoreNo, Reply, Setup};
use std::alloc::{AllocError, Global};
use std::marker::Model;
use step_views::StepMade;

/// What is written of a trace so far, and the steps that no line has told yet.
#[derive(Drop)]
pub struct TraceLines {
    lines: String,
    steps: String,
}

impl Model for TraceLines {
    ghost use Rattle.std.specs.Prelude.{string_bytes};
    ghost use Rattle.trace_lines.specs.Traces.{Told};

    ghost Value = { Told };

    ghost view = { λ w. record { lines = string_bytes w.lines; steps = string_bytes w.steps } };
}

impl TraceLines {
    /// Nothing but the head of a script of this version and setup. It fails only where memory runs out.
    pub fn begin(alloc: Global, version: u8, setup: &Setup) -> Result<TraceLines, AllocError>
        ensures { IfOk result (λ w. w ≡ told (setup_lines version setup.now) []) }
    {
        let mut lines = String::new(alloc);
        push_setup(&mut lines, version, setup)?;
        Ok(TraceLines {
            lines,
            steps: String::new(alloc),
        })
    }

    /// Tells a step that was made: where it has no event, it is kept for the next line; else there is a line for each event, the first
    /// of which tells the steps kept and this one. Where memory has run out a part of it may be written.
    pub fn tell(&mut self, made: &StepMade) -> Result<(), AllocError>
        ensures { OnOk result (self.new ≡ step_told self.old (view_text made.now.view) (made_lines made.now)) }
    {
        let view = &made.view;
        push_step(&mut self.steps, view)?;
        if view.enters.is_none() && made.decides.is_none() && made.returns.is_none() {
            return self.steps.push_str("; ");
        }
        self.enter(view.core, &view.enters)?;
        self.decide(view.core, &made.decides)?;
        self.leave(view.core, &made.returns)
    }

    /// The text that is written.
    pub fn into_text(self) -> String
        ensures { string_bytes result ≡ self.lines }
    {
        let TraceLines { lines, steps: _ } = self;
        lines
    }

    // Ends a line, which tells the steps that no line has told yet.
    fn end_line(&mut self) -> Result<(), AllocError>
        ensures { OnOk result (self.new ≡ line_ended self.old) }
    {
        if !self.steps.is_empty() {
            self.lines.push_str(" # ")?;
            self.lines.push_str(&self.steps)?;
            self.steps.clear();
        }
        self.lines.push('\n')
    }

    fn enter(&mut self, core: CoreNo, enters: &Option<Call>) -> Result<(), AllocError>
        ensures { OnOk result (self.new ≡ lines_told self.old (enter_line core enters.now)) }
    {
        let Some(call) = enters else {
            return Ok(());
        };
        push_one(&mut self.lines, "enter", u32::from(core.number()))?;
        self.lines.push(' ')?;
        push_call(&mut self.lines, call)?;
        self.end_line()
    }

    fn decide(&mut self, core: CoreNo, decides: &Option<Reply>) -> Result<(), AllocError>
        ensures { OnOk result (self.new ≡ lines_told self.old (decide_line core decides.now)) }
    {
        let Some(reply) = decides else {
            return Ok(());
        };
        push_one(&mut self.lines, "decide", u32::from(core.number()))?;
        self.lines.push(' ')?;
        push_reply(&mut self.lines, reply)?;
        self.end_line()
    }

    fn leave(&mut self, core: CoreNo, returns: &Option<Reply>) -> Result<(), AllocError>
        ensures { OnOk result (self.new ≡ lines_told self.old (return_line core returns.now)) }
    {
        if returns.is_none() {
            return Ok(());
        }
        push_one(&mut self.lines, "return", u32::from(core.number()))?;
        self.end_line()
    }
}
