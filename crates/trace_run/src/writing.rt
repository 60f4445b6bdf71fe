//! The lines of a trace, as a watcher of its steps.
ghost use Rattle.std.specs.Prelude.{◌≡◌, [], IfOk, string_bytes};
ghost use Rattle.trace_lines.specs.script_printer.specs.Printing.{setup_lines};
ghost use Rattle.trace_lines.specs.Traces.{told};

use spk_nums::Setup;
use std::alloc::{AllocError, Global};
use std::marker::Model;
use told_run::{StepMade, Watcher};
use trace_lines::TraceLines;

/// The lines of the steps that it was told, one after another.
#[derive(Drop)]
pub struct Writing {
    lines: TraceLines,
}

impl Model for Writing {
    ghost use Rattle.trace_lines.specs.Traces.{Told};

    ghost Value = { Told };

    ghost view = { λ w. w.lines };
}

impl Writing {
    /// Nothing but the head of a script of this version and setup. It fails only where memory runs out.
    pub fn begin(alloc: Global, version: u8, setup: &Setup) -> Result<Writing, AllocError>
        ensures { IfOk result (λ w. w ≡ told (setup_lines version setup.now) []) }
    {
        let lines = TraceLines::begin(alloc, version, setup)?;
        Ok(Writing { lines })
    }

    /// The text that is written.
    pub fn into_text(self) -> String
        ensures { string_bytes result ≡ self.lines }
    {
        let Writing { lines } = self;
        lines.into_text()
    }
}

impl Watcher for Writing {
    ghost use Rattle.trace_run.specs.Written.{has_written};

    ghost has_seen = { λ setup first t last. has_written first t last };

    fn tell(&mut self, made: &StepMade) -> Result<(), AllocError> {
        self.lines.tell(made)?;
        Ok(())
    }
}
