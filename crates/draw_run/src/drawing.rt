//! The picture of a page of a trace, as a watcher of its steps.
ghost use Rattle.std.specs.Prelude.{◌≡◌, IfOk, string_bytes};
ghost use Rattle.page_drawing.specs.Pages.{blank};
ghost use Rattle.page_drawing.specs.Pictures.{text_of};

use page_drawing::{StepMade, TracePage};
use spk_nums::Setup;
use std::alloc::{AllocError, Global};
use std::marker::Model;
use told_run::Watcher;

/// The page of the steps that it was told, one after another.
#[derive(Drop)]
pub struct Drawing {
    page: TracePage,
}

impl Model for Drawing {
    ghost use Rattle.page_drawing.specs.Pages.{Page};

    ghost Value = { Page };

    ghost view = { λ d. d.page };
}

impl Drawing {
    /// This page, of no step, in a machine of this setup. It fails only where memory runs out.
    pub fn begin(alloc: Global, page: u32, setup: &Setup) -> Result<Drawing, AllocError>
        ensures { IfOk result (λ d. d ≡ blank page setup.now) }
    {
        let page = TracePage::new(alloc, page, setup)?;
        Ok(Drawing { page })
    }

    /// The text of the picture. It fails only where memory runs out.
    pub fn into_text(self, alloc: Global) -> Result<String, AllocError>
        ensures { IfOk result (λ text. string_bytes text ≡ text_of self) }
    {
        let Drawing { page } = self;
        page.into_text(alloc)
    }
}

impl Watcher for Drawing {
    ghost use Rattle.draw_run.specs.Drawn.{has_drawn};

    ghost has_seen = { λ setup first t last. has_drawn setup first t last };

    fn tell(&mut self, made: &StepMade) -> Result<(), AllocError> {
        self.page.tell(made)?;
        Ok(())
    }
}
