//! The machine for given orders, with the plain kernel beside it.

ghost use Rattle.std.specs.Prelude.{◌≡◌, length};
ghost use Rattle.lone_checks.specs.lone_kernel.specs.word_map.specs.Places.{size_of};

use crate::fault::Fault;
use crate::judge::Judge;
use lone_checks::lone_kernel::LoneKernel;
use lone_checks::{are_lists, are_out};
use plain_tables::tables;
use run_outcomes::are_due;
use spk_nums::{Call, CoreNo, How, Item, Reply, Setup};
use std::alloc::Global;
use stop_causes::is_so;
use table_report::machine_image::image_of;
use table_report::report;
use table_report::word_map::Closed;

// No call makes so many steps.
const MOST_STEPS: u32 = 1000;

/// The machine for given orders, and the plain kernel, which is told each step that the machine makes.
#[derive(Drop)]
pub struct Machine {
    kernel: LoneKernel,
    judge: Judge,
}

// A copy of the lists.
fn copied(alloc: Global, lists: &[Vec<Call>]) -> Result<Vec<Vec<Call>>, Fault> {
    let mut copies = Vec::with_capacity(alloc, lists.len())?;
    for list in lists {
        copies.push(Vec::from_slice(alloc, list.as_slice())?)?;
    }
    Ok(copies)
}

// The machine's tables.
fn report_closed(alloc: Global, closed: &Closed) -> Result<String, Fault>
    requires words { length closed.now.words.items ≡ size_of closed.now.layout }
    requires ends { length closed.now.ends.items ≡ closed.now.layout.cores }
{
    Ok(report(alloc, &image_of(closed))?)
}

impl Machine {
    /// The machine at its start.
    pub fn boot(alloc: Global, setup: &Setup, lists: &[Vec<Call>]) -> Result<Machine, Fault> {
        let lists = copied(alloc, lists)?;
        if !are_lists(&lists) || lists.len() != usize::from(setup.cores()) {
            return Err(Fault::Script);
        }
        let kernel = LoneKernel::boot(alloc, setup, lists)?;
        let judge = Judge::start(alloc, setup)?;
        Ok(Machine { kernel, judge })
    }

    // Whether the machine says of each core how many steps of its call it has made.
    fn check_inside(&self) -> Result<(), Fault> {
        for number in 0..self.kernel.setup().cores() {
            let core = CoreNo::new(number);
            if !is_so(self.kernel.inside(core), &self.judge.progress(core)) {
                return Err(Fault::Elsewhere(core));
            }
        }
        Ok(())
    }

    /// Makes one step of a core, and tells the plain kernel. False comes exactly where the core has finished its list.
    pub fn step(&mut self, alloc: Global, core: CoreNo) -> Result<bool, Fault> {
        if self.kernel.setup().cores() <= core.number() {
            return Err(Fault::NoPair);
        }
        let Some(made) = self.kernel.step_told(core) else {
            return Ok(false);
        };
        self.judge.tell(alloc, &made)?;
        self.check_inside()?;
        Ok(true)
    }

    /// Whether a core is in a call.
    pub fn is_in_call(&self, core: CoreNo) -> bool {
        self.judge.seat(core).within.is_some()
    }

    /// The core and the reply of the last call that was not carried out, if one was not.
    pub fn refused(&self) -> Option<(CoreNo, Reply)> {
        self.judge.refused()
    }

    /// How many calls a core has begun.
    pub fn begun(&self, core: CoreNo) -> usize {
        self.judge.seat(core).begun
    }

    // Whether an item that takes the core this far is done once a step is made.
    fn is_there(&self, core: CoreNo, how: How) -> bool {
        self.kernel.setup().cores() <= core.number() || self.kernel.is_there(core, how)
    }

    // Whether it is done before it makes a step.
    fn is_done(&self, core: CoreNo, how: How) -> bool {
        self.kernel.setup().cores() <= core.number() || self.kernel.is_done(core, how)
    }

    /// Takes an item of an order.
    pub fn take(&mut self, alloc: Global, item: &Item) -> Result<(), Fault> {
        if self.is_done(item.core, item.how) {
            return Ok(());
        }
        for _ in 0..MOST_STEPS {
            if !self.step(alloc, item.core)? || self.is_there(item.core, item.how) {
                return Ok(());
            }
        }
        Err(Fault::TooLong(item.core))
    }

    /// Takes a core to the return of its call; one that is between calls begins its next one.
    pub fn to_return(&mut self, alloc: Global, core: CoreNo) -> Result<(), Fault> {
        self.take(
            alloc,
            &Item {
                core,
                how: How::Return,
            },
        )
    }

    /// Compares the tables that the machine leaves with those of the plain kernel. No core is in a call.
    pub fn close(self, alloc: Global) -> Result<(), Fault> {
        let Machine { kernel, judge } = self;
        if !are_out(&kernel) {
            return Err(Fault::Unfinished);
        }
        let closed = kernel.close(alloc)?;
        let found = report_closed(alloc, &closed)?;
        let due = tables(alloc, judge.plain())?;
        if are_due(found.as_bytes(), due.as_bytes()) {
            Ok(())
        } else {
            Err(Fault::OtherTables)
        }
    }
}
