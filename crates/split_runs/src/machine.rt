//! The machine for given orders, whose steps are asked one by one.

ghost use Rattle.std.specs.Prelude.{◌≡◌, length};
ghost use Rattle.lone_checks.specs.lone_kernel.specs.word_map.specs.Places.{size_of};

use crate::fault::Fault;
use lone_checks::lone_kernel::LoneKernel;
use lone_checks::{are_lists, are_out};
use spk_nums::{Call, CoreNo, Item, Reply, Setup};
use std::alloc::Global;
use step_views::{StepMade, StepView};
use world_parts::machine_image::image_of;
use world_parts::machine_image::word_map::Closed;
use world_parts::{Parts, parts_of};

/// What a core has done.
#[derive(Clone, Copy, Debug, PartialEq, Eq)]
pub struct Seat {
    /// How many calls it has begun since the scene was set.
    pub begun: u32,
    /// The call that it began last.
    pub call: Option<Call>,
}

// A core that has begun no call.
const NO_CALL: Seat = Seat {
    begun: 0,
    call: None,
};

/// The machine, and what each core has done since the scene was set.
#[derive(Drop)]
pub struct Machine {
    kernel: LoneKernel,
    seats: Vec<Seat>,
}

// The worlds of what the machine leaves.
fn parts_in(closed: &Closed) -> Parts
    requires words { length closed.now.words.items ≡ size_of closed.now.layout }
    requires ends { length closed.now.ends.items ≡ closed.now.layout.cores }
{
    parts_of(&image_of(closed))
}

impl Machine {
    /// The machine at its start.
    pub fn boot(alloc: Global, setup: &Setup, lists: Vec<Vec<Call>>) -> Result<Machine, Fault> {
        if !are_lists(&lists) || lists.len() != usize::from(setup.cores()) || setup.cores() != 2 {
            return Err(Fault::Script);
        }
        let kernel = LoneKernel::boot(alloc, setup, lists)?;
        let seats = vec![in alloc; NO_CALL; 2]?;
        Ok(Machine { kernel, seats })
    }

    // Takes an item of the order.
    fn take(&mut self, item: &Item) {
        if item.core.number() < self.kernel.setup().cores() {
            let _moved = self.kernel.go_on(item.core, item.how);
        }
    }

    /// Sets the scene: takes the items of the order, which are to carry out so many calls and leave no core in one.
    pub fn set_scene(&mut self, order: &[Item], calls: usize) -> Result<(), Fault> {
        for item in order {
            self.take(item);
        }
        for decision in self.kernel.decisions() {
            if !matches!(decision.reply, Reply::Ok(_)) {
                return Err(Fault::SceneRefused {
                    core: decision.core,
                    reply: decision.reply,
                });
            }
        }
        if self.kernel.decisions().len() != calls || !are_out(&self.kernel) {
            return Err(Fault::SceneOpen);
        }
        Ok(())
    }

    /// Whether a core is between calls and has made all of its list.
    pub fn is_finished(&self, core: CoreNo) -> bool {
        self.kernel.setup().cores() <= core.number() || self.kernel.is_finished(core)
    }

    /// What a core has done; nothing of a core that the machine does not have.
    pub fn seat(&self, core: CoreNo) -> Seat {
        match self.seats.get(usize::from(core.number())) {
            Some(seat) => *seat,
            None => NO_CALL,
        }
    }

    // A core begins a call.
    fn begin(&mut self, core: CoreNo, call: Call) {
        let at = usize::from(core.number());
        if at < self.seats.len() {
            self.seats[at] = Seat {
                begun: self.seats[at].begun.saturating_add(1),
                call: Some(call),
            };
        }
    }

    // Keeps the call that begins with a step, where one does.
    fn keep(&mut self, step: &StepView) {
        if let Some(call) = step.enters {
            self.begin(step.core, call);
        }
    }

    /// Makes one step of a core; none of one that is finished.
    pub fn step(&mut self, core: CoreNo) -> Option<StepMade> {
        if self.kernel.setup().cores() <= core.number() {
            return None;
        }
        let made = self.kernel.step_told(core)?;
        self.keep(&made.view);
        Some(made)
    }

    /// The worlds that the machine leaves. No core is in a call.
    pub fn close(self, alloc: Global) -> Result<Parts, Fault> {
        let Machine { kernel, seats: _ } = self;
        if !are_out(&kernel) {
            return Err(Fault::Unfinished);
        }
        let closed = kernel.close(alloc)?;
        Ok(parts_in(&closed))
    }
}
