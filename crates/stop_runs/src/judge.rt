//! The plain kernel, told the events of a trace in their order: that a call begins, its decision, and its return. Of each decision it
//! is asked whether the definitions permit the reply, by the wide reach: any refusal whose own cause stands.

use crate::causes::Causes;
use crate::fault::Fault;
use call_judge::decide_by;
use call_plans::bound;
use seq_state::SeqKernel;
use spk_nums::{Call, CoreNo, Memory, Reply, Setup, in_limits};
use std::alloc::Global;
use step_views::{StepMade, StepView};
use stop_causes::{CallAt, Progress};

/// A call that a core is in.
#[derive(Clone, Copy, Debug, PartialEq, Eq)]
pub struct Within {
    /// The call.
    pub call: Call,
    /// The reply that was decided, if one was.
    pub reply: Option<Reply>,
    /// How many steps it has made.
    pub made: u32,
    /// The most steps that it may make.
    pub bound: u32,
}

/// What a core has done.
#[derive(Clone, Copy, Debug, PartialEq, Eq)]
pub struct Seat {
    /// How many calls it has begun.
    pub begun: usize,
    /// The call that it is in, if it is in one.
    pub within: Option<Within>,
}

/// The plain kernel, what each core has done and what it left in the words, and the last call that was not carried out, if one was not.
#[derive(Drop)]
pub struct Judge {
    plain: SeqKernel,
    seats: Vec<Seat>,
    causes: Causes,
    refused: Option<(CoreNo, Reply)>,
}

// Tells the kernel that a core begins a call; one that the machine does not have begins none.
fn enter(plain: &mut SeqKernel, core: CoreNo) {
    if core.number() < plain.cores() {
        plain.enter(core);
    }
}

// Tells the kernel that a core returns from its call.
fn leave(plain: &mut SeqKernel, core: CoreNo) {
    if core.number() < plain.cores() {
        plain.leave(core);
    }
}

// Decides a core's call with this reply, where the definitions permit it.
fn decide(
    alloc: Global,
    plain: &mut SeqKernel,
    core: CoreNo,
    call: &Call,
    reply: &Reply,
) -> Result<bool, Memory> {
    if core.number() < plain.cores() && in_limits(call) {
        return decide_by(alloc, plain, core, call, reply);
    }
    Ok(false)
}

// Whether a call with this reply was carried out.
fn is_ok(reply: &Reply) -> bool {
    matches!(*reply, Reply::Ok(_))
}

/// The most steps of a call on so many cores.
pub fn most_steps(call: &Call, cores: u8) -> u32 {
    if cores <= 8 { bound(call, cores) } else { 0 }
}

impl Judge {
    /// The plain kernel at the start of this machine, with all its cores between calls.
    pub fn start(alloc: Global, setup: &Setup) -> Result<Judge, Memory> {
        let plain = SeqKernel::start(alloc, setup)?;
        let seat = Seat {
            begun: 0,
            within: None,
        };
        let seats = vec![in alloc; seat; usize::from(setup.cores())]?;
        Ok(Judge {
            plain,
            seats,
            causes: Causes::none(alloc),
            refused: None,
        })
    }

    /// What a core has done; nothing of a core that the machine does not have.
    pub fn seat(&self, core: CoreNo) -> Seat {
        match self.seats.get(usize::from(core.number())) {
            Some(seat) => *seat,
            None => Seat {
                begun: 0,
                within: None,
            },
        }
    }

    /// The core and the reply of the last call that was not carried out, if one was not.
    pub fn refused(&self) -> Option<(CoreNo, Reply)> {
        self.refused
    }

    /// The plain kernel.
    pub fn plain(&self) -> &SeqKernel {
        &self.plain
    }

    fn set_seat(&mut self, core: CoreNo, seat: Seat) {
        let at = usize::from(core.number());
        if at < self.seats.len() {
            self.seats[at] = seat;
        }
    }

    // A core begins a call.
    fn begin(&mut self, core: CoreNo, call: Call) -> Result<(), Fault> {
        let seat = self.seat(core);
        if seat.within.is_some() {
            return Err(Fault::Astray(core));
        }
        let within = Within {
            call,
            reply: None,
            made: 0,
            bound: most_steps(&call, self.plain.cores()),
        };
        let begun = seat.begun.saturating_add(1);
        self.set_seat(
            core,
            Seat {
                begun,
                within: Some(within),
            },
        );
        enter(&mut self.plain, core);
        Ok(())
    }

    /// How far the core is in its call, if it is in one.
    pub fn progress(&self, core: CoreNo) -> Option<Progress> {
        match self.seat(core).within {
            Some(Within { made, bound, .. }) => Some(Progress { made, bound }),
            None => None,
        }
    }

    // The call that a core has begun last.
    fn call_of(&self, core: CoreNo) -> CallAt {
        CallAt {
            core,
            number: self.seat(core).begun,
        }
    }

    // A reply that lays the refusal on other cores does so by what they have done.
    fn check_cause(&self, step: &StepView, reply: &Reply) -> Result<(), Fault> {
        let core = step.core;
        match reply {
            Reply::Raced => {
                if !self.causes.has_lost(&self.call_of(core), step) {
                    return Err(Fault::NoRace(core));
                }
            }
            Reply::Busy(by) => {
                let other = *by != core && self.seat(*by).within.is_some();
                if !other || !self.causes.holds(&self.call_of(*by), step) {
                    return Err(Fault::NotHeld(core));
                }
            }
            _ => {}
        }
        Ok(())
    }

    // A core's call makes a step, and is decided at it where a reply is told.
    fn go_on(&mut self, alloc: Global, within: Within, step: &StepMade) -> Result<Within, Fault> {
        let core = step.view.core;
        let made = within.made.saturating_add(1);
        let Some(reply) = step.decides else {
            return Ok(Within { made, ..within });
        };
        if within.reply.is_some() {
            return Err(Fault::OtherReply(core));
        }
        self.check_cause(&step.view, &reply)?;
        if !decide(alloc, &mut self.plain, core, &within.call, &reply)? {
            return Err(Fault::Forbidden { core, reply });
        }
        if !is_ok(&reply) {
            self.refused = Some((core, reply));
        }
        Ok(Within {
            made,
            reply: Some(reply),
            ..within
        })
    }

    /// Is told the next step of the trace: which call begins with it, which is decided at it and which returns with it.
    pub fn tell(&mut self, alloc: Global, step: &StepMade) -> Result<(), Fault> {
        let core = step.view.core;
        if let Some(call) = step.view.enters {
            self.begin(core, call)?;
        }
        let Seat { begun, within } = self.seat(core);
        let Some(within) = within else {
            return Err(Fault::Astray(core));
        };
        let within = self.go_on(alloc, within, step)?;
        let call = self.call_of(core);
        self.causes.keep(call, &step.view)?;
        if within.bound < within.made {
            return Err(Fault::TooLong(core));
        }
        if step.returns.is_none() {
            self.set_seat(
                core,
                Seat {
                    begun,
                    within: Some(within),
                },
            );
            return Ok(());
        }
        if step.returns != within.reply {
            return Err(Fault::OtherReply(core));
        }
        self.set_seat(
            core,
            Seat {
                begun,
                within: None,
            },
        );
        leave(&mut self.plain, core);
        Ok(())
    }
}
