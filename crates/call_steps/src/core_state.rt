//! The state of a core: what it has of its own, and its call.

ghost use Rattle.std.specs.Prelude.{◌≡◌, ◌<◌, ◌≤◌, None, IsSome, IsTrue, slice_get, ◌↔◌};
ghost use Rattle.spk_nums.specs.CallLimits.{InLimits};
ghost use Rattle.spk_nums.specs.WordSteps.{place_in};
ghost use Rattle.step_looks.specs.word_map.specs.Places.{size_of};
ghost use Rattle.step_looks.specs.word_map.specs.Moves.{op_of};
ghost use Rattle.step_looks.specs.kernel_rules.specs.Laws.{calls_counted};
ghost use Rattle.step_looks.specs.kernel_rules.specs.Start.{grant_pair};
ghost use Rattle.step_looks.specs.call_stages.specs.Cores.{started, end_of, begun, move_of, ready_of, absorbed, told_of_step};
ghost use Rattle.step_looks.specs.call_stages.specs.Fits.{IsCore, steps_left};
ghost use Rattle.call_steps.specs.Stepping.{steps_made};

use crate::steps::{absorb, is_ready, stage_op};
use spk_nums::{Call, CoreEnd, CoreNo, FrameNo, Reply, Setup, Stamp, Translations, WordOp};
use std::marker::Model;
use step_lands::act_states::Own;
use step_lands::act_states::call_plans::Caps;
use step_lands::act_states::stage_pins::AcquiredCounts;
use step_lands::act_states::word_map::Layout;
use step_lands::call_stages::{Absorbed, ActiveCall, Stage, Told};

/// A core of a machine: its call, if it is in one, and what it has of its own.
#[derive(Clone, Copy, PartialEq, Eq, Debug)]
pub struct CoreState {
    pub(crate) active: Option<ActiveCall>,
    pub(crate) own: Own,
}

impl Model for CoreState {
    ghost use Rattle.step_looks.specs.call_stages.specs.View.{Core};

    ghost Value = { Core };

    ghost use Rattle.step_looks.specs.call_stages.specs.Fits.{IsCore};

    ghost view = { λ s. record { own = s.own; active = s.active } };

    ghost invariant = { λ s. IsCore (record { own = s.own; active = s.active }) };

    ghost inverse = { λ c. record { active = c.active; own = c.own } };
}

impl CoreState {
    /// A core of a machine that has just booted: on its own thread and temporal capability, in no call. The core is
    /// below the setup's cores.
    pub fn start(core: CoreNo, setup: &Setup) -> CoreState
        requires { core < setup.now.cores }
        ensures state { result ≡ started core setup.now }
        ensures fits { IsCore result }
    {
        let cores = setup.cores();
        let number = u16::from(core.number());
        let Some(layout) = Layout::new(cores, setup.frames()) else {
            unreachable!()
        };
        CoreState {
            active: None,
            own: Own {
                core,
                layout,
                table: FrameNo::new(0),
                limit: setup.calls(),
                epochs: setup.epochs(),
                made: 0,
                exit: Stamp::new(0),
                thread: FrameNo::new(4 + number),
                depth: 1,
                comp: FrameNo::new(3),
                pages: FrameNo::new(2),
                tcap: FrameNo::new(4 + u16::from(cores) + number),
                owed: 0,
                spent: 0,
                back: 0,
                grant: granted_to(setup, number),
                cached: Translations::empty(),
            },
        }
    }

    /// Begins a call, which makes no step. The core is in no call, and the call is in its limits.
    pub fn begin(&mut self, call: Call)
        requires between { self.old.active ≡ None }
        requires limits { InLimits call }
        ensures state { self.new ≡ begun self.old call }
        ensures fits { IsCore self.new }
    {
        self.active = Some(ActiveCall {
            steps: 0,
            stage: Stage::Enter,
            found: Caps::none(),
            read: None,
            counts: AcquiredCounts::none(),
            call,
        });
    }

    /// The layout of the core's machine.
    #[inline]
    pub fn layout(&self) -> &Layout
        ensures { result.now ≡ self.now.own.layout }
    {
        &self.own.layout
    }

    /// The core's number.
    #[inline]
    pub fn core(&self) -> CoreNo
        ensures { result ≡ self.now.own.core }
    {
        self.own.core
    }

    /// How many calls the core has counted: those decided, but for those answered `calls-spent`.
    #[inline]
    pub fn made(&self) -> u64
        ensures { result ≡ self.now.own.made }
    {
        self.own.made
    }

    /// Whether the core is in a call.
    #[inline]
    pub fn in_call(&self) -> bool
        ensures { IsTrue result ↔ IsSome self.now.active }
    {
        self.active.is_some()
    }

    /// How many steps the core's call has made; None where the core is in no call.
    #[inline]
    pub fn steps_made(&self) -> Option<u32>
        ensures { result ≡ steps_made self.now.active }
    {
        match &self.active {
            None => None,
            Some(active) => Some(active.steps),
        }
    }

    /// The next step of the core's call. The layout is that of its machine.
    #[inline(always)]
    pub fn next_op(&self, layout: &Layout) -> WordOp
        requires in_call { IsSome self.now.active }
        requires machine { layout.now ≡ self.now.own.layout }
        ensures step { result ≡ op_of layout.now (move_of self.now) }
        ensures below { place_in result < size_of layout.now }
        ensures fits { IsCore self.now }
    {
        match &self.active {
            Some(active) => stage_op(&self.own, &active.counts, &active.stage, layout),
            None => unreachable!(),
        }
    }

    /// Whether the core's call is ready: its next step is the one that decides its `ok`, or it is decided.
    #[inline]
    pub fn is_ready(&self) -> bool
        requires { IsSome self.now.active }
        ensures { result ≡ ready_of self.now }
    {
        match &self.active {
            Some(active) => is_ready(active),
            None => unreachable!(),
        }
    }

    /// Takes the word that the step of the core's call found; after a store this is the word stored. Each step leaves
    /// fewer to come, and with those made they are within the call's bound, whatever words are found.
    #[inline]
    pub fn absorb(&mut self, found: u64) -> Absorbed
        requires { IsSome self.old.active }
        ensures told { result ≡ told_of_step self.old found }
        ensures state { self.new ≡ absorbed self.old found }
        ensures fewer { steps_left self.new < steps_left self.old }
        ensures fits { IsCore self.new }
    {
        let mut told = Absorbed::Going;
        self.absorb_to(found, &mut told);
        told
    }

    /// Takes the word that the step of the core's call found, as `absorb` does. What the step has told is written where it said before that
    /// the call goes on, so that most steps write none of it.
    #[inline(always)]
    pub fn absorb_to(&mut self, found: u64, told: &mut Absorbed)
        requires in_call { IsSome self.old.active }
        requires going { told.old ≡ Absorbed.Going }
        ensures told { told.new ≡ told_of_step self.old found }
        ensures state { self.new ≡ absorbed self.old found }
        ensures fewer { steps_left self.new < steps_left self.old }
        ensures fits { IsCore self.new }
    {
        let mut tells = Told::Going;
        match &mut self.active {
            Some(active) => absorb(active, &self.own, found, &mut tells),
            None => unreachable!(),
        }
        match tells {
            Told::Going => {}
            Told::Decided { reply } => {
                self.own.made += calls_counted(&reply);
                *told = Absorbed::Decided(reply);
            }
            Told::Returned { reply, stamp } => {
                self.own.exit = stamp;
                leave(&mut self.active);
                *told = Absorbed::Returned(reply);
            }
            Told::Changed { reply, change } => {
                self.own.change(&change);
                self.own.made += calls_counted(&reply);
                *told = Absorbed::Decided(reply);
            }
        }
    }

    /// What the end of a run tells of the core. It is in no call.
    pub fn end(&self) -> CoreEnd
        requires { self.now.active ≡ None }
        ensures { result ≡ end_of self.now }
    {
        CoreEnd {
            thread: self.own.thread,
            tcap: self.own.tcap,
            comp: self.own.comp,
            spent: self.own.spent,
            back: self.own.back,
            owed: self.own.owed,
            cached: self.own.cached,
        }
    }
}

// The scheduler and the number of a core's grant.
fn granted_to(setup: &Setup, core: u16) -> (u8, u32)
    ensures { result ≡ grant_pair (slice_get setup.now.grants core) }
{
    match setup.grants().get(usize::from(core)) {
        None => (0, 0),
        Some(grant) => (grant.sched, grant.quality),
    }
}

// The core is in no call. This stands apart from `absorb`, so that a step which does not return writes none of it.
#[inline(never)]
fn leave(active: &mut Option<ActiveCall>)
    ensures { active.new ≡ None }
{
    *active = None;
}

// How many calls a decision with this reply counts.
#[inline]
pub(crate) fn calls_counted(reply: &Reply) -> u64
    ensures value { result ≡ calls_counted reply.now }
    ensures most { result ≤ 1 }
{
    match reply {
        Reply::CallsSpent => 0,
        _ => 1,
    }
}
