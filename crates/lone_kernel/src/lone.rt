//! The machine for given orders: a vector of words, and the moves of the cores over it.
//!
//! A machine stands for a trace: its words, cores and decisions are those after the trace. It is made for the empty one,
//! and each move extends every trace for which it stood by steps of one core.
//!
//! **One step.** A core between calls begins the next call of its list. The core says on which word its next step is and
//! what the step does; the step is made on the vector; and the core takes what it found. Nothing else reads or writes
//! a word.
//!
//! **Decisions.** A step that decides a call notes the reply at once, so the decisions are in the order of the trace.
ghost use Rattle.std.specs.Prelude.{◌≡◌, ◌↔◌, false, IsSome, None, Some, [], ℕ, ◌+◌, ◌<◌, ◌≤◌, ◌^◌, IsTrue};
ghost use Rattle.std.specs.Prelude.{All, IfOk, IfSome, map, sum_by, length, slice_get, slice_index, vec_len, vec_capacity};
ghost use Rattle.spk_nums.specs.WordSteps.{place_in, left_by};
ghost use Rattle.step_views.specs.word_map.specs.Places.{size_of, place_of};
ghost use Rattle.boot_words.specs.kernel_history.specs.Trace.{Trace, state_after, steps_in_call};
ghost use Rattle.boot_words.specs.kernel_history.specs.FinalWords.{Represent, word_in, end_in};
ghost use Rattle.boot_words.specs.kernel_history.specs.Counts.{RepresentCounts};
ghost use Rattle.call_steps.specs.call_stages.specs.Fits.{IsCore, steps_left};
ghost use Rattle.boot_words.specs.kernel_history.specs.BootWords.{shape_of};
ghost use Rattle.call_steps.specs.call_stages.specs.Cores.{end_of};
ghost use Rattle.flight_laws.specs.core_invariant.specs.Events.{decided_in};
ghost use Rattle.spk_nums.specs.declared.steps.How.TheVariants.{One, Ready, Decide, Return};
ghost use Rattle.flight_laws.specs.flight.specs.Decided.{is_decided_in};
ghost use Rattle.lone_kernel.specs.Machine.{IsFitSeat, turn_of, begun_by, core_in, said_by, CanTake, MakesTurn, TakesTurn};
ghost use Rattle.lone_kernel.specs.Machine.{seat_after, words_after, place_next, decisions_in, due_in, IsFinished, IsInCall, HasDecided};
ghost use Rattle.lone_kernel.specs.Machine.{IsReady, IsThere, IsDone, list_at, seat_at, core_at, AreLists, AreFresh};
ghost use Rattle.lone_kernel.specs.Stands.{StandsFor};
ghost use Rattle.call_steps.specs.Stepping.{steps_made};
ghost use Rattle.lone_kernel.specs.Inside.{IsBelowBound};
ghost use Rattle.lone_kernel.specs.Moves.{MovesBy, StepsOnce, GoesBy, GoesFurther, calls_left};
ghost use Rattle.lone_kernel.specs.Shown.{IsNextView, ShowsNext, Steps, TellsBy};
ghost use Rattle.lone_kernel.specs.Machine.{enters_as, turn_at};
ghost use Rattle.lone_kernel.specs.Items.{placed, IsAt, TakesItem, is_over};
ghost use Rattle.spk_nums.specs.declared.calls.Call.{Call};
ghost use Rattle.lone_kernel.specs.declared.seats.Turn.{Turn};
ghost use Rattle.lone_kernel.specs.declared.seats.Turn.TheVariants.{Begins};
ghost use Rattle.lone_kernel.specs.Machine.{CanBegin};
ghost use Rattle.call_steps.specs.call_stages.specs.declared.stages.Absorbed.TheVariants.{Going};
ghost use Rattle.flight_laws.specs.core_invariant.specs.Events.{returned_in};
ghost use Rattle.step_views.specs.word_map.specs.Places.{IsIn};
ghost use Rattle.step_views.specs.word_map.specs.Moves.{op_of, word_of};
ghost use Rattle.call_steps.specs.call_stages.specs.Cores.{move_of};

use crate::notes::note;
use crate::seats::{Seat, Turn};
use crate::whole::make_call;
use crate::words::{perform, told};
use boot_words::boot_words;
use call_steps::{Absorbed, CoreState};
use spk_nums::{Call, CoreEnd, CoreNo, Decision, How, Memory, Reply, Setup, WordOp};
use std::alloc::{AllocError, Global};
use std::marker::{Brand, Model};
use step_views::word_map::{Closed, Layout};
use step_views::{StepMade, StepView, left_by, name_at, place_in};

/// What a move did.
#[derive(Clone, Copy, Debug, PartialEq, Eq)]
pub enum Moved {
    /// Nothing: the core is between calls and its list is finished.
    Idle,
    /// It took the core as far as it says.
    Went,
}

/// The machine: the words, each core's list of calls and where the core stands in it, and the decisions in order.
#[derive(Drop)]
pub struct LoneKernel {
    setup: Setup,
    layout: Layout,
    words: Vec<u64>,
    lists: Vec<Vec<Call>>,
    seats: Vec<Seat>,
    decisions: Vec<Decision>,
}

impl Model for LoneKernel {
    ghost use Rattle.std.specs.Prelude.{◌≡◌, ◌+◌, ◌≤◌, map, sum_by, vec_len, vec_capacity};
    ghost use Rattle.spk_nums.specs.Setting.{IsSetting};
    ghost use Rattle.boot_words.specs.kernel_history.specs.BootWords.{shape_of};
    ghost use Rattle.lone_kernel.specs.Machine.{Machine, IsFit};

    ghost Value = { Machine };

    ghost view = { λ k. record {
      setup = k.setup;
      words = k.words.items;
      lists = map (λ v. v.items) k.lists.items;
      seats = k.seats.items;
      decisions = k.decisions.items;
    } };

    ghost invariant = { λ k. IsFit (record {
      setup = k.setup;
      words = k.words.items;
      lists = map (λ v. v.items) k.lists.items;
      seats = k.seats.items;
      decisions = k.decisions.items;
    }) × (k.layout ≡ shape_of k.setup) × IsSetting k.setup
        × (vec_len k.decisions + sum_by (λ seat. seat.due) k.seats.items ≤ vec_capacity k.decisions) };
}

// A core's next turn: the next call of its list begins where there is none active.
fn turn(list: &Vec<Call>, seat: &Seat) -> Option<Turn>
    ensures { result ≡ turn_of list.now.items seat.now }
{
    if seat.state.in_call() {
        return Some(Turn::GoesOn);
    }
    match list.get(seat.begun) {
        None => None,
        Some(call) => Some(Turn::Begins { call: *call }),
    }
}

// The turn's call begins, where it is one that does.
fn begin(seat: &mut Seat, turn: &Turn)
    requires between { CanTake turn.now seat.old.state }
    requires few { seat.old.begun < 2 ^ 60 }
    ensures state { seat.new.state ≡ core_in seat.old.state turn.now }
    ensures begun { seat.new.begun ≡ begun_by turn.now seat.old.begun }
    ensures due { seat.new.due ≡ seat.old.due }
    ensures in_call { IsSome seat.new.state.active }
{
    if let Turn::Begins { call } = *turn {
        seat.state.begin(call);
        seat.begun += 1;
    }
}

// How many calls a step decides.
#[inline(always)]
fn decisions_in(absorbed: &Absorbed) -> usize
    ensures { result ≡ decisions_in absorbed.now }
{
    match absorbed {
        Absorbed::Decided(_) => 1,
        _ => 0,
    }
}

// What a step did, and what it found.
#[derive(Clone, Copy)]
struct Performed {
    op: WordOp,
    found: u64,
}

// The core makes its next step over the words, and what it tells is written where it said before that the call goes on.
#[inline(always)]
fn go(seat: &mut Seat, layout: &Layout, words: &mut Vec<u64>, absorbed: &mut Absorbed) -> Performed
    requires in_call { IsSome seat.old.state.active }
    requires machine { layout.now ≡ seat.old.state.own.layout }
    requires size { length words.old.items ≡ size_of layout.now }
    requires due { is_decided_in seat.old.state.active ≡ false → 0 < seat.old.due }
    requires going { absorbed.old ≡ Going }
    ensures goes { MakesTurn layout.now seat.old seat.new words.old.items words.new.items absorbed.new }
    ensures fits { IsCore seat.new.state }
    ensures fewer { steps_left seat.new.state < steps_left seat.old.state }
    ensures step { result.op ≡ op_of layout.now (move_of seat.old.state) }
    ensures below { place_in result.op < size_of layout.now }
    ensures found { result.found ≡ slice_index words.old.items (place_in result.op) }
{
    let op = seat.state.next_op(layout);
    let found = perform(words, &op);
    seat.state.absorb_to(told(&op, found), absorbed);
    seat.due -= decisions_in(absorbed);
    Performed { op, found }
}

// A step of a core, as it is seen, and what the core tells of it.
#[derive(Clone, Copy)]
struct Taken {
    view: StepView,
    told: Absorbed,
}

// The core takes its turn: the turn's call begins, where it is one that does, and the core makes its next step.
#[inline]
fn take(seat: &mut Seat, turn: &Turn, layout: &Layout, words: &mut Vec<u64>) -> Taken
    requires can { CanTake turn.now seat.old.state }
    requires few { seat.old.begun < 2 ^ 60 }
    requires machine { layout.now ≡ seat.old.state.own.layout }
    requires size { length words.old.items ≡ size_of layout.now }
    requires due { is_decided_in (core_in seat.old.state turn.now).active ≡ false → 0 < seat.old.due }
    ensures takes { TakesTurn layout.now seat.old turn.now seat.new words.old.items words.new.items result.told }
    ensures shows { IsCore seat.old.state → IsNextView layout.now seat.old turn.now words.old.items result.view }
    ensures fits { IsCore seat.new.state }
    ensures fewer { steps_left seat.new.state < steps_left (core_in seat.old.state turn.now) }
{
    let core = seat.state.core();
    let mut told = Absorbed::Going;
    begin(seat, turn);
    let Performed { op, found } = go(seat, layout, words, &mut told);
    let view = StepView {
        core,
        enters: entered(turn),
        op,
        word: name_at(layout, place_in(&op)),
        found,
        left: left_by(&op, found),
    };
    Taken { view, told }
}

// Whether an item that takes the core this far is done with a step that has told this and left the core so.
#[inline]
fn is_over(how: How, absorbed: &Absorbed, state: &CoreState) -> bool
    requires { absorbed.now ≡ Going → IsSome state.now.active }
    ensures { result ≡ is_over how absorbed.now state.now }
{
    match absorbed {
        Absorbed::Going => match how {
            How::One => true,
            How::Ready => state.is_ready(),
            How::Decide | How::Return => false,
        },
        Absorbed::Decided(_) => match how {
            How::One | How::Ready | How::Decide => true,
            How::Return => false,
        },
        Absorbed::Returned(_) => true,
    }
}

// The call of a list that an item makes whole: it begins at the turn, and is to return.
#[inline(always)]
fn whole_call<'a>(list: &'a Vec<Call>, seat: &Seat, turn: &Turn, how: How) -> Option<&'a Call>
    requires listed { (call : Call) → turn.now ≡ Begins call → slice_get list.now.items seat.now.begun ≡ Some call }
    ensures { IfSome result (λ call. (turn.now ≡ Begins call.now) × (how ≡ Return)) }
{
    match turn {
        Turn::Begins { .. } => match how {
            How::Return => list.get(seat.begun),
            _ => None,
        },
        Turn::GoesOn => None,
    }
}

// The core makes a whole call, which begins: its steps are an item that takes it to its return.
#[inline(always)]
fn take_call(
    seat: &mut Seat,
    call: &Call,
    words: &mut Vec<u64>,
    decisions: &mut Vec<Decision>,
    core: CoreNo,
)
    requires fits { IsCore seat.old.state }
    requires can { CanBegin call.now seat.old.state }
    requires few { seat.old.begun + 1 < 2 ^ 32 }
    requires size { length words.old.items ≡ size_of seat.old.state.own.layout }
    requires due { 0 < seat.old.due }
    requires room { vec_len decisions.old < vec_capacity decisions.old }
    ensures takes { (m : _) → IsAt m core (Begins call.now) seat.old words.old.items decisions.old.items
        → TakesItem Return m (placed m core seat.new words.new.items decisions.new.items) core }
    ensures room { vec_capacity decisions.old ≤ vec_capacity decisions.new }
{
    seat.begun += 1;
    seat.due -= 1;
    let index = seat.begun as u32;
    make_call::<Brand>(&mut seat.state, call, words, decisions, core, index);
}

// The core takes its turn, and makes further steps until it is there. It has one seat and one list of words for them all.
fn take_item(
    list: &Vec<Call>,
    seat: &mut Seat,
    turn: &Turn,
    layout: &Layout,
    words: &mut Vec<u64>,
    decisions: &mut Vec<Decision>,
    core: CoreNo,
    how: How,
)
    requires listed { (call : Call) → turn.now ≡ Begins call → slice_get list.now.items seat.old.begun ≡ Some call }
    requires fits { IsCore seat.old.state }
    requires can { CanTake turn.now seat.old.state }
    requires few { begun_by turn.now seat.old.begun < 2 ^ 32 }
    requires machine { layout.now ≡ seat.old.state.own.layout }
    requires size { length words.old.items ≡ size_of layout.now }
    requires due { due_in (core_in seat.old.state turn.now).active ≤ seat.old.due }
    requires room { vec_len decisions.old + due_in (core_in seat.old.state turn.now).active ≤ vec_capacity decisions.old }
    ensures takes { (m : _) → IsAt m core turn.now seat.old words.old.items decisions.old.items → (IsDone how m core → ⊥)
        → TakesItem how m (placed m core seat.new words.new.items decisions.new.items) core }
    ensures room { vec_capacity decisions.old ≤ vec_capacity decisions.new }
{
    if let Some(call) = whole_call(list, seat, turn, how) {
        return take_call(seat, call, words, decisions, core);
    }
    begin(seat, turn);
    'going: loop {
        let mut absorbed = Absorbed::Going;
        go(seat, layout, words, &mut absorbed);
        note(decisions, &absorbed, core, seat.begun as u32);
        if is_over(how, &absorbed, &seat.state) {
            return;
        }
    }
}

// The call that begins at a turn.
fn entered(turn: &Turn) -> Option<Call>
    ensures { result ≡ enters_as turn.now }
{
    match *turn {
        Turn::Begins { call } => Some(call),
        Turn::GoesOn => None,
    }
}

// The next step of a core at this turn. Where a call begins at it, it is the first step of that call, by a copy of the core.
fn op_at(seat: &Seat, turn: &Turn, layout: &Layout) -> WordOp
    requires can { CanTake turn.now seat.now.state }
    requires machine { layout.now ≡ seat.now.state.own.layout }
    ensures step { result ≡ op_of layout.now (move_of (core_in seat.now.state turn.now)) }
    ensures below { place_in result < size_of layout.now }
    ensures word { IsIn layout.now (word_of (move_of (core_in seat.now.state turn.now))) }
{
    match *turn {
        Turn::GoesOn => seat.state.next_op(layout),
        Turn::Begins { call } => {
            let mut state = seat.state;
            state.begin(call);
            state.next_op(layout)
        }
    }
}

// What the next step of a core at this turn is, over the words.
fn view_at(seat: &Seat, turn: &Turn, layout: &Layout, words: &[u64]) -> StepView
    requires can { CanTake turn.now seat.now.state }
    requires machine { layout.now ≡ seat.now.state.own.layout }
    requires size { length words.now ≡ size_of layout.now }
    ensures { IsNextView layout.now seat.now turn.now words.now result }
{
    let op = op_at(seat, turn, layout);
    let place = place_in(&op);
    let found = words[place as usize];
    StepView {
        core: seat.state.core(),
        enters: entered(turn),
        op,
        word: name_at(layout, place),
        found,
        left: left_by(&op, found),
    }
}

// The reply that a step decides, as told.
fn decided(told: &Absorbed) -> Option<Reply>
    ensures { result ≡ decided_in told.now }
{
    match *told {
        Absorbed::Decided(reply) => Some(reply),
        _ => None,
    }
}

// The reply with which a call returns, as told.
fn returned(told: &Absorbed) -> Option<Reply>
    ensures { result ≡ returned_in told.now }
{
    match *told {
        Absorbed::Returned(reply) => Some(reply),
        _ => None,
    }
}

// Each core at the start, with its list.
fn boot_seats(alloc: Global, setup: &Setup, lists: &[Vec<Call>]) -> Result<Vec<Seat>, AllocError>
    requires { length lists.now ≡ setup.now.cores }
    ensures { IfOk result (λ seats. AreFresh setup.now (map (λ v. v.items) lists.now) seats.items) }
{
    let cores = setup.cores();
    let mut seats = Vec::with_capacity(alloc, usize::from(cores))?;
    for core in 0..cores {
        seats.push(Seat {
            begun: 0,
            due: lists[usize::from(core)].len(),
            state: CoreState::start(CoreNo::new(core), setup),
        })?;
    }
    Ok(seats)
}

fn count_due(seats: &[Seat]) -> usize
    requires { sum_by (λ seat. seat.due) seats.now < 2 ^ 60 }
    ensures { result ≡ sum_by (λ seat. seat.due) seats.now }
{
    let mut due = 0;
    for seat in seats {
        due += seat.due;
    }
    due
}

// Where each core ends.
fn ends_of(alloc: Global, seats: &[Seat]) -> Result<Vec<CoreEnd>, AllocError>
    requires { All (λ seat. seat.state.active ≡ None) seats.now }
    ensures { IfOk result (λ ends. ends.items ≡ map (λ seat. end_of seat.state) seats.now) }
{
    let mut ends = Vec::with_capacity(alloc, seats.len())?;
    for seat in seats {
        ends.push(seat.state.end())?;
    }
    Ok(ends)
}

impl LoneKernel {
    /// The machine of this setup at the start, with a list of calls for each core, each of which is within its limits; a
    /// list has fewer than 2^32. All of the machine's memory is taken here, so that no move takes any; only want of it is
    /// refused.
    pub fn boot(alloc: Global, setup: &Setup, lists: Vec<Vec<Call>>) -> Result<LoneKernel, Memory>
        requires can_run { AreLists (map (λ v. v.items) lists.items) }
        requires one_each { length lists.items ≡ setup.now.cores }
        ensures setup { IfOk result (λ kernel. kernel.setup ≡ setup.now) }
        ensures lists { IfOk result (λ kernel. kernel.lists ≡ map (λ v. v.items) lists.items) }
        ensures stands { IfOk result (λ kernel. StandsFor kernel []) }
    {
        let Some(layout) = Layout::new(setup.cores(), setup.frames()) else {
            unreachable!()
        };
        let words = boot_words(alloc, setup)?;
        let seats = boot_seats(alloc, setup, &lists)?;
        let room = count_due(&seats);
        let decisions = Vec::with_capacity(alloc, room)?;
        Ok(LoneKernel {
            setup: *setup,
            layout,
            words,
            lists,
            seats,
            decisions,
        })
    }

    /// The words and where each core ended. No core is in a call; it fails only where memory runs out. They represent the state
    /// that each trace left for which the machine stood, and the count words the references to its frames.
    pub fn close(self, alloc: Global) -> Result<Closed, Memory>
        requires { (c : ℕ) → c < self.setup.cores → (core_at self c).active ≡ None }
        ensures layout { IfOk result (λ closed. closed.layout ≡ shape_of self.setup) }
        ensures size { IfOk result (λ closed. (length closed.words.items ≡ size_of (shape_of self.setup))
            × (length closed.ends.items ≡ self.setup.cores)) }
        ensures represent { IfOk result (λ closed. (t : Trace) → StandsFor self t
            → Represent (word_in (shape_of self.setup) closed.words.items) (end_in closed.ends.items) (state_after self.setup t)) }
        ensures counts { IfOk result (λ closed. (t : Trace) → StandsFor self t
            → RepresentCounts (word_in (shape_of self.setup) closed.words.items) (state_after self.setup t)) }
    {
        let ends = ends_of(alloc, &self.seats)?;
        Ok(Closed {
            layout: self.layout,
            words: self.words,
            ends,
        })
    }

    /// Makes one step of the core. A core between calls begins its next one; idle comes exactly where it is between
    /// calls and its list is finished.
    pub fn step(&mut self, core: CoreNo) -> Moved
        requires { core < self.old.setup.cores }
        ensures setup { self.new.setup ≡ self.old.setup }
        ensures lists { self.new.lists ≡ self.old.lists }
        ensures idle { (result ≡ Moved.Idle) ↔ IsFinished self.old core }
        ensures goes { MovesBy result One self.old self.new core }
    {
        self.go_on(core, How::One)
    }

    /// Goes on until the core's call is ready: its next step is the one at which an `ok` is decided, or it has decided. A
    /// call that is ready makes no step. A core between calls begins its next one; idle comes exactly where it is between
    /// calls and its list is finished.
    pub fn until_ready(&mut self, core: CoreNo) -> Moved
        requires { core < self.old.setup.cores }
        ensures setup { self.new.setup ≡ self.old.setup }
        ensures lists { self.new.lists ≡ self.old.lists }
        ensures idle { (result ≡ Moved.Idle) ↔ IsFinished self.old core }
        ensures goes { MovesBy result Ready self.old self.new core }
    {
        self.go_on(core, How::Ready)
    }

    /// Goes on until the core's call has decided. A call that has decided makes no step. A core between calls begins its
    /// next one; idle comes exactly where it is between calls and its list is finished.
    pub fn through_decision(&mut self, core: CoreNo) -> Moved
        requires { core < self.old.setup.cores }
        ensures setup { self.new.setup ≡ self.old.setup }
        ensures lists { self.new.lists ≡ self.old.lists }
        ensures idle { (result ≡ Moved.Idle) ↔ IsFinished self.old core }
        ensures goes { MovesBy result Decide self.old self.new core }
    {
        self.go_on(core, How::Decide)
    }

    /// Goes on until the core's call has returned. A core between calls begins its next one; idle comes exactly where it
    /// is between calls and its list is finished.
    pub fn to_return(&mut self, core: CoreNo) -> Moved
        requires { core < self.old.setup.cores }
        ensures setup { self.new.setup ≡ self.old.setup }
        ensures lists { self.new.lists ≡ self.old.lists }
        ensures idle { (result ≡ Moved.Idle) ↔ IsFinished self.old core }
        ensures goes { MovesBy result Return self.old self.new core }
        ensures fewer { (IsFinished self.old core → ⊥) → calls_left self.new core < calls_left self.old core }
    {
        self.go_on(core, How::Return)
    }

    /// Takes the core this far, as an item of an order does: the four moves are its cases.
    pub fn go_on(&mut self, core: CoreNo, how: How) -> Moved
        requires { core < self.old.setup.cores }
        ensures setup { self.new.setup ≡ self.old.setup }
        ensures lists { self.new.lists ≡ self.old.lists }
        ensures idle { (result ≡ Moved.Idle) ↔ IsFinished self.old core }
        ensures goes { MovesBy result how self.old self.new core }
        ensures fewer { how ≡ Return → (IsFinished self.old core → ⊥) → calls_left self.new core < calls_left self.old core }
    {
        let _setup = &self.setup;
        if self.is_finished(core) {
            return Moved::Idle;
        }
        if !self.is_done(core, how) {
            self.until(core, how);
        }
        Moved::Went
    }

    /// How many steps of its call the core has made: None exactly where it is between calls, else as many as the call has made in each
    /// trace for which the machine stands, which is fewer than the call's bound.
    pub fn inside(&self, core: CoreNo) -> Option<u32>
        requires { core < self.now.setup.cores }
        ensures none { (result ≡ None) ↔ ((core_at self.now core).active ≡ None) }
        ensures steps { IfSome result (λ k. (t : Trace) → StandsFor self.now t → k ≡ steps_in_call t core) }
        ensures below { IfSome result (IsBelowBound self.now.setup.cores (core_at self.now core).active) }
    {
        let _setup = &self.setup;
        self.steps_made(core)
    }

    /// Shows the step that the core would make next, and makes none: None exactly where it is between calls and its list is finished. A
    /// core between calls would begin its next one. In each trace for which the machine stands, the step is the machine's next of this
    /// core.
    pub fn next_step(&self, core: CoreNo) -> Option<StepView>
        requires { core < self.now.setup.cores }
        ensures none { (result ≡ None) ↔ IsFinished self.now core }
        ensures shows { IfSome result (ShowsNext self.now core) }
    {
        let at = usize::from(core.number());
        let seat = &self.seats[at];
        match turn(&self.lists[at], seat) {
            None => None,
            Some(turn) => Some(view_at(seat, &turn, &self.layout, &self.words)),
        }
    }

    /// Makes one step of the core, as `step` does, and tells it: None exactly where it is between calls and its list is finished, and
    /// then nothing is done. Each trace for which the machine stood goes on by the step that is told, with the reply that is decided at
    /// it and the one that returns with it.
    pub fn step_told(&mut self, core: CoreNo) -> Option<StepMade>
        requires { core < self.old.setup.cores }
        ensures setup { self.new.setup ≡ self.old.setup }
        ensures lists { self.new.lists ≡ self.old.lists }
        ensures none { (result ≡ None) ↔ IsFinished self.old core }
        ensures tells { TellsBy result self.old self.new core }
        ensures work { IfSome result (λ made. GoesFurther self.old self.new core) }
    {
        let _setup = &self.setup;
        if self.is_finished(core) {
            return None;
        }
        let Taken { view, told } = self.advance(core);
        Some(StepMade {
            view,
            decides: decided(&told),
            returns: returned(&told),
        })
    }

    // How many steps of its call the core has made, if it is in one.
    fn steps_made(&self, core: CoreNo) -> Option<u32>
        requires { core < self.now.setup.cores }
        ensures { result ≡ steps_made (core_at self.now core).active }
    {
        self.seats[usize::from(core.number())].state.steps_made()
    }

    // Makes steps of the core until it is there.
    fn until(&mut self, core: CoreNo, how: How)
        requires here { core < self.old.setup.cores }
        requires begins { IsFinished self.old core → ⊥ }
        requires undone { IsDone how self.old core → ⊥ }
        ensures setup { self.new.setup ≡ self.old.setup }
        ensures lists { self.new.lists ≡ self.old.lists }
        ensures goes { GoesBy how self.old self.new core }
        ensures fewer { how ≡ Return → calls_left self.new core < calls_left self.old core }
    {
        let at = usize::from(core.number());
        let Some(turn) = turn(&self.lists[at], &self.seats[at]) else {
            unreachable!()
        };
        take_item(
            &self.lists[at],
            &mut self.seats[at],
            &turn,
            &self.layout,
            &mut self.words,
            &mut self.decisions,
            core,
            how,
        );
    }

    // Makes one step of a core that has a turn, and answers how it is seen and what the core tells of it.
    #[inline]
    fn advance(&mut self, core: CoreNo) -> Taken
        requires here { core < self.old.setup.cores }
        requires begins { IsFinished self.old core → ⊥ }
        ensures setup { self.new.setup ≡ self.old.setup }
        ensures lists { self.new.lists ≡ self.old.lists }
        ensures goes { StepsOnce self.old self.new core }
        ensures work { GoesFurther self.old self.new core }
        ensures steps { (f : Turn) → turn_at self.old core ≡ Some f → Steps self.old self.new core f result.told }
        ensures shows { ShowsNext self.old core result.view }
    {
        let at = usize::from(core.number());
        let Some(turn) = turn(&self.lists[at], &self.seats[at]) else {
            unreachable!()
        };
        let taken = take(&mut self.seats[at], &turn, &self.layout, &mut self.words);
        let index = self.seats[at].begun as u32;
        note(&mut self.decisions, &taken.told, core, index);
        taken
    }

    /// Whether an item that takes the core this far is done once a step is made.
    pub fn is_there(&self, core: CoreNo, how: How) -> bool
        requires { core < self.now.setup.cores }
        ensures { IsTrue result ↔ IsThere how self.now core }
    {
        match how {
            How::One => true,
            How::Ready => self.is_ready(core),
            How::Decide => self.has_decided(core),
            How::Return => !self.is_in_call(core),
        }
    }

    /// Whether an item that takes the core this far is done before it makes a step.
    pub fn is_done(&self, core: CoreNo, how: How) -> bool
        requires { core < self.now.setup.cores }
        ensures { IsTrue result ↔ IsDone how self.now core }
    {
        match how {
            How::Ready => self.is_ready(core),
            How::Decide => self.has_decided(core),
            _ => false,
        }
    }

    // Whether the core has a active call.
    fn is_in_call(&self, core: CoreNo) -> bool
        requires { core < self.now.setup.cores }
        ensures { IsTrue result ↔ IsInCall self.now core }
    {
        self.seats[usize::from(core.number())].state.in_call()
    }

    // Whether the core's active call is decided: then it is not among those that are due.
    fn has_decided(&self, core: CoreNo) -> bool
        requires { core < self.now.setup.cores }
        ensures { IsTrue result ↔ HasDecided self.now core }
    {
        let at = usize::from(core.number());
        let seat = &self.seats[at];
        seat.state.in_call() && seat.due == self.lists[at].len() - seat.begun
    }

    /// Whether the core is between calls and its list is finished.
    pub fn is_finished(&self, core: CoreNo) -> bool
        requires { core < self.now.setup.cores }
        ensures { IsTrue result ↔ IsFinished self.now core }
    {
        let at = usize::from(core.number());
        turn(&self.lists[at], &self.seats[at]).is_none()
    }

    // Whether the core is ready: its next step is the one at which its call's `ok` is decided, or its call has decided.
    fn is_ready(&self, core: CoreNo) -> bool
        requires { core < self.now.setup.cores }
        ensures { IsTrue result ↔ IsReady self.now core }
    {
        let at = usize::from(core.number());
        let state = &self.seats[at].state;
        state.in_call() && state.is_ready()
    }

    /// The machine's setup.
    pub fn setup(&self) -> &Setup
        ensures { result.now ≡ self.now.setup }
    {
        &self.setup
    }

    /// Each core's list of calls.
    pub fn lists(&self) -> &[Vec<Call>]
        ensures { map (λ v. v.items) result.now ≡ self.now.lists }
    {
        &self.lists
    }

    /// The decisions, in the order decided.
    pub fn decisions(&self) -> &[Decision]
        ensures { result.now ≡ self.now.decisions }
    {
        &self.decisions
    }
}
