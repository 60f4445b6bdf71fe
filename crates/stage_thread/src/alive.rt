//! Asking whether the component in which a core works lives.
//!
//! **Why it is asked.** What a core may name is named by the table of the component in which it works. A kill stops those inside: every
//! call but a few asks first whether the component lives, and one that finds it dead is refused. The component's word names its liveness
//! number and the epoch in which it was made; it lives where the number's word is live in that epoch.
//!
//! **When it is refused.** A number that a core is closing is busy; one that is free, dead, or live in another epoch is dead. A word that
//! is none of its place was raced.

ghost use Rattle.std.specs.Prelude.{◌≡◌, ◌<◌, ◌==◌, Some};
ghost use Rattle.word_map.specs.spk_nums.specs.WordSteps.{place_in};
ghost use Rattle.word_map.specs.Places.{size_of};
ghost use Rattle.word_map.specs.Moves.{op_of};
ghost use Rattle.stage_thread.specs.Living.{AliveFits, alive_move, number_end, lives_end, live_end, alive_end, comp_after, alive_after};
ghost use Rattle.stage_thread.specs.Living.{comp_end};

use frame_words::{CompWord, LiveWord};
use word_map::Layout;
use word_map::spk_nums::{EntryNo, FrameNo, Reply, StageEnd, WordOp};

/// The question whether a component lives, between two of its steps.
#[derive(Clone, Copy, PartialEq, Eq, Debug)]
pub enum Alive {
    /// Before the load of the component's word.
    AtComp { comp: FrameNo },
    /// Before the load of the word of the liveness number that it names, which is to be live in the component's epoch.
    AtLive { life: CompWord },
}

impl Alive {
    /// The question whether the component of a frame lives.
    #[inline]
    pub fn new(comp: FrameNo) -> Alive
        ensures { result ≡ Alive.AtComp comp }
    {
        Alive::AtComp { comp }
    }

    /// The next step, a load. The component is below the layout's frames.
    #[inline]
    pub fn next(&self, layout: &Layout) -> WordOp
        requires { AliveFits layout.now self.now }
        ensures step { result ≡ op_of layout.now (alive_move self.now) }
        ensures below { place_in result < size_of layout.now }
    {
        match *self {
            Alive::AtComp { comp } => WordOp::Load {
                at: layout.entry_at(comp, EntryNo::new(2)),
            },
            Alive::AtLive { life } => WordOp::Load {
                at: layout.live_at(life.number),
            },
        }
    }

    /// Takes the word that the step found. The second load is done where the number is live in the component's epoch; it is refused with
    /// `busy` where a core is closing the number, and else with `dead`. A word that is none of its place is refused with `raced`. The
    /// component is below the layout's frames, and what is named stays of the machine.
    #[inline]
    pub fn take(&mut self, layout: &Layout, found: u64) -> StageEnd<()>
        requires { AliveFits layout.now self.old }
        ensures end { result ≡ alive_end self.old found }
        ensures after { self.new ≡ alive_after self.old found }
        ensures fits { AliveFits layout.now self.new }
    {
        let took = self.took(found);
        *self = took.0;
        took.1
    }

    // Where the question stands after a step that finds this word, and what the step leads to.
    #[inline]
    fn took(self, found: u64) -> (Alive, StageEnd<()>)
        ensures after { result.0 ≡ alive_after self found }
        ensures end { result.1 ≡ alive_end self found }
    {
        match self {
            Alive::AtComp { comp } => {
                let shown = CompWord::unpack(found);
                (comp_after(comp, &shown), comp_end(&shown))
            }
            Alive::AtLive { life } => (
                Alive::AtLive { life },
                live_end(life.epoch, &LiveWord::unpack(found)),
            ),
        }
    }
}

// Where the question stands after a load that shows this component.
#[inline]
fn comp_after(comp: FrameNo, shown: &Option<CompWord>) -> Alive
    ensures { result ≡ comp_after comp shown.now }
{
    match shown {
        None => Alive::AtComp { comp },
        Some(life) => Alive::AtLive { life: *life },
    }
}

// What that load leads to.
#[inline]
fn comp_end(shown: &Option<CompWord>) -> StageEnd<()>
    ensures { result ≡ comp_end shown.now }
{
    match shown {
        None => StageEnd::Refuse(Reply::Raced),
        Some(_) => StageEnd::Going,
    }
}

// What the load of the number's word leads to, where it shows this.
#[inline]
fn live_end(epoch: u16, shown: &Option<LiveWord>) -> StageEnd<()>
    ensures { result ≡ live_end epoch shown.now }
{
    match shown {
        None => StageEnd::Refuse(Reply::Raced),
        Some(number) => number_end(epoch, number),
    }
}

// What it leads to where the word shows a number.
#[inline]
fn number_end(epoch: u16, number: &LiveWord) -> StageEnd<()>
    ensures { result ≡ number_end epoch number.now }
{
    match number {
        LiveWord::Free => StageEnd::Refuse(Reply::Dead),
        LiveWord::Live {
            epoch: now,
            frame: _,
        } => lives_end(*now == epoch),
        LiveWord::Closing { epoch: _, by } => StageEnd::Refuse(Reply::Busy(*by)),
        LiveWord::Dead { epoch: _, stamp: _ } => StageEnd::Refuse(Reply::Dead),
    }
}

// It is done where the component lives.
#[inline]
fn lives_end(lives: bool) -> StageEnd<()>
    ensures { result ≡ lives_end lives }
{
    if lives {
        StageEnd::Done(())
    } else {
        StageEnd::Refuse(Reply::Dead)
    }
}
