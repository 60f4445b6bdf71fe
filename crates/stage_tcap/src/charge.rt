//! Charging ticks to a temporal capability.
//!
//! The head is loaded, and a compare puts the charged one in its place: with the ticks less, or with no budget where it has
//! fewer. So a charge is lost only where another core has changed the head in between: the budget, or the version, which each
//! change of the list raises.

ghost use Rattle.std.specs.Prelude.{◌≡◌, ◌<◌, ◌==◌, min};
ghost use Rattle.word_map.specs.spk_nums.specs.WordSteps.{place_in};
ghost use Rattle.word_map.specs.Places.{size_of};
ghost use Rattle.word_map.specs.Moves.{op_of};
ghost use Rattle.stage_tcap.specs.Charging.{ChargePacks, ChargeFits, charge_move, end_by_mark, head_end};
ghost use Rattle.stage_tcap.specs.Charging.{charged_end, charge_end, after_mark, after_head, charge_after};

use crate::heads::{debited, head, word_of};
use tcap_words::HeadWord;
use word_map::Layout;
use word_map::spk_nums::{CoreNo, EntryNo, FrameNo, Reply, StageEnd, Value, WordOp};

/// A charge of ticks to a temporal capability, between two of its steps.
#[derive(Clone, Copy, PartialEq, Eq, Debug)]
pub enum Charge {
    /// Before the load of the head.
    AtLoad {
        tcap: FrameNo,
        ticks: u64,
    },
    /// Before the compare of the head, which was found with this budget and this version.
    AtCompare {
        tcap: FrameNo,
        ticks: u64,
        budget: u32,
        version: u32,
    },
}

impl Charge {
    /// The charge of so many ticks, those that are owed among them.
    #[inline]
    pub fn new(tcap: FrameNo, ticks: u64) -> Charge
        ensures { result ≡ Charge.AtLoad tcap ticks }
    {
        Charge::AtLoad { tcap, ticks }
    }

    /// The next step: the load of the head, then its compare. The temporal capability is below the layout's frames.
    #[inline]
    pub fn next(&self, layout: &Layout) -> WordOp
        requires { ChargeFits layout.now self.now }
        ensures step { result ≡ op_of layout.now (charge_move self.now) }
        ensures below { place_in result < size_of layout.now }
    {
        match *self {
            Charge::AtLoad { tcap, ticks: _ } => WordOp::Load {
                at: layout.entry_at(tcap, EntryNo::new(0)),
            },
            Charge::AtCompare {
                tcap,
                ticks,
                budget,
                version,
            } => {
                let found = head(budget, version);
                WordOp::Compare {
                    at: layout.entry_at(tcap, EntryNo::new(0)),
                    expected: word_of(found),
                    word: word_of(debited(&found, charged(ticks, budget))),
                }
            }
        }
    }

    /// Takes the word that the step found. The load is refused with `busy` where a core has marked the head, and with
    /// `raced` where the word is that of no head; the compare is refused with `raced` where it finds another word than
    /// the load, and is else done with the ticks charged: those asked for, or the budget where that is less. The
    /// temporal capability is below the layout's frames, and stays so.
    #[inline]
    pub fn take(&mut self, layout: &Layout, found: u64) -> StageEnd<Value>
        requires { ChargeFits layout.now self.old }
        ensures end { result ≡ charge_end self.old found }
        ensures after { self.new ≡ charge_after self.old found }
        ensures fits { ChargeFits layout.now self.new }
    {
        let took = self.took(found);
        *self = took.0;
        took.1
    }

    // Where the charge stands after a step that finds this word, and what the step leads to.
    #[inline]
    fn took(self, found: u64) -> (Charge, StageEnd<Value>)
        requires { ChargePacks self }
        ensures after { result.0 ≡ charge_after self found }
        ensures end { result.1 ≡ charge_end self found }
    {
        match self {
            Charge::AtLoad { tcap, ticks } => {
                let shown = HeadWord::unpack(found);
                (after_head(tcap, ticks, &shown), head_end(&shown))
            }
            Charge::AtCompare {
                tcap,
                ticks,
                budget,
                version,
            } => {
                let same = found == word_of(head(budget, version));
                let after = Charge::AtCompare {
                    tcap,
                    ticks,
                    budget,
                    version,
                };
                (after, charged_end(same, charged(ticks, budget)))
            }
        }
    }
}

// The ticks charged: those asked for, or the budget where that is less.
#[inline]
fn charged(ticks: u64, budget: u32) -> u32
    ensures { result ≡ min ticks budget }
{
    if ticks < u64::from(budget) {
        ticks as u32
    } else {
        budget
    }
}

// A head that a core has marked is busy.
#[inline]
pub(crate) fn head_end(shown: &Option<HeadWord>) -> StageEnd<Value>
    ensures { result ≡ head_end shown.now }
{
    match shown {
        None => StageEnd::Refuse(Reply::Raced),
        Some(head) => end_by_mark(head.mark),
    }
}

// What a head leads to that has this mark.
#[inline]
fn end_by_mark(mark: Option<CoreNo>) -> StageEnd<Value>
    ensures { result ≡ end_by_mark mark }
{
    match mark {
        None => StageEnd::Going,
        Some(by) => StageEnd::Refuse(Reply::Busy(by)),
    }
}

// Where the charge stands after a load of this head.
#[inline]
fn after_head(tcap: FrameNo, ticks: u64, shown: &Option<HeadWord>) -> Charge
    ensures { result ≡ after_head tcap ticks shown.now }
{
    match shown {
        None => Charge::AtLoad { tcap, ticks },
        Some(head) => after_mark(tcap, ticks, head),
    }
}

// Where the charge stands after a load of this head.
#[inline]
fn after_mark(tcap: FrameNo, ticks: u64, head: &HeadWord) -> Charge
    ensures { result ≡ after_mark tcap ticks head.now.budget head.now.version head.now.mark }
{
    match head.mark {
        None => Charge::AtCompare {
            tcap,
            ticks,
            budget: head.budget,
            version: head.version,
        },
        Some(_) => Charge::AtLoad { tcap, ticks },
    }
}

// What the compare leads to, where it did or did not find the head.
#[inline]
fn charged_end(same: bool, charged: u32) -> StageEnd<Value>
    ensures { result ≡ charged_end same charged }
{
    if same {
        StageEnd::Done(Value::Amount(charged))
    } else {
        StageEnd::Refuse(Reply::Raced)
    }
}
