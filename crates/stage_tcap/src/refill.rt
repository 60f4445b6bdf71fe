//! Giving ticks back to a temporal capability.
//!
//! The head is loaded, then the list's eight words; a compare puts the head with the ticks in place of the one found. Each change of the
//! list raises the version in the head, so where the compare finds the head the same, the list has stood unchanged since its load.
//!
//! **Refusals.** A list that is better than the core's grant is refused at a second load of the head that finds it the same: a list that
//! another core is storing may be read in part. A core that has fewer ticks to have back is told so at the load of the list's last word:
//! how many it has is the core's own number.

ghost use Rattle.std.specs.Prelude.{◌≡◌, ◌<◌, ◌≤◌, nat_lt, Some, []};
ghost use Rattle.word_map.specs.spk_nums.specs.Merging.{covers};
ghost use Rattle.word_map.specs.spk_nums.specs.WordSteps.{place_in};
ghost use Rattle.word_map.specs.Places.{size_of};
ghost use Rattle.word_map.specs.Moves.{op_of};
ghost use Rattle.stage_tcap.specs.Heads.{head, VersionFits};
ghost use Rattle.stage_tcap.specs.Lists.{in_order};
ghost use Rattle.stage_tcap.specs.Refilling.{RefillFits, RefillAtFits, refill_move, refill_noted, refill_end, refill_after};
ghost use Rattle.stage_tcap.specs.Refilling.{refill_at_after, refill_end_at, from_head, next_in, at_word, won, again};

use crate::charge::head_end;
use crate::heads::{credited, head, word_of};
use crate::lists::{add_word, in_order};
use tcap_words::{HeadWord, QualityWord};
use word_map::Layout;
use word_map::spk_nums::{EntryNo, FrameNo, Qualities, Reply, StageEnd, Value, WordOp};

/// Where the giving back stands, between two of its steps.
#[derive(Clone, Copy, PartialEq, Eq, Debug)]
pub enum RefillAt {
    /// Before the load of the head.
    Load,
    /// Before the load of this word of the list, 1 to 8.
    List { entry: EntryNo },
    /// Before the compare of the head, which gives the ticks.
    Compare,
    /// Before the second load of the head, which refuses the list where it finds the head the same.
    Again,
}

/// The giving back of ticks to a temporal capability, between two of its steps.
#[derive(Clone, Copy, PartialEq, Eq, Debug)]
pub struct Refill {
    /// The temporal capability.
    pub tcap: FrameNo,
    /// The ticks that are given back.
    pub ticks: u32,
    /// The ticks that the core has spent and has not had back.
    pub left: u32,
    /// The scheduler and the number of the core's grant.
    pub grant: (u8, u32),
    /// The head as it was found.
    pub head: HeadWord,
    /// The list as far as it is read; None once it is out of order.
    pub list: Option<Qualities>,
    /// Where it stands.
    pub at: RefillAt,
}

impl Refill {
    /// So many ticks are given back to a temporal capability, by a core that has so many left to have back, with this grant.
    pub fn new(tcap: FrameNo, ticks: u32, left: u32, grant: (u8, u32)) -> Refill
        ensures { result ≡ record {
          tcap = tcap;
          ticks = ticks;
          left = left;
          grant = grant;
          head = head 0 0;
          list = Some [];
          at = RefillAt.Load;
        } }
    {
        Refill {
            tcap,
            ticks,
            left,
            grant,
            head: head(0, 0),
            list: Some(Qualities::empty()),
            at: RefillAt::Load,
        }
    }

    /// The next step. The temporal capability is below the layout's frames.
    pub fn next(&self, layout: &Layout) -> WordOp
        requires { RefillFits layout.now self.now }
        ensures step { result ≡ op_of layout.now (refill_move self.now) }
        ensures below { place_in result < size_of layout.now }
    {
        match self.at {
            RefillAt::Load => WordOp::Load {
                at: layout.entry_at(self.tcap, EntryNo::new(0)),
            },
            RefillAt::List { entry } => WordOp::Load {
                at: layout.entry_at(self.tcap, entry),
            },
            RefillAt::Compare => WordOp::Compare {
                at: layout.entry_at(self.tcap, EntryNo::new(0)),
                expected: word_of(self.head),
                word: word_of(credited(&self.head, self.ticks)),
            },
            RefillAt::Again => WordOp::Load {
                at: layout.entry_at(self.tcap, EntryNo::new(0)),
            },
        }
    }

    /// Takes the word that the step found. The first load is refused with `busy` where a core has marked the head, and a word that is none
    /// of its place with `raced`. Behind the list's last word a core with fewer ticks left is refused with `short`, unless the list is to
    /// be refused. A head that is found another is refused with `raced`; the second load is else refused with `unlike`, and the compare
    /// is done. The temporal capability is below the layout's frames, and stays so.
    pub fn take(&mut self, _layout: &Layout, found: u64) -> StageEnd<Value>
        requires { RefillFits _layout.now self.old }
        ensures end { result ≡ refill_end self.old found }
        ensures after { self.new ≡ refill_after self.old found }
        ensures fits { RefillFits _layout.now self.new }
    {
        self.note(found);
        let end = self.end(found);
        self.at = self.after(found);
        end
    }
}

impl Refill {
    // Keeps what a step tells that finds this word.
    fn note(&mut self, found: u64)
        ensures { self.new ≡ refill_noted self.old found }
    {
        match self.at {
            RefillAt::Load => {
                if let Some(shown) = HeadWord::unpack(found) {
                    self.head = head(shown.budget, shown.version);
                }
            }
            RefillAt::List { entry: _ } => add_word(&mut self.list, QualityWord::unpack(found)),
            RefillAt::Compare | RefillAt::Again => {}
        }
    }

    // Whether the list, as it is read, names the grant's scheduler with a number that is no smaller.
    fn is_covered(&self) -> bool
        ensures { result ≡ covers (in_order self.now.list) self.now.grant }
    {
        in_order(&self.list).covers(self.grant)
    }

    // What a step leads to that finds this word, once what it tells is kept.
    fn end(&self, found: u64) -> StageEnd<Value>
        requires { VersionFits self.now.head }
        ensures { result ≡ refill_end_at self.now self.now.at found }
    {
        match self.at {
            RefillAt::Load => head_end(&HeadWord::unpack(found)),
            RefillAt::List { entry } => match QualityWord::unpack(found) {
                None => StageEnd::Refuse(Reply::Raced),
                Some(_) => self.end_in(entry.number() < 8),
            },
            RefillAt::Compare => won(found == word_of(self.head)),
            RefillAt::Again => again(found == word_of(self.head)),
        }
    }

    // What the load of a word of the list leads to: behind the last one the core is told where it has too few ticks left, unless the
    // list is to be refused.
    fn end_in(&self, more: bool) -> StageEnd<Value>
        ensures { result ≡ at_word more self.now }
    {
        if !more && self.is_covered() && self.left < self.ticks {
            StageEnd::Refuse(Reply::Short(self.left))
        } else {
            StageEnd::Going
        }
    }

    // Where it stands after a step that finds this word, once what it tells is kept.
    fn after(&self, found: u64) -> RefillAt
        requires { RefillAtFits self.now.at }
        ensures { result ≡ refill_at_after self.now self.now.at found }
    {
        match self.at {
            RefillAt::Load => after_load(&HeadWord::unpack(found)),
            RefillAt::List { entry } => match QualityWord::unpack(found) {
                None => RefillAt::List { entry },
                Some(_) => self.next_in(entry),
            },
            RefillAt::Compare => RefillAt::Compare,
            RefillAt::Again => RefillAt::Again,
        }
    }

    // After a word of the list the next one is loaded, and after the last the list is weighed.
    fn next_in(&self, entry: EntryNo) -> RefillAt
        requires { entry ≤ 8 }
        ensures { result ≡ next_in (nat_lt entry 8) entry self.now }
    {
        if entry.number() < 8 {
            RefillAt::List {
                entry: EntryNo::new(entry.number() + 1),
            }
        } else if self.is_covered() {
            RefillAt::Compare
        } else {
            RefillAt::Again
        }
    }
}

// Where it stands after the load of the head.
fn after_load(shown: &Option<HeadWord>) -> RefillAt
    ensures { result ≡ from_head shown.now }
{
    match shown {
        None => RefillAt::Load,
        Some(head) => match head.mark {
            None => RefillAt::List {
                entry: EntryNo::new(1),
            },
            Some(_) => RefillAt::Load,
        },
    }
}

// What the compare leads to, where it did or did not find the head.
fn won(same: bool) -> StageEnd<Value>
    ensures { result ≡ won same }
{
    if same {
        StageEnd::Done(Value::Nothing)
    } else {
        StageEnd::Refuse(Reply::Raced)
    }
}

// What the second load of the head leads to, where it did or did not find it the same.
fn again(same: bool) -> StageEnd<Value>
    ensures { result ≡ again same }
{
    if same {
        StageEnd::Refuse(Reply::Unlike)
    } else {
        StageEnd::Refuse(Reply::Raced)
    }
}
