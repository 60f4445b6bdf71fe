//! A call on two temporal capabilities, A and B.
//!
//! **One moment.** Such a call must see both budgets and both lists as they stood at one moment. It marks head A, by which no
//! other core changes A or its list; then it loads A's list, head B and B's list. Each change of B's list raises the version
//! in head B, and the budget stands there too. So where head B is found the same again at the deciding step, B's list has
//! stood unchanged since head B was loaded. A change of the budget alone leaves the version as it is.
//!
//! **Deciding.** A transfer is decided where it compares head B to the one with the ticks; a delegation where it marks head
//! B, after which it stores the merged list, head B and head A; a test where it loads head B a second time. Lists that
//! differ, and a merged list with no room, are refused at such a second load. A budget of A that is too small is told at
//! the compare that marks head A. None of B's words is stored before the deciding step.
//!
//! **Giving back.** Once head A is marked, a refusal decides the call, and head A is stored as it was.

ghost use Rattle.std.specs.Prelude.{◌≡◌, ◌<◌, ◌≤◌, ◌+◌, ◌==◌, ◌&&◌, nat_lt, false, [], Some, IsTrue, IsFalse};
ghost use Rattle.word_map.specs.spk_nums.specs.declared.steps.StageEnd.TheVariants.{Going};
ghost use Rattle.word_map.specs.spk_nums.specs.WordSteps.{place_in};
ghost use Rattle.word_map.specs.spk_nums.specs.Merging.{preempts_by};
ghost use Rattle.tcap_words.specs.Head.{word_of_head, head_of_word};
ghost use Rattle.tcap_words.specs.Quality.{quality_of_word};
ghost use Rattle.word_map.specs.Places.{size_of};
ghost use Rattle.word_map.specs.Word.{EntryAt};
ghost use Rattle.word_map.specs.Moves.{LoadOf, op_of};
ghost use Rattle.stage_tcap.specs.Heads.{head, relisted, credited, VersionFits};
ghost use Rattle.stage_tcap.specs.Lists.{in_order};
ghost use Rattle.stage_tcap.specs.Pairs.{AtFits, PairFits, amount_of, next_b, left_a, move_at, pair_move, noted};
ghost use Rattle.stage_tcap.specs.Pairs.{whole_b, grows_to};
ghost use Rattle.stage_tcap.specs.Pairs.{noted_by, giving_back, by_alike, by_room, by_preempting, judged, at_by_mark};
ghost use Rattle.stage_tcap.specs.Pairs.{at_by_head, at_by_budget, at_marked, at_read, a_next, b_next, store_next};
ghost use Rattle.stage_tcap.specs.Pairs.{at_decided, compared_after, again_value, at_after, pair_after, end_at, pair_end};
ghost use Rattle.stage_tcap.specs.Pairs.{has_no_pair, is_passed};

use crate::charge::head_end;
use crate::ends::{again_end, again_value, b_end, list_end, marked_end};
use crate::heads::{credited, debited, head, marked, relisted, word_of};
use crate::lists::{add_word, in_order, merge_of, same_list, word_at};
use preempt_test::preempts;
use tcap_words::{HeadWord, QualityWord};
use word_map::Layout;
use word_map::spk_nums::{CoreNo, EntryNo, FrameNo, Qualities, Reply, StageEnd, Value, WordOp};

/// What a call does with two temporal capabilities.
#[derive(Clone, Copy, PartialEq, Eq, Debug)]
pub enum PairWork {
    /// Moves so many ticks from A to B, which have equal lists.
    Transfer(u32),
    /// Moves so many ticks from A to B, and gives B the merged list.
    Delegate(u32),
    /// Tells whether A preempts B.
    Test,
}

/// Where a call on two temporal capabilities stands, between two of its steps.
#[derive(Clone, Copy, PartialEq, Eq, Debug)]
pub enum PairAt {
    /// Before the load of head A.
    LoadA,
    /// Before the compare that marks it.
    MarkA,
    /// Before the load of this word of list A, 1 to 8.
    ListA { entry: EntryNo },
    /// Before the load of head B.
    LoadB,
    /// Before the load of this word of list B, 1 to 8.
    ListB { entry: EntryNo },
    /// Before the compare of head B, which decides.
    CompareB,
    /// Before the second load of head B, which decides this where it finds it the same.
    AgainB { reply: Reply },
    /// Decided; before the store of this word of list B, 1 to 8.
    StoreList { entry: EntryNo },
    /// Decided; before the store of head B.
    StoreB,
    /// Decided; before the store of head A, from which the ticks were moved or not.
    StoreA { moved: bool, value: Value },
}

/// A call on two temporal capabilities, between two of its steps.
#[derive(Clone, Copy, PartialEq, Eq, Debug)]
pub struct Pair {
    /// The one that is marked.
    pub a: FrameNo,
    /// The other one.
    pub b: FrameNo,
    /// What is done with them.
    pub what: PairWork,
    /// The core whose call it is.
    pub core: CoreNo,
    /// Head A as it was found.
    pub head_a: HeadWord,
    /// Head B as it was found.
    pub head_b: HeadWord,
    /// List A as far as it is read; None once it is out of order.
    pub list_a: Option<Qualities>,
    /// List B as far as it is read, None once it is out of order; then the list that B is given.
    pub list_b: Option<Qualities>,
    /// Whether the list that B is given is another than its own, once that is read.
    pub grows: bool,
    /// Where the call stands.
    pub at: PairAt,
}

impl Pair {
    /// A core's call on two different temporal capabilities.
    pub fn new(a: FrameNo, b: FrameNo, what: PairWork, core: CoreNo) -> Pair
        ensures { result ≡ record {
          a = a;
          b = b;
          what = what;
          core = core;
          head_a = head 0 0;
          head_b = head 0 0;
          list_a = Some [];
          list_b = Some [];
          grows = false;
          at = PairAt.LoadA;
        } }
    {
        Pair {
            a,
            b,
            what,
            core,
            head_a: head(0, 0),
            head_b: head(0, 0),
            list_a: Some(Qualities::empty()),
            list_b: Some(Qualities::empty()),
            grows: false,
            at: PairAt::LoadA,
        }
    }

    /// The next step. Both temporal capabilities are below the layout's frames.
    #[inline]
    pub fn next(&self, layout: &Layout) -> WordOp
        requires { PairFits layout.now self.now }
        ensures step { result ≡ op_of layout.now (pair_move self.now) }
        ensures below { place_in result < size_of layout.now }
    {
        match self.at {
            PairAt::ListA { entry } => load(layout, self.a, entry),
            PairAt::ListB { entry } => load(layout, self.b, entry),
            _ => self.next_of(layout),
        }
    }

    // The next step, of any. It stands apart, since most are loads of a list.
    #[inline(never)]
    fn next_of(&self, layout: &Layout) -> WordOp
        requires { PairFits layout.now self.now }
        ensures step { result ≡ op_of layout.now (pair_move self.now) }
        ensures below { place_in result < size_of layout.now }
    {
        match self.at {
            PairAt::LoadA => load(layout, self.a, EntryNo::new(0)),
            PairAt::MarkA => WordOp::Compare {
                at: layout.entry_at(self.a, EntryNo::new(0)),
                expected: word_of(self.head_a),
                word: word_of(marked(self.core, &self.head_a)),
            },
            PairAt::ListA { entry } => load(layout, self.a, entry),
            PairAt::LoadB => load(layout, self.b, EntryNo::new(0)),
            PairAt::ListB { entry } => load(layout, self.b, entry),
            PairAt::CompareB => WordOp::Compare {
                at: layout.entry_at(self.b, EntryNo::new(0)),
                expected: word_of(self.head_b),
                word: word_of(self.next_b()),
            },
            PairAt::AgainB { reply: _ } => load(layout, self.b, EntryNo::new(0)),
            PairAt::StoreList { entry } => WordOp::Store {
                at: layout.entry_at(self.b, entry),
                word: word_at(&in_order(&self.list_b), entry),
            },
            PairAt::StoreB => WordOp::Store {
                at: layout.entry_at(self.b, EntryNo::new(0)),
                word: word_of(self.given_b()),
            },
            PairAt::StoreA { moved, value: _ } => WordOp::Store {
                at: layout.entry_at(self.a, EntryNo::new(0)),
                word: word_of(self.left_a(moved)),
            },
        }
    }

    /// Takes the word that the step found, as `take` does, where it is a word of a list that has no pair, and not the last of list B: then
    /// the call goes on to the next word, and nothing else of it changes. Else nothing is done, and it is false.
    #[inline(always)]
    #[tactic(auto, using(crate::proofs::PairLemmas::pair_after_fits))]
    pub fn passes(&mut self, _layout: &Layout, found: u64) -> bool
        requires { PairFits _layout.now self.old }
        ensures value { result ≡ is_passed self.old.at found }
        ensures end { IsTrue result → pair_end self.old found ≡ Going }
        ensures after { IsTrue result → self.new ≡ pair_after self.old found }
        ensures stays { IsFalse result → self.new ≡ self.old }
        ensures fits { PairFits _layout.now self.new }
    {
        let at = self.at;
        match at {
            PairAt::ListA { entry } => {
                if has_no_pair(found) {
                    self.at = next_of_a(entry);
                    true
                } else {
                    false
                }
            }
            PairAt::ListB { entry } => {
                if has_no_pair(found) && entry.number() < 8 {
                    self.at = PairAt::ListB {
                        entry: EntryNo::new(entry.number() + 1),
                    };
                    true
                } else {
                    false
                }
            }
            _ => false,
        }
    }

    /// Takes the word that the step found. Before head A is marked the call is refused with `busy` where a core has marked
    /// it, and with `raced` where the compare is lost or the word is that of no head. The compare that marks it decides
    /// `short` where its budget is less than the ticks. Behind it a head B that a core has marked decides `busy`, a word
    /// that is none of its place `raced`, and at the deciding step another head B than before decides `raced`; lists
    /// that differ decide `unlike`, and a merged list with more than 8 schedulers `too-many`. The last store is done
    /// with the call's value: whether A preempts B, or nothing. Both temporal capabilities are below the layout's frames,
    /// and stay so.
    pub fn take(&mut self, _layout: &Layout, found: u64) -> StageEnd<Value>
        requires { PairFits _layout.now self.old }
        ensures end { result ≡ pair_end self.old found }
        ensures after { self.new ≡ pair_after self.old found }
        ensures fits { PairFits _layout.now self.new }
    {
        self.note(found);
        let end = self.end(found);
        self.at = self.after(found);
        end
    }
}

impl Pair {
    // What is put in the place of head B: a transfer gives it the ticks, a delegation marks it first.
    fn next_b(&self) -> HeadWord
        requires { VersionFits self.now.head_b }
        ensures value { result ≡ next_b self.now.what self.now.core self.now.head_b }
        ensures range { VersionFits result }
    {
        match self.what {
            PairWork::Transfer(ticks) => credited(&self.head_b, ticks),
            PairWork::Delegate(_) => marked(self.core, &self.head_b),
            PairWork::Test => self.head_b,
        }
    }

    // What a delegation leaves head B as: with the ticks, and in the next version where its list is another.
    fn given_b(&self) -> HeadWord
        requires { VersionFits self.now.head_b }
        ensures value { result ≡ credited (relisted self.now.grows self.now.head_b) (amount_of self.now.what) }
        ensures range { VersionFits result }
    {
        credited(&relisted(self.grows, &self.head_b), amount_of(self.what))
    }

    // What head A is left as: with the ticks less, or as it was.
    fn left_a(&self, moved: bool) -> HeadWord
        requires { VersionFits self.now.head_a }
        ensures value { result ≡ left_a moved self.now.head_a (amount_of self.now.what) }
        ensures range { VersionFits result }
    {
        if moved {
            debited(&self.head_a, amount_of(self.what))
        } else {
            self.head_a
        }
    }

    // Keeps what a step tells that finds this word.
    fn note(&mut self, found: u64)
        ensures { self.new ≡ noted_by self.old found }
    {
        let at = self.at;
        match at {
            PairAt::LoadA => self.head_a = noted(&self.head_a, &HeadWord::unpack(found)),
            PairAt::ListA { entry: _ } => add_word(&mut self.list_a, QualityWord::unpack(found)),
            PairAt::LoadB => self.head_b = noted(&self.head_b, &HeadWord::unpack(found)),
            PairAt::ListB { entry } => {
                add_word(&mut self.list_b, QualityWord::unpack(found));
                if entry.number() >= 8 {
                    self.end_list_b();
                }
            }
            _ => {}
        }
    }

    // List B, once its last word is read: a delegation keeps the merged list, and whether it is another.
    #[inline(never)]
    fn end_list_b(&mut self)
        ensures { self.new ≡ record self.old {
          list_b = whole_b self.old.what (in_order self.old.list_a) (in_order self.old.list_b);
          grows = grows_to self.old.what (whole_b self.old.what (in_order self.old.list_a) (in_order self.old.list_b)) (in_order self.old.list_b);
        } }
    {
        let a = in_order(&self.list_a);
        let b = in_order(&self.list_b);
        let given = whole_b(self.what, &a, &b);
        self.grows = grows_to(self.what, &given, &b);
        self.list_b = given;
    }

    // What a step leads to that finds this word, once what it tells is kept.
    fn end(&self, found: u64) -> StageEnd<Value>
        requires a { VersionFits self.now.head_a }
        requires b { VersionFits self.now.head_b }
        ensures { result ≡ end_at self.now self.now.at found }
    {
        match self.at {
            PairAt::LoadA => head_end(&HeadWord::unpack(found)),
            PairAt::MarkA => {
                let same = found == word_of(self.head_a);
                marked_end(same, self.is_short(), self.head_a.budget)
            }
            PairAt::ListA { entry: _ } => list_end(&QualityWord::unpack(found)),
            PairAt::LoadB => b_end(&HeadWord::unpack(found)),
            PairAt::ListB { entry: _ } => list_end(&QualityWord::unpack(found)),
            PairAt::CompareB => {
                again_end(found == word_of(self.head_b), &Reply::Ok(Value::Nothing))
            }
            PairAt::AgainB { reply } => again_end(found == word_of(self.head_b), &reply),
            PairAt::StoreList { entry: _ } => StageEnd::Going,
            PairAt::StoreB => StageEnd::Going,
            PairAt::StoreA { moved: _, value } => StageEnd::Done(value),
        }
    }

    // Where the call stands after a step that finds this word, once what it tells is kept.
    fn after(&self, found: u64) -> PairAt
        requires a { VersionFits self.now.head_a }
        requires b { VersionFits self.now.head_b }
        requires at { AtFits self.now.at }
        ensures { result ≡ at_after self.now self.now.at found }
    {
        match self.at {
            PairAt::LoadA => after_load_a(&HeadWord::unpack(found)),
            PairAt::MarkA => at_marked(found == word_of(self.head_a), self.is_short()),
            PairAt::ListA { entry } => at_read(&QualityWord::unpack(found), next_of_a(entry)),
            PairAt::LoadB => after_load_b(&HeadWord::unpack(found)),
            PairAt::ListB { entry } => at_read(&QualityWord::unpack(found), self.next_of_b(entry)),
            PairAt::CompareB => after_compare(found == word_of(self.head_b), self.what),
            PairAt::AgainB { reply } => PairAt::StoreA {
                moved: false,
                value: again_value(found == word_of(self.head_b), &reply),
            },
            PairAt::StoreList { entry } => next_store(entry),
            PairAt::StoreB => PairAt::StoreA {
                moved: true,
                value: Value::Nothing,
            },
            PairAt::StoreA { moved, value } => PairAt::StoreA { moved, value },
        }
    }

    // Whether A has fewer ticks than are to be moved.
    fn is_short(&self) -> bool
        ensures { result ≡ nat_lt self.now.head_a.budget (amount_of self.now.what) }
    {
        self.head_a.budget < amount_of(self.what)
    }

    // After the load of a word of list B the next one is loaded, and after the last the two are judged.
    fn next_of_b(&self, entry: EntryNo) -> PairAt
        requires { entry ≤ 8 }
        ensures { result ≡ b_next (nat_lt entry 8) entry self.now }
    {
        if entry.number() < 8 {
            PairAt::ListB {
                entry: EntryNo::new(entry.number() + 1),
            }
        } else {
            self.judged()
        }
    }

    // Lists that differ, and a merged list with no room, are refused where head B is still the same.
    fn judged(&self) -> PairAt
        ensures { result ≡ judged self.now.what self.now }
    {
        let a = in_order(&self.list_a);
        match self.what {
            PairWork::Transfer(_) => by_alike(same_list(&a, &in_order(&self.list_b))),
            PairWork::Delegate(_) => by_room(&self.list_b),
            PairWork::Test => {
                let b = in_order(&self.list_b);
                by_preempting(preempts(self.head_a.budget, &a, self.head_b.budget, &b))
            }
        }
    }
}

// Whether the word of a list has no pair.
#[inline]
fn has_no_pair(word: u64) -> bool
    ensures { result ≡ has_no_pair (quality_of_word word) }
{
    match QualityWord::unpack(word) {
        Some(QualityWord(None)) => true,
        _ => false,
    }
}

// A load of a word of a temporal capability.
#[inline]
fn load(layout: &Layout, tcap: FrameNo, entry: EntryNo) -> WordOp
    requires tcap { tcap < layout.now.frames }
    requires entry { entry < 64 }
    ensures step { result ≡ op_of layout.now (LoadOf (EntryAt tcap entry)) }
    ensures below { place_in result < size_of layout.now }
{
    WordOp::Load {
        at: layout.entry_at(tcap, entry),
    }
}

// The ticks that are moved.
#[inline]
fn amount_of(what: PairWork) -> u32
    ensures { result ≡ amount_of what }
{
    match what {
        PairWork::Transfer(ticks) => ticks,
        PairWork::Delegate(ticks) => ticks,
        PairWork::Test => 0,
    }
}

// A head as it was found, without the mark.
#[inline]
fn noted(old: &HeadWord, shown: &Option<HeadWord>) -> HeadWord
    ensures { result ≡ noted old.now shown.now }
{
    match shown {
        None => *old,
        Some(found) => head(found.budget, found.version),
    }
}

// The list that B is given, or keeps.
#[inline]
fn whole_b(what: PairWork, a: &Qualities, b: &Qualities) -> Option<Qualities>
    ensures { result ≡ whole_b what a.now b.now }
{
    match what {
        PairWork::Transfer(_) => Some(*b),
        PairWork::Delegate(_) => merge_of(a, b),
        PairWork::Test => Some(*b),
    }
}

// Whether the list that B is given is another than its own.
#[inline]
fn grows_to(what: PairWork, given: &Option<Qualities>, b: &Qualities) -> bool
    ensures { result ≡ grows_to what given.now b.now }
{
    match what {
        PairWork::Transfer(_) => false,
        PairWork::Delegate(_) => !same_list(&in_order(given), b),
        PairWork::Test => false,
    }
}

// Head A is given back as it was.
#[inline]
fn giving_back() -> PairAt
    ensures { result ≡ giving_back }
{
    PairAt::StoreA {
        moved: false,
        value: Value::Nothing,
    }
}

// Lists that differ are refused where head B is still the same.
#[inline]
fn by_alike(same: bool) -> PairAt
    ensures { result ≡ by_alike same }
{
    if same {
        PairAt::CompareB
    } else {
        PairAt::AgainB {
            reply: Reply::Unlike,
        }
    }
}

// A merged list with no room is refused where head B is still the same.
#[inline]
fn by_room(list: &Option<Qualities>) -> PairAt
    ensures { result ≡ by_room list.now }
{
    match list {
        None => PairAt::AgainB {
            reply: Reply::TooMany,
        },
        Some(_) => PairAt::CompareB,
    }
}

// A test tells whether A preempts B where head B is still the same.
#[inline]
fn by_preempting(preempts: bool) -> PairAt
    ensures { result ≡ by_preempting preempts }
{
    let value = if preempts {
        Value::Preempts
    } else {
        Value::Stays
    };
    PairAt::AgainB {
        reply: Reply::Ok(value),
    }
}

// Where the call stands after the load of head A.
#[inline]
fn after_load_a(shown: &Option<HeadWord>) -> PairAt
    ensures { result ≡ at_by_head PairAt.MarkA PairAt.LoadA shown.now }
{
    match shown {
        Some(
            HeadWord {
                budget: _,
                mark: None,
                version: _,
            },
        ) => PairAt::MarkA,
        _ => PairAt::LoadA,
    }
}

// Where the call stands after the load of head B.
#[inline]
fn after_load_b(shown: &Option<HeadWord>) -> PairAt
    ensures { result ≡ at_by_head (PairAt.ListB 1) giving_back shown.now }
{
    match shown {
        Some(
            HeadWord {
                budget: _,
                mark: None,
                version: _,
            },
        ) => PairAt::ListB {
            entry: EntryNo::new(1),
        },
        _ => giving_back(),
    }
}

// Where the call stands after the compare that marks head A.
#[inline]
fn at_marked(same: bool, short: bool) -> PairAt
    ensures { result ≡ at_marked same short }
{
    if !same {
        PairAt::MarkA
    } else if short {
        giving_back()
    } else {
        PairAt::ListA {
            entry: EntryNo::new(1),
        }
    }
}

// Where the call stands after the load of a word of a list.
#[inline]
fn at_read(shown: &Option<QualityWord>, next: PairAt) -> PairAt
    ensures { result ≡ at_read shown.now next }
{
    match shown {
        None => giving_back(),
        Some(_) => next,
    }
}

// After the load of a word of list A the next one is loaded, and after the last head B.
#[inline]
fn next_of_a(entry: EntryNo) -> PairAt
    requires { entry ≤ 8 }
    ensures { result ≡ a_next (nat_lt entry 8) entry }
{
    if entry.number() < 8 {
        PairAt::ListA {
            entry: EntryNo::new(entry.number() + 1),
        }
    } else {
        PairAt::LoadB
    }
}

// After the store of a word of list B the next one is stored, and after the last head B.
#[inline]
fn next_store(entry: EntryNo) -> PairAt
    requires { entry ≤ 8 }
    ensures { result ≡ store_next (nat_lt entry 8) entry }
{
    if entry.number() < 8 {
        PairAt::StoreList {
            entry: EntryNo::new(entry.number() + 1),
        }
    } else {
        PairAt::StoreB
    }
}

// Where the call stands after the compare of head B.
#[inline]
fn after_compare(same: bool, what: PairWork) -> PairAt
    ensures { result ≡ compared_after same what }
{
    if same {
        at_decided(what)
    } else {
        giving_back()
    }
}

// Where the call stands once it is decided at the compare of head B.
#[inline]
fn at_decided(what: PairWork) -> PairAt
    ensures { result ≡ at_decided what }
{
    match what {
        PairWork::Transfer(_) => PairAt::StoreA {
            moved: true,
            value: Value::Nothing,
        },
        PairWork::Delegate(_) => PairAt::StoreList {
            entry: EntryNo::new(1),
        },
        PairWork::Test => giving_back(),
    }
}
