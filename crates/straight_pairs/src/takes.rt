//! What a pair takes from the word of its step, where that is the one expected.
//!
//! A word that is another leaves the pair as it was: so nothing is copied before a step.

ghost use Rattle.std.specs.Prelude.{◌≡◌, ◌==◌, nat_lt, IfSome, IsFalse, IsTrue, None};
ghost use Rattle.straight_looks.specs.step_starts.specs.stage_tcap.specs.Heads.{VersionFits};
ghost use Rattle.straight_looks.specs.step_starts.specs.stage_tcap.specs.Pairs.{PairFits, amount_of, store_next};
ghost use Rattle.straight_looks.specs.step_starts.specs.tcap_words.specs.Head.{word_of_head};
ghost use Rattle.straight_pairs.specs.Taking.{DecidesTo, GoesTo, IsList, IsUnmarked};

use act_counts::act_states::stage_tcap::{Pair, PairAt, PairWork};
use act_counts::act_states::tcap_words::{HeadWord, QualityWord};
use act_counts::act_states::word_map::Layout;
use spk_nums::{EntryNo, Reply, Value};

/// Whether the call goes on with this word, which the pair has then taken.
#[inline(always)]
#[tactic(auto, using(crate::proofs::Sets::going_on))]
pub(crate) fn goes_on(pair: &mut Pair, layout: &Layout, found: u64) -> bool
    requires { PairFits layout.now pair.old }
    ensures on { IsTrue result → GoesTo pair.old found pair.new }
    ensures stays { IsFalse result → pair.new ≡ pair.old }
{
    let at = pair.at;
    match at {
        PairAt::ListA { entry: _ } => reads(pair, layout, found),
        PairAt::ListB { entry: _ } => reads(pair, layout, found),
        PairAt::LoadA => match unmarked(found) {
            None => false,
            Some(head) => {
                pair.head_a = head;
                pair.at = PairAt::MarkA;
                true
            }
        },
        PairAt::LoadB => match unmarked(found) {
            None => false,
            Some(head) => {
                pair.head_b = head;
                pair.at = PairAt::ListB {
                    entry: EntryNo::new(1),
                };
                true
            }
        },
        PairAt::MarkA => {
            if found == word_of(pair.head_a) && !is_short(pair) {
                pair.at = PairAt::ListA {
                    entry: EntryNo::new(1),
                };
                true
            } else {
                false
            }
        }
        _ => false,
    }
}

// Whether this is the word of a list, which the pair has then taken.
#[inline(always)]
#[tactic(auto, using(crate::proofs::Sets::reading))]
fn reads(pair: &mut Pair, layout: &Layout, found: u64) -> bool
    requires fits { PairFits layout.now pair.old }
    requires list { IsList pair.old.at }
    ensures on { IsTrue result → GoesTo pair.old found pair.new }
    ensures stays { IsFalse result → pair.new ≡ pair.old }
{
    if pair.passes(layout, found) {
        return true;
    }
    match QualityWord::unpack(found) {
        None => false,
        Some(_) => {
            let _end = pair.take(layout, found);
            true
        }
    }
}

/// The value with which the call is decided by this word, which the pair has then taken.
#[inline(always)]
#[tactic(auto, using(crate::proofs::Sets::deciding))]
pub(crate) fn decides(pair: &mut Pair, layout: &Layout, found: u64) -> Option<Value>
    requires { PairFits layout.now pair.old }
    ensures by { IfSome result (λ v. DecidesTo pair.old found v pair.new) }
    ensures stays { result ≡ None → pair.new ≡ pair.old }
{
    let at = pair.at;
    match at {
        PairAt::CompareB => {
            if found == word_of(pair.head_b) {
                let _end = pair.take(layout, found);
                Some(Value::Nothing)
            } else {
                None
            }
        }
        PairAt::AgainB {
            reply: Reply::Ok(value),
        } => {
            if found == word_of(pair.head_b) {
                let _end = pair.take(layout, found);
                Some(value)
            } else {
                None
            }
        }
        _ => None,
    }
}

/// Where a pair stands after the store of this word of list B.
#[inline(always)]
pub(crate) fn next_store(entry: EntryNo) -> PairAt
    ensures { result ≡ store_next (nat_lt entry 8) entry }
{
    if entry.number() < 8 {
        PairAt::StoreList {
            entry: EntryNo::new(entry.number() + 1),
        }
    } else {
        PairAt::StoreB
    }
}

// The head that no core has marked, where the word shows one.
#[inline(always)]
#[tactic(auto, using(crate::proofs::Sets::heads))]
fn unmarked(found: u64) -> Option<HeadWord>
    ensures { IfSome result (λ h. IsUnmarked found h) }
{
    match HeadWord::unpack(found) {
        None => None,
        Some(head) => match head.mark {
            None => Some(head),
            Some(_) => None,
        },
    }
}

// Whether A has fewer ticks than are to be moved.
#[inline(always)]
fn is_short(pair: &Pair) -> bool
    ensures { result ≡ nat_lt pair.now.head_a.budget (amount_of pair.now.what) }
{
    let ticks = match pair.what {
        PairWork::Transfer(ticks) => ticks,
        PairWork::Delegate(ticks) => ticks,
        PairWork::Test => 0,
    };
    pair.head_a.budget < ticks
}

// The head's word.
#[inline(always)]
fn word_of(h: HeadWord) -> u64
    requires { VersionFits h }
    ensures { result ≡ word_of_head h }
{
    h.pack()
}
