//! The test of preemption: whether a temporal capability that arrives takes the place of the one that runs.
//!
//! See docs/MODEL.md, 'A call is a rule': `test`.
#![tactic(auto)]

ghost use Rattle.std.specs.Prelude.{◌≡◌};
ghost use Rattle.spk_nums.specs.Merging.{number_of, is_smaller, is_better, preempts_by};
ghost use Rattle.preempt_test.specs.Power.{MergingGivesNoPower};

use spk_nums::Qualities;

/// The number that a list gives a scheduler; None exactly where it does not name it.
fn number_in(list: &Qualities, sched: u8) -> Option<u32>
    ensures { result ≡ number_of list.now sched }
{
    'pairs: for i in 0..list.len() {
        if let Some((named, quality)) = list.get(i) {
            if named == sched {
                return Some(quality);
            }
        }
    }
    None
}

/// Whether a number is strictly smaller than another, where there is another.
fn smaller(quality: u32, other: Option<u32>) -> bool
    ensures { result ≡ is_smaller quality other }
{
    match other {
        None => true,
        Some(other) => quality < other,
    }
}

/// Whether the first list has a strictly smaller number for every scheduler that both name.
fn better(a: &Qualities, b: &Qualities) -> bool
    ensures { result ≡ is_better a.now b.now }
{
    'pairs: for i in 0..a.len() {
        if let Some((sched, quality)) = a.get(i) {
            if !smaller(quality, number_in(b, sched)) {
                return false;
            }
        }
    }
    true
}

/// Whether a temporal capability with budget `a_budget` and list `a` preempts one with `b_budget` and `b`: exactly where it
/// has budget, and either the other has none, or for every scheduler named in both lists the number of `a` is strictly
/// smaller. With no scheduler in common it preempts.
pub fn preempts(a_budget: u32, a: &Qualities, b_budget: u32, b: &Qualities) -> bool
    ensures { result ≡ preempts_by a_budget a.now b_budget b.now }
{
    if a_budget == 0 {
        false
    } else if b_budget == 0 {
        true
    } else {
        better(a, b)
    }
}

/// Whom a temporal capability preempts with a merged list, it preempts with either of the two lists: a delegation gives no
/// list the power to preempt what neither part could.
pub fn merging_gives_no_power()
    ensures { MergingGivesNoPower }
{}
