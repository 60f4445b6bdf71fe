//! Lists of qualities, and the test of preemption.

use preempt_test::preempts;
use quality_lists::{agrees, merge};
use spk_nums::Qualities;

// The list of these pairs, of which no two are of one scheduler, and which are no more than eight.
fn listed(pairs: &[(u8, u32)]) -> Qualities {
    let mut list = Qualities::empty();
    'pairs: for pair in pairs {
        let _added = list.add(*pair);
    }
    list
}

#[test]
fn merges_to_the_worse_and_counts_to_eight(rt: HostRuntime) {
    let a = listed(&[(0, 5), (1, 7), (3, 2)]);
    let b = listed(&[(1, 9), (2, 1), (3, 1)]);
    let both = listed(&[(0, 5), (1, 9), (2, 1), (3, 2)]);
    assert!(rt; merge(&a, &b) == Some(both));
    assert!(rt; agrees(&a, &a));
    assert!(rt; !agrees(&a, &b));
    let even = listed(&[(0, 1), (2, 1), (4, 1), (6, 1)]);
    let odd = listed(&[(1, 1), (3, 1), (5, 1), (7, 1), (9, 1)]);
    assert!(rt; merge(&even, &odd).is_none(), "nine schedulers");
}

#[test]
fn preempts_by_budget_then_by_common_schedulers(rt: HostRuntime) {
    let best = Qualities::one(0, 1);
    let good = Qualities::one(0, 5);
    let other = Qualities::one(1, 9);
    assert!(rt; preempts(1, &best, 1, &good), "smaller");
    assert!(rt; !preempts(1, &good, 1, &best), "larger");
    assert!(rt; !preempts(1, &best, 1, &best), "equal");
    assert!(rt; preempts(1, &good, 1, &other), "no scheduler in common");
    assert!(rt; preempts(1, &good, 0, &best), "the other has no budget");
    assert!(rt; !preempts(0, &best, 0, &good), "no budget");
}
