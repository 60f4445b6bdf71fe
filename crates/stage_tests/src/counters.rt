//! The counters that a sweep has frozen.

use frame_words::{CountWord, Hold};
use spk_nums::Stamp;
use stage_sweep::CountWords;

#[test]
fn sums_counts_and_finds_the_latest_stamp(rt: HostRuntime) {
    let mut words = CountWords::empty();
    assert!(rt; (words.sum(), words.stamp()) == (0, Stamp::new(0)));
    for (count, stamp) in [(3, 5), (-2, 9), (1, 7)] {
        let word = CountWord {
            hold: Hold::Unheld,
            count,
            stamp: Stamp::new(stamp),
        };
        assert!(rt; words.add(word) == true, "at {count}");
    }
    assert!(rt; (words.sum(), words.stamp()) == (2, Stamp::new(9)));
    assert!(rt; words.len() == 3);
    assert!(rt; words.get(3) == None);
}
