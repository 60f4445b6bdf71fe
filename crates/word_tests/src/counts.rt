//! The word that counts the references to a frame.

ghost use Rattle.frame_words.specs.Count.{CountFits};

use frame_words::{CountWord, Hold};
use spk_nums::{CoreNo, Stamp};
use std::process::Abort;

// A value and its word, both ways.
fn spells(rt: &impl Abort, value: &CountWord, word: u64)
    requires { CountFits value.now }
{
    assert_eq!(rt; value.pack(), word);
    assert_eq!(rt; CountWord::unpack(word), Some(*value), "at {word:#018x}");
}

#[test]
fn spells_counts_that_no_core_holds(rt: HostRuntime) {
    spells(
        &rt,
        &CountWord {
            hold: Hold::Unheld,
            count: 2,
            stamp: Stamp::new(0),
        },
        0x0000_1000_0000_0000,
    );
    spells(
        &rt,
        &CountWord {
            hold: Hold::Unheld,
            count: 0,
            stamp: Stamp::new(0),
        },
        0,
    );
    spells(
        &rt,
        &CountWord {
            hold: Hold::Unheld,
            count: -0x8000,
            stamp: Stamp::new(0),
        },
        0x0400_0000_0000_0000,
    );
    spells(
        &rt,
        &CountWord {
            hold: Hold::Unheld,
            count: -1,
            stamp: Stamp::new(9),
        },
        0x07ff_f800_0000_0009,
    );
    spells(
        &rt,
        &CountWord {
            hold: Hold::Unheld,
            count: 0x7fff,
            stamp: Stamp::new(0x7ff_ffff_ffff),
        },
        0x03ff_ffff_ffff_ffff,
    );
    spells(
        &rt,
        &CountWord {
            hold: Hold::Unheld,
            count: -1,
            stamp: Stamp::new(0x7ff_ffff_ffff),
        },
        0x07ff_ffff_ffff_ffff,
    );
}

#[test]
fn spells_counts_that_a_core_holds(rt: HostRuntime) {
    spells(
        &rt,
        &CountWord {
            hold: Hold::Pinned { by: CoreNo::new(7) },
            count: 0,
            stamp: Stamp::new(0),
        },
        0x4000_0000_0000_0000,
    );
    spells(
        &rt,
        &CountWord {
            hold: Hold::Closed { by: CoreNo::new(0) },
            count: -1,
            stamp: Stamp::new(1),
        },
        0x8fff_f800_0000_0001,
    );
}

#[test]
fn refuses_words_of_no_value(rt: HostRuntime) {
    for word in [
        0x8000_0000_0000_0000,
        0x4800_0000_0000_0000,
        0xc800_0000_0000_0000,
    ] {
        assert_eq!(rt; CountWord::unpack(word), None, "at {word:#018x}");
    }
}
