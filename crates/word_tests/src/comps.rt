//! The word of a component that names its liveness number.

ghost use Rattle.frame_words.specs.Comp.{CompFits};

use frame_words::CompWord;
use std::process::Abort;

// A value and its word, both ways.
fn spells(rt: &impl Abort, value: &CompWord, word: u64)
    requires { CompFits value.now }
{
    assert_eq!(rt; value.pack(), word);
    assert_eq!(rt; CompWord::unpack(word), Some(*value), "at {word:#018x}");
}

#[test]
fn spells_worked_words_and_ends(rt: HostRuntime) {
    spells(
        &rt,
        &CompWord {
            number: 0,
            epoch: 1,
        },
        0x40,
    );
    spells(
        &rt,
        &CompWord {
            number: 63,
            epoch: 0xffff,
        },
        0x3f_ffff,
    );
}

#[test]
fn refuses_words_of_no_value(rt: HostRuntime) {
    for word in [0, 0x3f, 0x40_0040] {
        assert_eq!(rt; CompWord::unpack(word), None, "at {word:#018x}");
    }
}
