//! The word that says whether a core is inside a call.

ghost use Rattle.frame_words.specs.Core.{CoreFits};

use frame_words::CoreWord;
use spk_nums::Stamp;
use std::process::Abort;

// A value and its word, both ways.
fn spells(rt: &impl Abort, value: &CoreWord, word: u64)
    requires { CoreFits value.now }
{
    assert_eq!(rt; value.pack(), word);
    assert_eq!(rt; CoreWord::unpack(word), Some(*value), "at {word:#018x}");
}

#[test]
fn spells_worked_words_and_ends(rt: HostRuntime) {
    spells(
        &rt,
        &CoreWord {
            inside: false,
            stamp: Stamp::new(0),
        },
        0,
    );
    spells(
        &rt,
        &CoreWord {
            inside: true,
            stamp: Stamp::new(0),
        },
        1,
    );
    spells(
        &rt,
        &CoreWord {
            inside: false,
            stamp: Stamp::new(0x7ff_ffff_ffff),
        },
        0xfff_ffff_fffe,
    );
    spells(
        &rt,
        &CoreWord {
            inside: true,
            stamp: Stamp::new(0x7ff_ffff_ffff),
        },
        0xfff_ffff_ffff,
    );
}

#[test]
fn refuses_words_of_no_value(rt: HostRuntime) {
    for word in [0x1000_0000_0000, 0x8000_0000_0000_0000] {
        assert_eq!(rt; CoreWord::unpack(word), None, "at {word:#018x}");
    }
}
