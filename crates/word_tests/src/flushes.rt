//! The word of a core's last flush.

ghost use Rattle.frame_words.specs.Flush.{FlushFits};

use frame_words::FlushWord;
use spk_nums::Stamp;
use std::process::Abort;

// A value and its word, both ways.
fn spells(rt: &impl Abort, value: &FlushWord, word: u64)
    requires { FlushFits value.now }
{
    assert_eq!(rt; value.pack(), word);
    assert_eq!(rt; FlushWord::unpack(word), Some(*value), "at {word:#018x}");
}

#[test]
fn spells_worked_words_and_ends(rt: HostRuntime) {
    spells(
        &rt,
        &FlushWord {
            stamp: Stamp::new(0),
        },
        0,
    );
    spells(
        &rt,
        &FlushWord {
            stamp: Stamp::new(0x7ff_ffff_ffff),
        },
        0x7ff_ffff_ffff,
    );
}

#[test]
fn refuses_words_of_no_value(rt: HostRuntime) {
    for word in [0x800_0000_0000, 0x8000_0000_0000_0000] {
        assert_eq!(rt; FlushWord::unpack(word), None, "at {word:#018x}");
    }
}
