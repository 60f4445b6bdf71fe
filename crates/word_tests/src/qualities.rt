//! The word of a temporal capability that holds one of its qualities.

ghost use Rattle.tcap_words.specs.Quality.{QualityFits};

use std::process::Abort;
use tcap_words::QualityWord;

// A value and its word, both ways.
fn spells(rt: &impl Abort, value: &QualityWord, word: u64)
    requires { QualityFits value.now }
{
    assert_eq!(rt; value.pack(), word);
    assert_eq!(rt; QualityWord::unpack(word), Some(*value), "at {word:#018x}");
}

#[test]
fn spells_worked_words_and_ends(rt: HostRuntime) {
    spells(&rt, &QualityWord(None), 0);
    spells(&rt, &QualityWord(Some((0, 1))), 1);
    spells(&rt, &QualityWord(Some((63, 0xff_ffff))), 0x3fff_ffff);
}

#[test]
fn refuses_words_of_no_value(rt: HostRuntime) {
    for word in [0x100_0000, 0x4000_0001] {
        assert_eq!(rt; QualityWord::unpack(word), None, "at {word:#018x}");
    }
}
