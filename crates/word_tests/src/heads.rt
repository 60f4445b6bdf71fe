//! The word of a temporal capability that holds its budget.

ghost use Rattle.tcap_words.specs.Head.{HeadFits};

use spk_nums::CoreNo;
use std::process::Abort;
use tcap_words::HeadWord;

// A value and its word, both ways.
fn spells(rt: &impl Abort, value: &HeadWord, word: u64)
    requires { HeadFits value.now }
{
    assert_eq!(rt; value.pack(), word);
    assert_eq!(rt; HeadWord::unpack(word), Some(*value), "at {word:#018x}");
}

#[test]
fn spells_worked_words_and_ends(rt: HostRuntime) {
    spells(
        &rt,
        &HeadWord {
            budget: 100,
            mark: None,
            version: 1,
        },
        0x0000_0010_0000_0064,
    );
    spells(
        &rt,
        &HeadWord {
            budget: 0,
            mark: None,
            version: 0,
        },
        0,
    );
    spells(
        &rt,
        &HeadWord {
            budget: 0xffff_ffff,
            mark: Some(CoreNo::new(7)),
            version: 0xfff_ffff,
        },
        0xffff_fff8_ffff_ffff,
    );
}

#[test]
fn refuses_words_of_no_value(rt: HostRuntime) {
    for word in [0x9_0000_0000, 0xf_0000_0000] {
        assert_eq!(rt; HeadWord::unpack(word), None, "at {word:#018x}");
    }
}
