//! The word of a thread that says which core runs it.

ghost use Rattle.tcap_words.specs.Thread.{ThreadFits};

use spk_nums::CoreNo;
use std::process::Abort;
use tcap_words::ThreadWord;

// A value and its word, both ways.
fn spells(rt: &impl Abort, value: &ThreadWord, word: u64)
    requires { ThreadFits value.now }
{
    assert_eq!(rt; value.pack(), word);
    assert_eq!(rt; ThreadWord::unpack(word), Some(*value), "at {word:#018x}");
}

#[test]
fn spells_worked_words_and_ends(rt: HostRuntime) {
    spells(&rt, &ThreadWord::Idle { depth: 1 }, 0x20);
    spells(&rt, &ThreadWord::Idle { depth: 16 }, 0x200);
    spells(
        &rt,
        &ThreadWord::Running {
            core: CoreNo::new(7),
            depth: 16,
        },
        0x21d,
    );
    spells(
        &rt,
        &ThreadWord::Claimed {
            core: CoreNo::new(0),
            depth: 1,
        },
        0x22,
    );
}

#[test]
fn refuses_words_of_no_value(rt: HostRuntime) {
    for word in [0, 0x23, 0x24, 0x220] {
        assert_eq!(rt; ThreadWord::unpack(word), None, "at {word:#018x}");
    }
}
