//! The word of a thread that holds one component of its stack.

ghost use Rattle.tcap_words.specs.Stack.{StackFits};

use spk_nums::FrameNo;
use std::process::Abort;
use tcap_words::StackWord;

// A value and its word, both ways.
fn spells(rt: &impl Abort, value: &StackWord, word: u64)
    requires { StackFits value.now }
{
    assert_eq!(rt; value.pack(), word);
    assert_eq!(rt; StackWord::unpack(word), Some(*value), "at {word:#018x}");
}

#[test]
fn spells_worked_words_and_ends(rt: HostRuntime) {
    spells(&rt, &StackWord(None), 0);
    spells(&rt, &StackWord(Some(FrameNo::new(0))), 1);
    spells(&rt, &StackWord(Some(FrameNo::new(511))), 0x3ff);
}

#[test]
fn refuses_words_of_no_value(rt: HostRuntime) {
    for word in [2, 0x401] {
        assert_eq!(rt; StackWord::unpack(word), None, "at {word:#018x}");
    }
}
