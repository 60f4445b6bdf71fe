//! The word that says what a frame is.

ghost use Rattle.frame_words.specs.Frame.{FrameFits};

use frame_words::FrameWord;
use spk_nums::{CoreNo, FrameKind, Obj};
use std::process::Abort;

// A value and its word, both ways.
fn spells(rt: &impl Abort, value: &FrameWord, word: u64)
    requires { FrameFits value.now }
{
    assert_eq!(rt; value.pack(), word);
    assert_eq!(rt; FrameWord::unpack(word), Some(*value), "at {word:#018x}");
}

#[test]
fn spells_each_kind(rt: HostRuntime) {
    spells(
        &rt,
        &FrameWord {
            kind: FrameKind::Untyped,
            object: Obj::Blank,
            mark: None,
        },
        0,
    );
    spells(
        &rt,
        &FrameWord {
            kind: FrameKind::User,
            object: Obj::Blank,
            mark: None,
        },
        1,
    );
    spells(
        &rt,
        &FrameWord {
            kind: FrameKind::Kernel,
            object: Obj::Blank,
            mark: None,
        },
        2,
    );
}

#[test]
fn spells_marks_and_objects(rt: HostRuntime) {
    spells(
        &rt,
        &FrameWord {
            kind: FrameKind::Untyped,
            object: Obj::Blank,
            mark: Some(CoreNo::new(0)),
        },
        0x40,
    );
    spells(
        &rt,
        &FrameWord {
            kind: FrameKind::Kernel,
            object: Obj::Table,
            mark: None,
        },
        6,
    );
    spells(
        &rt,
        &FrameWord {
            kind: FrameKind::Kernel,
            object: Obj::Tcap,
            mark: Some(CoreNo::new(7)),
        },
        0x21e,
    );
}

#[test]
fn refuses_words_of_no_value(rt: HostRuntime) {
    for word in [3, 5, 0x22, 0x240, 0x400] {
        assert_eq!(rt; FrameWord::unpack(word), None, "at {word:#018x}");
    }
}
