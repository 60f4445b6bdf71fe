//! The word of a liveness number.

ghost use Rattle.frame_words.specs.Live.{LiveFits};

use frame_words::LiveWord;
use spk_nums::{CoreNo, FrameNo, Stamp};
use std::process::Abort;

// A value and its word, both ways.
fn spells(rt: &impl Abort, value: &LiveWord, word: u64)
    requires { LiveFits value.now }
{
    assert_eq!(rt; value.pack(), word);
    assert_eq!(rt; LiveWord::unpack(word), Some(*value), "at {word:#018x}");
}

#[test]
fn spells_free_and_live_numbers(rt: HostRuntime) {
    spells(&rt, &LiveWord::Free, 0);
    spells(
        &rt,
        &LiveWord::Live {
            epoch: 1,
            frame: FrameNo::new(3),
        },
        0x0000_0000_000c_0005,
    );
    spells(
        &rt,
        &LiveWord::Live {
            epoch: 0xffff,
            frame: FrameNo::new(511),
        },
        0x7ff_fffd,
    );
}

#[test]
fn spells_closing_and_dead_numbers(rt: HostRuntime) {
    spells(
        &rt,
        &LiveWord::Closing {
            epoch: 0,
            by: CoreNo::new(7),
        },
        0x3800_0002,
    );
    spells(
        &rt,
        &LiveWord::Closing {
            epoch: 0xffff,
            by: CoreNo::new(0),
        },
        0x3_fffe,
    );
    spells(
        &rt,
        &LiveWord::Dead {
            epoch: 1,
            stamp: Stamp::new(1),
        },
        0x4_0007,
    );
    spells(
        &rt,
        &LiveWord::Dead {
            epoch: 0xffff,
            stamp: Stamp::new(0x7ff_ffff_ffff),
        },
        0x1fff_ffff_ffff_ffff,
    );
}

#[test]
fn refuses_words_of_no_value(rt: HostRuntime) {
    for word in [
        1,
        4,
        7,
        0x4_0002,
        0x4_0003,
        0x800_0005,
        0x4000_0002,
        0x2000_0000_0000_0007,
    ] {
        assert_eq!(rt; LiveWord::unpack(word), None, "at {word:#018x}");
    }
}
