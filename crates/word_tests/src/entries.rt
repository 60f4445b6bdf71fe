//! What the word of a place says.

ghost use Rattle.std.specs.Prelude.{◌≤◌, ◌<◌};
ghost use Rattle.spk_nums.specs.Limits.{least_arg, end_of_arg};
ghost use Rattle.spk_nums.specs.Rights.{least_rights};
ghost use Rattle.entry_words.specs.EntryWord.{EntryFits};

use entry_words::Entry;
use spk_nums::{Cap, CoreNo, FrameNo, Kind, Rights, Stamp};
use std::process::Abort;

// An entry and its word, both ways.
fn spells(rt: &impl Abort, entry: &Entry, word: u64)
    requires { EntryFits entry.now }
{
    assert_eq!(rt; entry.pack(), word);
    assert_eq!(rt; Entry::unpack(word), Some(*entry), "at {word:#018x}");
}

fn held(kind: Kind, frame: u16, arg: u32) -> Entry
    requires frame { frame < 512 }
    requires least { least_arg kind ≤ arg }
    requires end { arg < end_of_arg kind }
    ensures { EntryFits result }
{
    Entry::Held(Cap::new(kind, FrameNo::new(frame), arg))
}

// A capability with these rights.
fn limited(kind: Kind, frame: u16, arg: u32, rights: u8) -> Entry
    requires frame { frame < 512 }
    requires least { least_arg kind ≤ arg }
    requires end { arg < end_of_arg kind }
    requires least_rights { least_rights kind ≤ rights }
    requires end_of_rights { rights < 4 }
    ensures { EntryFits result }
{
    Entry::Held(Cap::with_rights(kind, FrameNo::new(frame), arg, Rights::of_bits(rights)))
}

#[test]
fn spells_worked_words(rt: HostRuntime) {
    spells(&rt, &Entry::Free, 0);
    spells(&rt, &held(Kind::Range, 0, 0), 1);
    spells(&rt, &held(Kind::Table, 0, 0), 0x0000_0000_0000_0005);
    spells(&rt, &held(Kind::Range, 8, 24), 0x0000_0000_0018_0201);
    spells(&rt, &Entry::Closing { by: CoreNo::new(1) }, 6);
    spells(
        &rt,
        &Entry::Quiescing {
            stamp: Stamp::new(5),
        },
        0x53,
    );
}

#[test]
fn spells_the_rights_withheld(rt: HostRuntime) {
    spells(&rt, &limited(Kind::Range, 8, 24, 1), 0x0000_0200_0018_0201);
    spells(&rt, &limited(Kind::Range, 0, 0, 2), 0x0000_0100_0000_0001);
    spells(&rt, &limited(Kind::Gate, 3, 1, 0), 0x0000_0300_0001_00d9);
    spells(&rt, &limited(Kind::Link, 1, 0, 3), 0x0000_0000_0000_0065);
}

#[test]
fn spells_the_ends_of_each_field(rt: HostRuntime) {
    spells(
        &rt,
        &held(Kind::Range, 511, 0xff_ffff),
        0x0000_00ff_ffff_7fc1,
    );
    spells(&rt, &held(Kind::Gate, 0, 1), 0x0000_0000_0001_0019);
    spells(&rt, &held(Kind::Gate, 511, 0xffff), 0x0000_0000_ffff_7fd9);
    spells(&rt, &held(Kind::Page, 511, 3), 0x0000_0000_0003_7fe9);
    spells(&rt, &Entry::Closing { by: CoreNo::new(0) }, 2);
    spells(&rt, &Entry::Closing { by: CoreNo::new(7) }, 0x1e);
    spells(
        &rt,
        &Entry::Quiescing {
            stamp: Stamp::new(1),
        },
        0x13,
    );
    spells(
        &rt,
        &Entry::Quiescing {
            stamp: Stamp::new(0x7ff_ffff_ffff),
        },
        0x0000_7fff_ffff_fff3,
    );
}

#[test]
fn refuses_words_of_no_entry(rt: HostRuntime) {
    let words = [
        1 << 40,
        3,
        4,
        0x2d,
        0x8001,
        0x0000_0400_0000_0001,
        0x0000_0100_0000_0025,
        0x0000_0200_0000_0029,
        0x19,
        0x0000_0000_0004_0029,
        0x22,
        0x57,
        0x0000_8000_0000_0003,
    ];
    for word in words {
        assert_eq!(rt; Entry::unpack(word), None, "at {word:#018x}");
    }
}
