//! Look-ups, by the words that they find.

ghost use Rattle.std.specs.Prelude.{◌<◌};
ghost use Rattle.stage_look.specs.Lookup.{LookFits};

use crate::steps::loads;
use entry_words::Entry;
use spk_nums::{Cap, CapId, CoreNo, EntryNo, FrameNo, Kind, Reply, StageEnd, Stamp, WordOp};
use stage_look::{Found, Look};
use word_map::Layout;

// Words of entries: links to the frames 1 and 8, a table, ranges of 2 and of 3 frames from 6 on, the marks of core 1
// and of the stamp 5, and a word of no entry.
const LINK_TO_1: u64 = 101;

const LINK_TO_8: u64 = 549;

const TABLE_0: u64 = 5;

const RANGE_6_2: u64 = 0x2_0181;

const RANGE_6_3: u64 = 0x3_0181;

const CLOSING: u64 = 6;

const QUIESCING: u64 = 0x53;

const FOREIGN: u64 = 4;

// A step, the word that it finds, and what that leads to.
type Row = (WordOp, u64, StageEnd<Found>);

// Whether these are the next steps of a look-up.
fn goes(look: &mut Look, layout: &Layout, rows: &[Row]) -> bool
    requires { LookFits layout.now look.old }
{
    'rows: for row in rows {
        if look.next(layout) != row.0 || look.take(layout, row.1) != row.2 {
            return false;
        }
    }
    true
}

// What is found at this entry of a node.
fn found(node: u16, entry: u16, word: u64, cap: Cap) -> StageEnd<Found>
    requires node { node < 512 }
    requires entry { entry < 64 }
{
    StageEnd::Done(Found {
        node: FrameNo::new(node),
        entry: EntryNo::new(entry),
        word,
        value: Entry::Held(cap),
    })
}

#[test]
fn looks_up_a_number_and_a_root_entry(rt: HostRuntime) {
    let range = Cap::new(Kind::Range, FrameNo::new(6), 2);
    let link = Cap::new(Kind::Link, FrameNo::new(1), 0);
    let rows = [
        (loads(1), LINK_TO_1, StageEnd::Going),
        (loads(70), RANGE_6_2, found(1, 6, RANGE_6_2, range)),
    ];
    let last = [(loads(191), LINK_TO_1, found(2, 63, LINK_TO_1, link))];
    if let Some(layout) = Layout::new(1, 8) {
        let mut look = Look::own(FrameNo::new(0), CapId::new(70));
        assert!(rt; goes(&mut look, &layout, &rows));
        let mut entry = Look::root(FrameNo::new(2), EntryNo::new(63));
        assert!(rt; goes(&mut entry, &layout, &last));
    }
}

#[test]
fn follows_links_from_a_root_alone(rt: HostRuntime) {
    if let Some(layout) = Layout::new(1, 8) {
        let start = Look::own(FrameNo::new(0), CapId::new(70));
        for word in [
            0, TABLE_0, RANGE_6_2, LINK_TO_8, CLOSING, QUIESCING, FOREIGN,
        ] {
            let mut look = start;
            let follows = look.follows(&layout, word);
            assert!(rt; !follows && look == start, "at {word:#x}");
        }
        let mut look = start;
        assert!(rt; look.follows(&layout, LINK_TO_1));
        assert!(rt; look.next(&layout) == loads(70));
        assert!(rt; !look.follows(&layout, LINK_TO_1));
        let mut entry = Look::root(FrameNo::new(2), EntryNo::new(63));
        assert!(rt; !entry.follows(&layout, LINK_TO_1));
    }
}

#[test]
fn refuses_at_the_root(rt: HostRuntime) {
    let busy = Reply::Busy(CoreNo::new(1));
    let rows = [
        (0, Reply::NoSlot),
        (TABLE_0, Reply::NoSlot),
        (CLOSING, busy),
        (QUIESCING, Reply::NoSlot),
        (LINK_TO_8, Reply::Raced),
        (FOREIGN, Reply::Raced),
    ];
    if let Some(layout) = Layout::new(1, 8) {
        for (word, reply) in rows {
            let mut look = Look::place(FrameNo::new(0), CapId::new(4095));
            let end = look.take(&layout, word);
            assert!(rt; end == StageEnd::Refuse(reply), "at {word:#x}");
        }
    }
}

#[test]
fn hands_on_what_stands_at_the_place(rt: HostRuntime) {
    let quiescing = Entry::Quiescing {
        stamp: Stamp::new(5),
    };
    let rows = [
        (0, Ok(Entry::Free)),
        (QUIESCING, Ok(quiescing)),
        (CLOSING, Err(Reply::Busy(CoreNo::new(1)))),
        (RANGE_6_3, Err(Reply::Raced)),
        (FOREIGN, Err(Reply::Raced)),
    ];
    if let Some(layout) = Layout::new(1, 8) {
        for (word, wanted) in rows {
            let mut look = Look::root(FrameNo::new(0), EntryNo::new(0));
            let taken = match look.take(&layout, word) {
                StageEnd::Done(found) => Ok(found.value),
                StageEnd::Refuse(reply) => Err(reply),
                _ => Err(Reply::Fault),
            };
            assert!(rt; taken == wanted, "at {word:#x}");
        }
    }
}
