//! The scripts that numbers make, through the top call.

use crate::shared::{MACHINE, list_of};
use byte_ends::{MemSink, MemSource};
use speck_run::{FreeGate, Status, Summed, speck, sum_up};
use std::alloc::Global;
use std::str::from_utf8;
use std::test::Fail;
use std::thread::Threads;

// More than any text here.
const ROOM: usize = 1_048_576;

// What `speck` writes for these words and this input, and how it ends. The first read of the source fails where that is
// told.
fn written<R: Threads + Sync>(
    rt: &R,
    alloc: Global,
    words: &[&str],
    input: &[u8],
    read_fails: &[u32],
) -> Result<(Status, Vec<u8>), Fail> {
    let words = list_of(alloc, words)?;
    let bytes = Vec::from_slice(alloc, input)?;
    let read_fails = Vec::from_slice(alloc, read_fails)?;
    let mut source = MemSource::new(bytes, ROOM, read_fails);
    let mut sink = MemSink::new(alloc, ROOM, ROOM, Vec::new(alloc))?;
    let status = speck(rt, alloc, &FreeGate, &words, &mut source, &mut sink);
    Ok((status, Vec::from_slice(alloc, sink.bytes())?))
}

#[test]
fn a_made_script_is_printed_as_it_is(rt: HostRuntime) -> Result<(), Fail> {
    let alloc = rt.alloc();
    // Nothing is read: the source would fail.
    let (status, text) = written(&rt, alloc, &["make", "5"], b"", &[1])?;
    assert_eq!(rt; status, Status::Done);
    assert_eq!(rt; count(&text, b'\n'), 2_618);
    let (status, printed) = written(&rt, alloc, &["print"], &text, &[])?;
    assert_eq!(rt; status, Status::Done);
    assert!(rt; printed.as_slice() == text.as_slice());
    Ok(())
}

// How often a byte stands in a text.
fn count(text: &[u8], wanted: u8) -> usize {
    text.iter().filter(|byte| **byte == wanted).count()
}

#[test]
fn a_number_is_read_with_zeros_before_it(rt: HostRuntime) -> Result<(), Fail> {
    let alloc = rt.alloc();
    let (_, text) = written(&rt, alloc, &["make", "5"], b"", &[])?;
    let (status, same) = written(&rt, alloc, &["make", "0000000000000000000005"], b"", &[])?;
    assert!(rt; status == Status::Done && same.as_slice() == text.as_slice());
    let (status, other) = written(&rt, alloc, &["make", "4294967295"], b"", &[])?;
    assert!(rt; status == Status::Done && other.as_slice() != text.as_slice());
    Ok(())
}

// What stands for all the bytes of a text: each is added to 31 times the bytes before.
fn measure(text: &[u8]) -> u32 {
    let mut all: u32 = 0;
    for byte in text {
        all = all.wrapping_mul(31).wrapping_add(u32::from(*byte));
    }
    all
}

#[test]
fn whole_texts_are_those_of_another_program(rt: HostRuntime) -> Result<(), Fail> {
    for (number, all) in [
        ("0", 77_022_900),
        ("1", 2_755_813_863),
        ("5", 2_903_009_235),
        ("4294967295", 3_280_827_103),
    ] {
        let (status, text) = written(&rt, rt.alloc(), &["make", number], b"", &[])?;
        assert_eq!(rt; status, Status::Done);
        assert_eq!(rt; (count(&text, b'\n'), measure(&text)), (2_618, all));
    }
    Ok(())
}

// The words of replies, in the order of their numbers.
const WORDS: [&str; 25] = [
    "ok",
    "no-slot",
    "empty",
    "wrong-cap",
    "occupied",
    "quiescing",
    "unflushed",
    "frame-kind",
    "out-of-range",
    "referenced",
    "not-empty",
    "dead",
    "deep",
    "bottom",
    "running",
    "short",
    "unlike",
    "too-many",
    "same",
    "epochs-spent",
    "raced",
    "busy",
    "fault",
    "calls-spent",
    "no-right",
];

// How many of these lines tell a reply of this word, or of any word where none is told.
fn replies(text: &str, word: Option<&str>) -> u32 {
    let mut count: u32 = 0;
    for line in text.lines() {
        if let Some((_, reply)) = line.split_once(" = ") {
            let name = match reply.split_once(' ') {
                Some((name, _)) => name,
                None => reply,
            };
            if word.is_none_or(|word| word == name) {
                count = count.saturating_add(1);
            }
        }
    }
    count
}

// The summary of what `replay` has written.
fn summary_of(alloc: Global, text: &str) -> Result<String, Fail> {
    let mut summary = String::new(alloc);
    for word in WORDS {
        let count = replies(text, Some(word));
        if count > 0 {
            write!(summary, "{word} {count}\n")?;
        }
    }
    let calls = replies(text, None);
    let last = text.lines().last().unwrap_or("");
    write!(summary, "calls {calls}\n{last}\n")?;
    Ok(summary)
}

#[test]
fn a_load_sums_up_what_replay_writes(rt: HostRuntime) -> Result<(), Fail> {
    let alloc = rt.alloc();
    for number in ["1", "5"] {
        let (_, script) = written(&rt, alloc, &["make", number], b"", &[])?;
        let (status, text) = written(&rt, alloc, &["replay"], &script, &[])?;
        let (loaded, summary) = written(&rt, alloc, &["load", number], b"", &[1])?;
        assert!(rt;
            status == Status::Done && loaded == Status::Done,
            "{number}"
        );
        let text = from_utf8(&text).unwrap_or("");
        let wanted = summary_of(alloc, text)?;
        assert!(rt; summary.as_slice() == wanted.as_bytes(), "{number}");
    }
    Ok(())
}

#[test]
fn a_summary_counts_the_replies_of_a_replay(rt: HostRuntime) -> Result<(), Fail> {
    let alloc = rt.alloc();
    let script = format!(in alloc;
        "{MACHINE}core 0\ncopy 0 1 20\ntick 30\nretype 0 8 user\nretype 0 8 user\ncore 1\ncopy 0 1 20\nlook 64\nkill 3\nkill 3\norder\n0< 1< 0! 1!\n"
    )?;
    let wanted = "ok 4\nno-slot 1\nframe-kind 1\ndead 1\nraced 1\ncalls 8\ntotal 200\n";
    let (status, text) = written(&rt, alloc, &["replay"], script.as_bytes(), &[])?;
    assert!(rt; status == Status::Done);
    let counted = summary_of(alloc, from_utf8(&text).unwrap_or(""))?;
    assert_eq!(rt; counted.as_str(), wanted);
    match sum_up(alloc, script.as_bytes()) {
        Ok(Summed::Done { text }) => assert_eq!(rt; text.as_str(), wanted),
        _ => assert!(rt; false),
    }
    Ok(())
}

// What each core of the long script does in a round: two copies to one place, of which the second finds it held, and two looks, of
// which the second comes after the removal.
const ROUND: &str = "copy 0 1 63\ncopy 0 1 63\nlook 63\nremove 1 63\nlook 63\n";

// A script of nearly 20,000 lines, the most that a script has: 499 rounds of each of 8 cores, at 512 frames.
fn long_script(alloc: Global) -> Result<String, Fail> {
    let mut script = String::from_str(alloc, "speck 1\ncores 8\nframes 512\n")?;
    for _ in 0..8 {
        write!(script, "grant 100 0 1\n")?;
    }
    for core in 0..8 {
        write!(script, "core {core}\n")?;
        for _ in 0..499 {
            script.push_str(ROUND)?;
        }
    }
    Ok(script)
}

#[test]
fn the_longest_lists_are_made_alone_on_the_largest_machine(rt: HostRuntime) -> Result<(), Fail> {
    let alloc = rt.alloc();
    let script = long_script(alloc)?;
    let (status, text) = written(&rt, alloc, &["plain"], script.as_bytes(), &[])?;
    assert!(rt; status == Status::Done);
    let counted = summary_of(alloc, from_utf8(&text).unwrap_or(""))?;
    assert_eq!(rt;
        counted.as_str(),
        "ok 11976\nempty 3992\noccupied 3992\ncalls 19960\ntotal 800\n"
    );
    Ok(())
}
