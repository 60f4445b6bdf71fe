//! The words of the machine at the start.
//!
//! The table is filled place by place. Each write puts the start state's word at its place, so it leaves every word that
//! is right already as it is: the order of the writes is free, and places are the layout's alone.

ghost use Rattle.std.specs.Prelude.{◌≡◌, ℕ, ◌<◌, ◌≤◌, ◌==◌, if◌then◌else◌, IfOk, length, pos, None, Some, [], ◌∷◌, slice_get};
ghost use Rattle.kernel_history.specs.spk_nums.specs.Setting.{IsSetting};
ghost use Rattle.kernel_history.specs.spk_nums.specs.declared.kinds.FrameKind.TheVariants as frame_kind;
ghost use Rattle.kernel_history.specs.spk_nums.specs.declared.kinds.Kind.TheVariants as kind;
ghost use Rattle.kernel_history.specs.entry_words.specs.EntryWord.{word_of_entry};
ghost use Rattle.kernel_history.specs.frame_words.specs.Count.{CountFits};
ghost use Rattle.kernel_history.specs.frame_words.specs.Live.{LiveFits};
ghost use Rattle.kernel_history.specs.frame_words.specs.declared.count_word.Hold.TheVariants.{Unheld};
ghost use Rattle.kernel_history.specs.kernel_rules.specs.State.{Holds, Free};
ghost use Rattle.kernel_history.specs.kernel_rules.specs.Start.{start, start_cap, core_cap, start_frame, start_comp};
ghost use Rattle.kernel_history.specs.kernel_rules.specs.Start.{start_number, granted, plain_cap, place_with};
ghost use Rattle.kernel_history.specs.kernel_rules.specs.References.{refs};
ghost use Rattle.kernel_history.specs.word_map.specs.Word.{Word, EntryAt, FrameAt, CountAt, CoreAt, FlushAt, LiveAt, ClockAt};
ghost use Rattle.kernel_history.specs.word_map.specs.Places.{IsIn, size_of};
ghost use Rattle.kernel_history.specs.ObjectWords.{frame_value, comp_word};
ghost use Rattle.kernel_history.specs.BootWords.{boot_word, boot_entry, boot_thread, boot_tcap, boot_live, shape_of};
ghost use Rattle.kernel_history.specs.FinalWords.{word_in};
ghost use Rattle.boot_words.specs.Filling.{IsFrameRight, IsCoreRight, IsRight, Fills, Puts};

use kernel_history::entry_words::Entry;
use kernel_history::frame_words::{
    CompWord, CoreWord, CountWord, FlushWord, FrameWord, Hold, LiveWord,
};
use kernel_history::spk_nums::{
    Cap, CoreNo, EntryNo, FrameKind, FrameNo, Grant, Kind, Memory, Obj, Setup, Stamp,
};
use kernel_history::tcap_words::{HeadWord, QualityWord, StackWord, ThreadWord};
use kernel_history::word_map::Layout;
use std::alloc::{AllocError, Global};

// The capability of a core at a place of the first leaf: to its thread, or to its temporal capability.
fn core_cap(setup: &Setup, index: u16) -> Option<Cap>
    ensures { result ≡ core_cap setup.now index }
{
    let cores = u16::from(setup.cores());
    if index < 4 {
        return None;
    }
    if index < 4 + cores {
        return Some(Cap::new(Kind::Thread, FrameNo::new(index), 0));
    }
    if index < 12 {
        return None;
    }
    if index < 12 + cores {
        return Some(Cap::new(Kind::Tcap, FrameNo::new(4 + cores + (index - 12)), 0));
    }
    None
}

// The capability at a place of the first leaf.
fn start_cap(setup: &Setup, index: u16) -> Option<Cap>
    ensures { result ≡ start_cap setup.now index }
{
    if index == 0 {
        let cores = u16::from(setup.cores());
        let rest = setup.frames() - 4 - 2 * cores;
        return Some(Cap::new(Kind::Range, FrameNo::new(4 + 2 * cores), u32::from(rest)));
    }
    if index == 1 {
        return Some(Cap::new(Kind::Table, FrameNo::new(0), 0));
    }
    if index == 2 {
        return Some(Cap::new(Kind::Pages, FrameNo::new(2), 0));
    }
    if index == 3 {
        return Some(Cap::new(Kind::Comp, FrameNo::new(3), 0));
    }
    core_cap(setup, index)
}

fn place_word(cap: Option<Cap>) -> u64
    ensures { result ≡ word_of_entry (boot_entry (place_with cap)) }
{
    match cap {
        None => Entry::Free.pack(),
        Some(cap) => Entry::Held(cap).pack(),
    }
}

fn root_word(index: u16) -> u64
    ensures { result ≡ word_of_entry (boot_entry (if index == 0 then Holds (plain_cap kind.Link 1) else Free)) }
{
    if index == 0 {
        Entry::Held(Cap::new(Kind::Link, FrameNo::new(1), 0)).pack()
    } else {
        Entry::Free.pack()
    }
}

fn comp_word(index: u16) -> u64
    ensures { result ≡ comp_word start_comp index }
{
    match index {
        0 => 0,
        1 => 2,
        2 => CompWord {
            number: 0,
            epoch: 1,
        }
        .pack(),
        _ => 0,
    }
}

fn thread_word(core: CoreNo, index: u16) -> u64
    ensures { result ≡ boot_thread (record { stack = 3 ∷ []; runs_on = Some core }) index }
{
    match index {
        0 => ThreadWord::Running { core, depth: 1 }.pack(),
        1 => StackWord(Some(FrameNo::new(3))).pack(),
        _ => StackWord(None).pack(),
    }
}

fn tcap_word(setup: &Setup, core: u16, index: u16) -> u64
    ensures { result ≡ boot_tcap (granted (slice_get setup.now.grants core)) index }
{
    let grant = setup.grants().get(usize::from(core));
    if index == 0 {
        return HeadWord {
            budget: budget(grant),
            mark: None,
            version: 0,
        }
        .pack();
    }
    match grant {
        Some(grant) if index == 1 => QualityWord(Some((grant.sched, grant.quality))).pack(),
        _ => QualityWord(None).pack(),
    }
}

fn budget(grant: Option<Grant>) -> u32
    ensures { result ≡ (granted grant).budget }
{
    match grant {
        None => 0,
        Some(grant) => grant.budget,
    }
}

// The word of a frame's place at the start.
fn entry_word(setup: &Setup, frame: u16, index: u16) -> u64
    ensures { result ≡ boot_word setup.now (EntryAt frame index) }
{
    let cores = u16::from(setup.cores());
    if frame == 0 {
        return root_word(index);
    }
    if frame == 1 {
        return place_word(start_cap(setup, index));
    }
    if frame == 2 {
        return Entry::Free.pack();
    }
    if frame == 3 {
        return comp_word(index);
    }
    if frame < 4 + cores {
        return thread_word(CoreNo::new((frame - 4) as u8), index);
    }
    if frame < 4 + 2 * cores {
        return tcap_word(setup, frame - 4 - cores, index);
    }
    0
}

fn kernel_frame(object: Obj) -> FrameWord
    ensures { result ≡ record { kind = frame_kind.Kernel; object = object; mark = None } }
{
    FrameWord {
        kind: FrameKind::Kernel,
        object,
        mark: None,
    }
}

// What the word of a frame says at the start.
fn frame_word(setup: &Setup, frame: u16) -> FrameWord
    ensures { result ≡ frame_value (start_frame setup.now frame) }
{
    let cores = u16::from(setup.cores());
    if frame == 0 {
        return kernel_frame(Obj::Table);
    }
    if frame == 1 {
        return kernel_frame(Obj::Leaf);
    }
    if frame == 2 {
        return kernel_frame(Obj::Pages);
    }
    if frame == 3 {
        return kernel_frame(Obj::Comp);
    }
    if frame < 4 + cores {
        return kernel_frame(Obj::Thread);
    }
    if frame < 4 + 2 * cores {
        return kernel_frame(Obj::Tcap);
    }
    FrameWord {
        kind: FrameKind::Untyped,
        object: Obj::Blank,
        mark: None,
    }
}

// The references to a frame at the start.
fn references(setup: &Setup, frame: u16) -> u8
    requires { frame < setup.now.frames }
    ensures value { result ≡ refs (start setup.now) frame }
    ensures most { result ≤ 10 }
{
    let cores = setup.cores();
    if frame == 0 {
        return 2;
    }
    if frame == 1 {
        return 1;
    }
    if frame == 2 {
        return 2;
    }
    if frame == 3 {
        return 2 + cores;
    }
    if frame < 4 + 2 * u16::from(cores) {
        return 2;
    }
    0
}

// The references to a frame that a core counts at the start: core 0 counts all.
fn counted(setup: &Setup, frame: u16, core: u8) -> u8
    requires { frame < setup.now.frames }
    ensures value { result ≡ (if core == 0 then refs (start setup.now) frame else 0) }
    ensures most { result ≤ 10 }
{
    if core == 0 {
        references(setup, frame)
    } else {
        0
    }
}

fn count_word(setup: &Setup, frame: u16, core: u8) -> CountWord
    requires { frame < setup.now.frames }
    ensures value { result ≡ record {
      hold = Unheld;
      count = pos (if core == 0 then refs (start setup.now) frame else 0);
      stamp = 0;
    } }
    ensures fits { CountFits result }
{
    CountWord {
        hold: Hold::Unheld,
        count: i32::from(counted(setup, frame, core)),
        stamp: Stamp::new(0),
    }
}

fn live_word(number: u8) -> LiveWord
    ensures value { result ≡ boot_live (start_number number) }
    ensures fits { LiveFits result }
{
    if number == 0 {
        LiveWord::Live {
            epoch: 1,
            frame: FrameNo::new(3),
        }
    } else {
        LiveWord::Free
    }
}

// The word of a frame's place is put.
fn put_entry(words: &mut [u64], setup: &Setup, layout: &Layout, frame: FrameNo, entry: EntryNo)
    requires limits { IsSetting setup.now }
    requires shape { layout.now ≡ shape_of setup.now }
    requires size { length words.old ≡ size_of (shape_of setup.now) }
    requires is_in { IsIn (shape_of setup.now) (EntryAt frame entry) }
    ensures { Puts setup.now words.old words.new (EntryAt frame entry) }
{
    let at = layout.entry_at(frame, entry);
    words[at as usize] = entry_word(setup, frame.number(), entry.number());
}

// The word of a frame is put.
fn put_frame(words: &mut [u64], setup: &Setup, layout: &Layout, frame: FrameNo)
    requires limits { IsSetting setup.now }
    requires shape { layout.now ≡ shape_of setup.now }
    requires size { length words.old ≡ size_of (shape_of setup.now) }
    requires is_in { IsIn (shape_of setup.now) (FrameAt frame) }
    ensures { Puts setup.now words.old words.new (FrameAt frame) }
{
    let at = layout.frame_at(frame);
    words[at as usize] = frame_word(setup, frame.number()).pack();
}

// The word in which a core counts the references to a frame is put.
fn put_count(words: &mut [u64], setup: &Setup, layout: &Layout, frame: FrameNo, core: CoreNo)
    requires limits { IsSetting setup.now }
    requires shape { layout.now ≡ shape_of setup.now }
    requires size { length words.old ≡ size_of (shape_of setup.now) }
    requires is_in { IsIn (shape_of setup.now) (CountAt frame core) }
    ensures { Puts setup.now words.old words.new (CountAt frame core) }
{
    let at = layout.count_at(frame, core);
    words[at as usize] = count_word(setup, frame.number(), core.number()).pack();
}

// The word of a core is put.
fn put_core(words: &mut [u64], setup: &Setup, layout: &Layout, core: CoreNo)
    requires limits { IsSetting setup.now }
    requires shape { layout.now ≡ shape_of setup.now }
    requires size { length words.old ≡ size_of (shape_of setup.now) }
    requires is_in { IsIn (shape_of setup.now) (CoreAt core) }
    ensures { Puts setup.now words.old words.new (CoreAt core) }
{
    let at = layout.core_at(core);
    let word = CoreWord {
        inside: false,
        stamp: Stamp::new(0),
    };
    words[at as usize] = word.pack();
}

// The flush word of a core is put.
fn put_flush(words: &mut [u64], setup: &Setup, layout: &Layout, core: CoreNo)
    requires limits { IsSetting setup.now }
    requires shape { layout.now ≡ shape_of setup.now }
    requires size { length words.old ≡ size_of (shape_of setup.now) }
    requires is_in { IsIn (shape_of setup.now) (FlushAt core) }
    ensures { Puts setup.now words.old words.new (FlushAt core) }
{
    let at = layout.flush_at(core);
    let word = FlushWord {
        stamp: Stamp::new(0),
    };
    words[at as usize] = word.pack();
}

// The word of a liveness number is put.
fn put_live(words: &mut [u64], setup: &Setup, layout: &Layout, number: u8)
    requires limits { IsSetting setup.now }
    requires shape { layout.now ≡ shape_of setup.now }
    requires size { length words.old ≡ size_of (shape_of setup.now) }
    requires is_in { IsIn (shape_of setup.now) (LiveAt number) }
    ensures { Puts setup.now words.old words.new (LiveAt number) }
{
    let at = layout.live_at(number);
    words[at as usize] = live_word(number).pack();
}

// The clock is put.
fn put_clock(words: &mut [u64], setup: &Setup, layout: &Layout)
    requires limits { IsSetting setup.now }
    requires shape { layout.now ≡ shape_of setup.now }
    requires size { length words.old ≡ size_of (shape_of setup.now) }
    ensures { Puts setup.now words.old words.new ClockAt }
{
    let at = layout.clock_at();
    words[at as usize] = 1;
}

// The words of a frame's places are put.
fn put_entries(words: &mut [u64], setup: &Setup, layout: &Layout, frame: FrameNo)
    requires limits { IsSetting setup.now }
    requires shape { layout.now ≡ shape_of setup.now }
    requires size { length words.old ≡ size_of (shape_of setup.now) }
    requires is_in { frame < setup.now.frames }
    ensures fills { Fills setup.now words.old words.new }
    ensures right { (i : ℕ) → i < 64 → IsRight setup.now words.new (EntryAt frame i) }
{
    'entries: for entry in 0..64 {
        put_entry(words, setup, layout, frame, EntryNo::new(entry));
    }
}

// The words in which the cores count the references to a frame are put.
fn put_counts(words: &mut [u64], setup: &Setup, layout: &Layout, frame: FrameNo)
    requires limits { IsSetting setup.now }
    requires shape { layout.now ≡ shape_of setup.now }
    requires size { length words.old ≡ size_of (shape_of setup.now) }
    requires is_in { frame < setup.now.frames }
    ensures fills { Fills setup.now words.old words.new }
    ensures right { (c : ℕ) → c < setup.now.cores → IsRight setup.now words.new (CountAt frame c) }
{
    'counts: for core in 0..setup.cores() {
        put_count(words, setup, layout, frame, CoreNo::new(core));
    }
}

// All words of a frame are put.
fn put_whole_frame(words: &mut [u64], setup: &Setup, layout: &Layout, frame: FrameNo)
    requires limits { IsSetting setup.now }
    requires shape { layout.now ≡ shape_of setup.now }
    requires size { length words.old ≡ size_of (shape_of setup.now) }
    requires is_in { frame < setup.now.frames }
    ensures fills { Fills setup.now words.old words.new }
    ensures right { IsFrameRight setup.now words.new frame }
{
    put_entries(words, setup, layout, frame);
    put_frame(words, setup, layout, frame);
    put_counts(words, setup, layout, frame);
}

// The words of all frames are put.
fn put_frames(words: &mut [u64], setup: &Setup, layout: &Layout)
    requires limits { IsSetting setup.now }
    requires shape { layout.now ≡ shape_of setup.now }
    requires size { length words.old ≡ size_of (shape_of setup.now) }
    ensures fills { Fills setup.now words.old words.new }
    ensures right { (f : ℕ) → f < setup.now.frames → IsFrameRight setup.now words.new f }
{
    'frames: for frame in 0..setup.frames() {
        put_whole_frame(words, setup, layout, FrameNo::new(frame));
    }
}

// The words of all cores are put.
fn put_cores(words: &mut [u64], setup: &Setup, layout: &Layout)
    requires limits { IsSetting setup.now }
    requires shape { layout.now ≡ shape_of setup.now }
    requires size { length words.old ≡ size_of (shape_of setup.now) }
    ensures fills { Fills setup.now words.old words.new }
    ensures right { (c : ℕ) → c < setup.now.cores → IsCoreRight setup.now words.new c }
{
    'cores: for core in 0..setup.cores() {
        put_core(words, setup, layout, CoreNo::new(core));
        put_flush(words, setup, layout, CoreNo::new(core));
    }
}

// The words of all liveness numbers are put.
fn put_lives(words: &mut [u64], setup: &Setup, layout: &Layout)
    requires limits { IsSetting setup.now }
    requires shape { layout.now ≡ shape_of setup.now }
    requires size { length words.old ≡ size_of (shape_of setup.now) }
    ensures fills { Fills setup.now words.old words.new }
    ensures right { (l : ℕ) → l < 64 → IsRight setup.now words.new (LiveAt l) }
{
    'numbers: for number in 0..64 {
        put_live(words, setup, layout, number);
    }
}

// All words are put.
fn put_all(words: &mut [u64], setup: &Setup, layout: &Layout)
    requires limits { IsSetting setup.now }
    requires shape { layout.now ≡ shape_of setup.now }
    requires size { length words.old ≡ size_of (shape_of setup.now) }
    ensures size { length words.new ≡ length words.old }
    ensures right { (w : Word) → IsIn (shape_of setup.now) w → IsRight setup.now words.new w }
{
    put_frames(words, setup, layout);
    put_cores(words, setup, layout);
    put_lives(words, setup, layout);
    put_clock(words, setup, layout);
}

fn filled(alloc: Global, setup: &Setup, layout: &Layout) -> Result<Vec<u64>, AllocError>
    requires limits { IsSetting setup.now }
    requires shape { layout.now ≡ shape_of setup.now }
    ensures length { IfOk result (λ words. length words.items ≡ size_of (shape_of setup.now)) }
    ensures words { IfOk result (λ words. (w : Word) → IsIn (shape_of setup.now) w
        → word_in (shape_of setup.now) words.items w ≡ boot_word setup.now w) }
{
    let mut words = vec![in alloc; 0; layout.size() as usize]?;
    put_all(&mut words, setup, layout);
    Ok(words)
}

/// The words of a machine at the start, by their places: those of the start state. The clock is 1, no word is marked, every
/// stamp and version is 0, and core 0's words count the references to each frame.
///
/// # Errors
///
/// `Memory` where memory has run out.
pub fn boot_words(alloc: Global, setup: &Setup) -> Result<Vec<u64>, Memory>
    ensures length { IfOk result (λ words. length words.items ≡ size_of (shape_of setup.now)) }
    ensures words { IfOk result (λ words. (w : Word) → IsIn (shape_of setup.now) w
        → word_in (shape_of setup.now) words.items w ≡ boot_word setup.now w) }
{
    let cores = setup.cores();
    let frames = setup.frames();
    let Some(layout) = Layout::new(cores, frames) else {
        // A setup is within the limits of a layout.
        return Ok(Vec::new(alloc));
    };
    let words = filled(alloc, setup, &layout)?;
    Ok(words)
}
