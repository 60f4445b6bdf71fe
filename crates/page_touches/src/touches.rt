//! The words of the table, and the frames' words.

ghost use Rattle.std.specs.Prelude.{◌≡◌, ◌+◌, ◌*◌, ◌<◌, ◌≤◌, IfOk, Some, true, false, replicate, if◌then◌else◌, nat_lt, slice_index_or, slice_set};
ghost use Rattle.spk_nums.specs.declared.kinds.Obj.TheVariants.{Thread, Tcap};
ghost use Rattle.page_layers.specs.step_views.specs.Names.{named};
ghost use Rattle.page_layers.specs.Seen.{seen_made};
ghost use Rattle.page_layers.specs.Layers.{is_blamed};
ghost use Rattle.page_touches.specs.Touches.{untouched, touched, is_told, is_clock, is_first, is_told_of, met_by, tail_of};
ghost use Rattle.page_touches.specs.Touches.{kernel_word, untyped_word, start_word, start_words, frames_after, frame_of};

use frame_words::FrameWord;
use page_layers::step_views::{StepMade, WordName};
use page_layers::{Change, is_blamed};
use spk_nums::{FrameKind, Obj};
use std::alloc::{AllocError, Global};

/// A word: its newest change, and which cores have come to it since.
#[derive(Clone, Copy)]
pub struct Touch {
    pub change: Option<Change>,
    pub cores: [bool; 8],
}

/// A word that no step has changed.
pub fn untouched() -> Touch
    ensures { result ≡ untouched }
{
    Touch {
        change: None,
        cores: [false; 8],
    }
}

// The newest change of a word after a step that makes this change, or none.
fn newest(old: &Option<Change>, changes: bool, change: &Change) -> Option<Change>
    ensures { result ≡ (if changes then Some change.now else old.now) }
{
    if changes { Some(*change) } else { *old }
}

// The cores that have come to a word since its newest change, but for the one that steps on it.
fn cores_since(cores: [bool; 8], changes: bool) -> [bool; 8]
    ensures { result ≡ (if changes then replicate 8 false else cores) }
{
    if changes { [false; 8] } else { cores }
}

/// Notes a step on a word.
pub fn note_touch(word: &mut Touch, changes: bool, change: &Change)
    ensures { word.new ≡ touched changes change.now word.old }
{
    let newest = newest(&word.change, changes, change);
    let mut cores = cores_since(word.cores, changes);
    cores[usize::from(change.core.number())] = true;
    word.change = newest;
    word.cores = cores;
}

fn is_told(word: &WordName) -> bool
    ensures { result ≡ is_told (named word.now) }
{
    match word {
        WordName::Entry { .. } => true,
        WordName::Frame { .. } => true,
        WordName::Live { .. } => true,
        _ => false,
    }
}

fn is_clock(word: &WordName) -> bool
    ensures { result ≡ is_clock (named word.now) }
{
    match word {
        WordName::Clock => true,
        _ => false,
    }
}

fn is_first(word: &Touch, made: &StepMade) -> bool
    ensures { result ≡ is_first word.now (seen_made made.now) }
{
    is_told(&made.view.word) && !word.cores[usize::from(made.view.core.number())]
}

fn is_told_of(word: &Touch, made: &StepMade) -> bool
    ensures { result ≡ is_told_of word.now (seen_made made.now) }
{
    is_first(word, made) || (is_blamed(&made.decides) && !is_clock(&made.view.word))
}

/// The change by which a step is met, where it is met.
pub fn tail_of(word: &Touch, made: &StepMade) -> Option<Change>
    ensures { result ≡ tail_of word.now (seen_made made.now) }
{
    let told = is_told_of(word, made);
    match word.change {
        None => None,
        Some(change) => {
            if told && change.core != made.view.core {
                Some(change)
            } else {
                None
            }
        }
    }
}

fn kernel_word(object: Obj) -> u64
    ensures { result ≡ kernel_word object }
{
    FrameWord {
        kind: FrameKind::Kernel,
        object,
        mark: None,
    }
    .pack()
}

fn untyped_word() -> u64
    ensures { result ≡ untyped_word }
{
    FrameWord {
        kind: FrameKind::Untyped,
        object: Obj::Blank,
        mark: None,
    }
    .pack()
}

/// So many words that no step has changed.
pub fn first_words(alloc: Global, size: u32) -> Result<Vec<Touch>, AllocError>
    ensures { IfOk result (λ words. words.items ≡ replicate size untouched) }
{
    let change: Option<Change> = None;
    let blank = Touch {
        change,
        cores: [false; 8],
    };
    let words = vec![in alloc; blank; size as usize]?;
    Ok(words)
}

// The word of a frame at the start, among so many cores.
fn start_word(cores: u8, frame: u16) -> u64
    ensures { result ≡ start_word cores frame }
{
    match frame {
        0 => kernel_word(Obj::Table),
        1 => kernel_word(Obj::Leaf),
        2 => kernel_word(Obj::Pages),
        3 => kernel_word(Obj::Comp),
        _ => later_word(cores, frame),
    }
}

fn later_word(cores: u8, frame: u16) -> u64
    ensures { result ≡ (if nat_lt frame (4 + cores) then kernel_word Thread else if nat_lt frame (4 + 2 * cores) then kernel_word Tcap
        else untyped_word) }
{
    let cores = u16::from(cores);
    if frame < 4 + cores {
        return kernel_word(Obj::Thread);
    }
    if frame < 4 + 2 * cores {
        return kernel_word(Obj::Tcap);
    }
    untyped_word()
}

/// The frames' words at the start, among so many cores.
pub fn start_words(alloc: Global, cores: u8, frames: u16) -> Result<Vec<u64>, AllocError>
    ensures { IfOk result (λ words. words.items ≡ start_words cores frames) }
{
    let mut words = Vec::new(alloc);
    'frames: for frame in 0..frames {
        words.push(start_word(cores, frame))?;
    }
    Ok(words)
}

/// Notes what a step leaves in a frame's word, where it has no mark.
pub fn note_frame(frames: &mut [u64], word: &WordName, left: u64)
    ensures { frames.new ≡ frames_after (named word.now) left frames.old }
{
    let WordName::Frame { frame } = word else {
        return;
    };
    let at = usize::from(frame.number());
    if left < 64 && at < frames.len() {
        frames[at] = left;
    }
}

/// The word of the frame that has a word; 0 for words of no frame.
pub fn frame_of(frames: &[u64], word: &WordName) -> u64
    ensures { result ≡ frame_of (named word.now) frames.now }
{
    let WordName::Entry { frame, entry: _ } = word else {
        return 0;
    };
    let at = usize::from(frame.number());
    if at < frames.len() { frames[at] } else { 0 }
}

/// The word at a place.
pub fn word_at(words: &[Touch], place: usize) -> Touch
    ensures { result ≡ slice_index_or words.now place untouched }
{
    if place < words.len() {
        words[place]
    } else {
        untouched()
    }
}

/// Notes a step on the word at a place.
pub fn note_word(words: &mut [Touch], place: usize, changes: bool, change: &Change)
    ensures { words.new ≡ slice_set words.old place (touched changes change.now (slice_index_or words.old place untouched)) }
{
    if place < words.len() {
        note_touch(&mut words[place], changes, change);
    }
}
