//! The arguments of a line that are values of the kernel's, each with its own judgement.

ghost use Rattle.std.specs.Prelude.{◌≡◌, ◌≤◌, ◌<◌, IfOk};
ghost use Rattle.line_reader.specs.Arguments.{texts, number_at, name_at, amount_at, core_at};
ghost use Rattle.call_reader.specs.CallLines.{frame_kind_of, frame_kind_at};

use line_reader::{Cause, is_word, number_at, read_number, word_at};
use script_tokens::Token;
use spk_nums::{CapId, CoreNo, EntryNo, FrameArg, FrameKind, PageNo};

/// A small number at a place.
pub fn byte_at(words: &[Token], place: usize, least: u8, most: u8) -> Result<u8, Cause>
    ensures value { result ≡ number_at (texts words.now) place least most }
    ensures range { IfOk result (λ n. (least ≤ n) × (n ≤ most)) }
{
    let number = number_at(words, place, u64::from(least), u64::from(most))?;
    Ok(number as u8)
}

/// A number of at most 16 bits at a place.
pub fn half_at(words: &[Token], place: usize, least: u16, most: u16) -> Result<u16, Cause>
    ensures value { result ≡ number_at (texts words.now) place least most }
    ensures range { IfOk result (λ n. (least ≤ n) × (n ≤ most)) }
{
    let number = number_at(words, place, u64::from(least), u64::from(most))?;
    Ok(number as u16)
}

/// A number of at most 32 bits at a place.
pub fn whole_at(words: &[Token], place: usize, least: u32, most: u32) -> Result<u32, Cause>
    ensures value { result ≡ number_at (texts words.now) place least most }
    ensures range { IfOk result (λ n. (least ≤ n) × (n ≤ most)) }
{
    let number = number_at(words, place, u64::from(least), u64::from(most))?;
    Ok(number as u32)
}

/// The capability at a place.
pub fn capability_at(words: &[Token], place: usize) -> Result<CapId, Cause>
    ensures { result ≡ name_at (texts words.now) place }
{
    let number = half_at(words, place, 0, 65_535)?;
    Ok(CapId::new(number))
}

/// The page at a place.
pub fn page_at(words: &[Token], place: usize) -> Result<PageNo, Cause>
    ensures { result ≡ name_at (texts words.now) place }
{
    let number = half_at(words, place, 0, 65_535)?;
    Ok(PageNo::new(number))
}

/// The root entry at a place.
pub fn entry_at(words: &[Token], place: usize) -> Result<EntryNo, Cause>
    ensures { result ≡ name_at (texts words.now) place }
{
    let number = half_at(words, place, 0, 65_535)?;
    Ok(EntryNo::new(number))
}

/// The frame at a place.
pub fn frame_at(words: &[Token], place: usize) -> Result<FrameArg, Cause>
    ensures { result ≡ name_at (texts words.now) place }
{
    let number = half_at(words, place, 0, 65_535)?;
    Ok(FrameArg::new(number))
}

/// The count of frames at a place.
pub fn count_at(words: &[Token], place: usize) -> Result<u16, Cause>
    ensures { result ≡ name_at (texts words.now) place }
{
    half_at(words, place, 0, 65_535)
}

/// The amount at a place.
pub fn amount_at(words: &[Token], place: usize) -> Result<u32, Cause>
    ensures { result ≡ amount_at (texts words.now) place }
{
    whole_at(words, place, 0, 4_000_000_000)
}

/// The core at a place, below `cores`.
#[tactic(auto, unfolding(line_reader::specs::Arguments::core_at))]
pub fn core_at(words: &[Token], place: usize, cores: u8) -> Result<CoreNo, Cause>
    requires { cores ≤ 8 }
    ensures { result ≡ core_at (texts words.now) place cores }
{
    let word = word_at(words, place)?;
    let core = read_number(word).ok_or(Cause::S1)?;
    if core < u64::from(cores) {
        Ok(CoreNo::new(core as u8))
    } else {
        Err(Cause::S6)
    }
}

#[tactic(auto, unfolding(crate::specs::CallLines::frame_kind_of))]
fn frame_kind_of(word: &[u8]) -> Option<FrameKind>
    ensures { result ≡ frame_kind_of word.now }
{
    if is_word(word, "untyped") {
        Some(FrameKind::Untyped)
    } else if is_word(word, "user") {
        Some(FrameKind::User)
    } else if is_word(word, "kernel") {
        Some(FrameKind::Kernel)
    } else {
        None
    }
}

/// The kind of frame at a place.
#[tactic(auto, unfolding(crate::specs::CallLines::frame_kind_at))]
pub fn frame_kind_at(words: &[Token], place: usize) -> Result<FrameKind, Cause>
    ensures { result ≡ frame_kind_at (texts words.now) place }
{
    let word = word_at(words, place)?;
    frame_kind_of(word).ok_or(Cause::S2)
}
