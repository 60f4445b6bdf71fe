//! The words of a line, each with its own judgement.

ghost use Rattle.std.specs.Prelude.{◌≡◌, ◌≤◌, IfOk};
ghost use Rattle.line_reader.specs.Arguments.{texts, lent, is_word, word_at, number_at, end_at};

use crate::cause::Cause;
use crate::numerals::read_number;
use script_tokens::Token;

/// The word is `name`.
#[tactic(auto, unfolding(crate::specs::Arguments::is_word))]
pub fn is_word(word: &[u8], name: &str) -> bool
    ensures { result ≡ is_word word.now name.now }
{
    word == name.as_bytes()
}

/// The word at a place.
#[tactic(auto, unfolding(crate::specs::Arguments::word_at))]
pub fn word_at<'a>(words: &[Token<'a>], place: usize) -> Result<&'a [u8], Cause>
    ensures { lent (λ w. w.now) result ≡ word_at (texts words.now) place }
{
    match words.get(place) {
        Some(word) => Ok(word.text),
        None => Err(Cause::S3),
    }
}

/// The number at a place, from `least` to `most`.
#[tactic(auto, unfolding(crate::specs::Arguments::number_at))]
pub fn number_at(words: &[Token], place: usize, least: u64, most: u64) -> Result<u64, Cause>
    ensures value { result ≡ number_at (texts words.now) place least most }
    ensures range { IfOk result (λ n. (least ≤ n) × (n ≤ most)) }
{
    let word = word_at(words, place)?;
    let number = read_number(word).ok_or(Cause::S1)?;
    if least <= number && number <= most {
        Ok(number)
    } else {
        Err(Cause::S5)
    }
}

/// The line ends before this place.
#[tactic(auto, unfolding(crate::specs::Arguments::end_at))]
pub fn end_at(words: &[Token], place: usize) -> Result<(), Cause>
    ensures { result ≡ end_at (texts words.now) place }
{
    if words.len() <= place {
        Ok(())
    } else {
        Err(Cause::S4)
    }
}
