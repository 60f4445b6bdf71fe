//! The words of a line from a place on, and up to a place.

ghost use Rattle.std.specs.Prelude.{◌≡◌, take, drop};
ghost use Rattle.line_reader.specs.Arguments.{texts};

use script_tokens::Token;

/// The words from a place on; none where the line ends before it.
#[tactic(auto, using(crate::proofs::WordTexts::texts_from))]
pub fn words_from<'a, 'b>(words: &'b [Token<'a>], place: usize) -> &'b [Token<'a>]
    ensures { texts result.now ≡ drop place (texts words.now) }
{
    if place <= words.len() {
        &words[place..]
    } else {
        &words[words.len()..]
    }
}

/// The words before a place.
#[tactic(auto, using(crate::proofs::WordTexts::texts_before))]
pub fn words_before<'a, 'b>(words: &'b [Token<'a>], place: usize) -> &'b [Token<'a>]
    ensures { texts result.now ≡ take place (texts words.now) }
{
    if place <= words.len() {
        &words[..place]
    } else {
        words
    }
}
