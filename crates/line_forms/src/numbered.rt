//! `C.I`, with which the line of a call made whole begins.

ghost use Rattle.std.specs.Prelude.{◌≡◌, ◌≤◌, ◌+◌, take, drop, length};
ghost use Rattle.line_forms.specs.Numbered.{dot_at, is_numbered, is_numbered_below};

use crate::slots::is_below;
use line_reader::{is_digits, read_number};

// Where the first dot of a word stands; its end where it has none.
fn dot_at(word: &[u8]) -> usize
    ensures value { result ≡ dot_at word.now }
    ensures within { result ≤ length word.now }
{
    let mut place = 0;
    let mut index = word.len();
    'bytes: while 0 < index {
        index -= 1;
        place = if word[index] == b'.' { 0 } else { place + 1 };
    }
    place
}

// The bytes before the dot.
fn before_dot(word: &[u8]) -> &[u8]
    ensures { result.now ≡ take (dot_at word.now) word.now }
{
    let dot = dot_at(word);
    &word[..dot]
}

// The bytes after the dot; none where there is no dot.
fn after_dot(word: &[u8]) -> &[u8]
    ensures { result.now ≡ drop (dot_at word.now + 1) word.now }
{
    let dot = dot_at(word);
    if dot < word.len() {
        &word[dot + 1..]
    } else {
        &word[word.len()..]
    }
}

/// The word is digits, a dot, and digits.
#[tactic(auto, unfolding(crate::specs::Numbered::is_numbered))]
pub fn is_numbered(word: &[u8]) -> bool
    ensures { result ≡ is_numbered word.now }
{
    is_digits(before_dot(word)) && is_digits(after_dot(word))
}

/// The number before the dot is below this one, and that after it is one.
#[tactic(auto, unfolding(crate::specs::Numbered::is_numbered_below))]
pub fn is_numbered_below(word: &[u8], cores: u8) -> bool
    ensures { result ≡ is_numbered_below word.now cores }
{
    is_below(before_dot(word), cores) && read_number(after_dot(word)).is_some()
}
