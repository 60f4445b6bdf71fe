//! The atomic step over the words.

ghost use Rattle.std.specs.Prelude.{◌≡◌, ◌<◌, length, slice_index, slice_set};
ghost use Rattle.spk_nums.specs.WordSteps.{left_by, place_in, told_by};

use spk_nums::WordOp;

/// One atomic step over the words: what it finds.
#[inline(always)]
pub(crate) fn perform(words: &mut Vec<u64>, op: &WordOp) -> u64
    requires { place_in op.now < length words.old.items }
    ensures found { result ≡ slice_index words.old.items (place_in op.now) }
    ensures left { words.new.items ≡ slice_set words.old.items (place_in op.now) (left_by op.now result) }
{
    match *op {
        WordOp::Load { at } => words[at as usize],
        WordOp::Compare { at, expected, word } => {
            let found = words[at as usize];
            if found == expected {
                words[at as usize] = word;
            }
            found
        }
        WordOp::Store { at, word } => {
            let found = words[at as usize];
            words[at as usize] = word;
            found
        }
        WordOp::Add { at, by } => {
            let found = words[at as usize];
            words[at as usize] = found.wrapping_add(by);
            found
        }
    }
}

/// What a core is told of the word found: a store tells it what it has stored.
#[inline(always)]
pub(crate) fn told(op: &WordOp, found: u64) -> u64
    ensures { result ≡ told_by op.now found }
{
    match *op {
        WordOp::Store { word, .. } => word,
        _ => found,
    }
}
