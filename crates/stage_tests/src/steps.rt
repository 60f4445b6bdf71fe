//! Steps, in short.

use spk_nums::WordOp;

/// The load of the word at this place.
pub fn loads(at: u32) -> WordOp {
    WordOp::Load { at }
}

/// The store of a word there.
pub fn stores(at: u32, word: u64) -> WordOp {
    WordOp::Store { at, word }
}

/// The compare there of what is expected, which puts a word.
pub fn compares(at: u32, expected: u64, word: u64) -> WordOp {
    WordOp::Compare { at, expected, word }
}
