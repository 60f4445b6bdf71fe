//! A word and where it stands.

/// A word of a script, lent from its bytes: `text` is the bytes from `start` up to `end`, and `line`
/// counts from 1.
#[derive(Clone, Copy, Debug)]
pub struct Token<'a> {
    pub text: &'a [u8],
    pub line: u32,
    pub start: u32,
    pub end: u32,
}
