//! What single bytes are for.

ghost use Rattle.std.specs.Prelude.{◌≡◌};
ghost use Rattle.script_tokens.specs.Bytes.{is_word_byte, is_allowed};

/// True at the printed characters other than `#`.
pub fn is_word_byte(byte: u8) -> bool
    ensures { result ≡ is_word_byte byte }
{
    byte >= 33 && byte <= 126 && byte != b'#'
}

/// True where a byte may stand before `next`. A carriage return stands directly before a line feed alone.
pub fn is_allowed(byte: u8, next: Option<u8>) -> bool
    ensures { result ≡ is_allowed byte next }
{
    match byte {
        b'\t' | b'\n' => true,
        b'\r' => next == Some(b'\n'),
        _ => byte >= 32 && byte <= 126,
    }
}
