//! The first byte that may not stand in a text.

ghost use Rattle.std.specs.Prelude.{◌≡◌, ◌<◌, ◌^◌, length, slice_get};
ghost use Rattle.script_tokens.specs.Bytes.{is_allowed};
ghost use Rattle.fault_texts.specs.Bytes.{bad_byte, column_after};

/// A byte, and which byte of its line it is, counted from 1.
#[derive(Clone, Copy, Debug)]
pub struct BadByte {
    pub byte: u8,
    pub column: u64,
}

// A byte may stand before the next one.
fn is_allowed(byte: u8, next: Option<u8>) -> bool
    ensures { result ≡ is_allowed byte next }
{
    match byte {
        b'\t' | b'\n' => true,
        b'\r' => next == Some(b'\n'),
        _ => byte >= 32 && byte <= 126,
    }
}

fn byte_at(source: &[u8], at: usize) -> Option<u8>
    ensures { result ≡ slice_get source.now at }
{
    source.get(at).copied()
}

// The column of the byte after this one.
fn column_after(byte: u8, column: u64) -> u64
    requires { column < 2 ^ 33 }
    ensures { result ≡ column_after byte column }
{
    if byte == b'\n' { 1 } else { column + 1 }
}

/// The first byte that may not stand in a text of fewer than 2^32 bytes, if there is one.
pub fn bad_byte(source: &[u8]) -> Option<BadByte>
    requires { length source.now < 2 ^ 32 }
    ensures { result ≡ bad_byte source.now }
{
    let mut column = 1;
    'bytes: for at in 0..source.len() {
        let byte = source[at];
        if !is_allowed(byte, byte_at(source, at + 1)) {
            return Some(BadByte { byte, column });
        }
        column = column_after(byte, column);
    }
    None
}
