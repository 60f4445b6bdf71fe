//! Numbers as they are written.

ghost use Rattle.std.specs.Prelude.{◌≡◌};
ghost use Rattle.line_reader.specs.Numerals.{is_digit, all_digits, is_digits, number_of};

fn is_digit(byte: u8) -> bool
    ensures { result ≡ is_digit byte }
{
    byte >= 48 && byte <= 57
}

fn all_digits(word: &[u8]) -> bool
    ensures { result ≡ all_digits word.now }
{
    'digits: for byte in word {
        if !is_digit(*byte) {
            return false;
        }
    }
    true
}

/// One or more decimal digits.
pub fn is_digits(word: &[u8]) -> bool
    ensures { result ≡ is_digits word.now }
{
    !word.is_empty() && all_digits(word)
}

/// The number that a word stands for: None exactly where it is not digits, or above 2^64 - 1.
pub fn read_number(word: &[u8]) -> Option<u64>
    ensures { result ≡ number_of word.now }
{
    if word.is_empty() {
        return None;
    }
    let mut number: u64 = 0;
    'digits: for byte in word {
        if !is_digit(*byte) {
            return None;
        }
        number = number.checked_mul(10)?.checked_add(u64::from(*byte - 48))?;
    }
    Some(number)
}
