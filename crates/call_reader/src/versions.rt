//! What a version of the language allows.

ghost use Rattle.std.specs.Prelude.{◌≡◌, ◌≤◌, ◌-◌, ◌^◌};
ghost use Rattle.call_reader.specs.Versions.{most_calls};

/// The most that a `calls` line of a script of this version says, and what holds without it: at most 2^40 - 1.
pub fn most_calls(version: u8) -> u64
    ensures value { result ≡ most_calls version }
    ensures most { result ≤ 2 ^ 40 - 1 }
{
    if 3 <= version {
        (1 << 40) - 1
    } else {
        4_194_304
    }
}
