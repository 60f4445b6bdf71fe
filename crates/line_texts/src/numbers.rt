//! Numbers, digit by digit.

ghost use Rattle.std.specs.Prelude.{◌≡◌, ◌<◌, ◌+◌, ◌++◌, ◌∷◌, [], OnOk, string_bytes, decimal, codes};
ghost use Rattle.spk_nums.specs.Texts.{with_one, with_two, with_three, site_text};

use std::alloc::AllocError;

// A digit, by its number.
#[inline]
fn push_digit(text: &mut String, digit: u32) -> Result<(), AllocError>
    requires { digit < 10 }
    ensures { OnOk result (string_bytes text.new ≡ string_bytes text.old ++ (48 + digit) ∷ []) }
{
    text.push(char::from(b'0' + digit as u8))
}

#[inline]
#[tactic(auto, using(crate::proofs::Digits::one_digit))]
fn push_below_ten(text: &mut String, number: u32) -> Result<(), AllocError>
    requires { number < 10 }
    ensures { OnOk result (string_bytes text.new ≡ string_bytes text.old ++ decimal number) }
{
    push_digit(text, number)?;
    Ok(())
}

#[inline]
#[tactic(auto, using(crate::proofs::Digits::then_digit))]
fn push_two(text: &mut String, number: u32) -> Result<(), AllocError>
    requires { number < 100 }
    ensures { OnOk result (string_bytes text.new ≡ string_bytes text.old ++ decimal number) }
{
    if number < 10 {
        return push_below_ten(text, number);
    }
    push_below_ten(text, number / 10)?;
    push_digit(text, number % 10)?;
    Ok(())
}

#[inline]
#[tactic(auto, using(crate::proofs::Digits::then_digit))]
fn push_three(text: &mut String, number: u32) -> Result<(), AllocError>
    requires { number < 1000 }
    ensures { OnOk result (string_bytes text.new ≡ string_bytes text.old ++ decimal number) }
{
    if number < 10 {
        return push_below_ten(text, number);
    }
    push_two(text, number / 10)?;
    push_digit(text, number % 10)?;
    Ok(())
}

#[inline]
#[tactic(auto, using(crate::proofs::Digits::then_digit))]
fn push_four(text: &mut String, number: u32) -> Result<(), AllocError>
    requires { number < 10000 }
    ensures { OnOk result (string_bytes text.new ≡ string_bytes text.old ++ decimal number) }
{
    if number < 10 {
        return push_below_ten(text, number);
    }
    push_three(text, number / 10)?;
    push_digit(text, number % 10)?;
    Ok(())
}

// A number of any length, apart: one of a single digit then needs no room for what the others take.
#[inline(never)]
fn push_long(text: &mut String, number: u32) -> Result<(), AllocError>
    ensures { OnOk result (string_bytes text.new ≡ string_bytes text.old ++ decimal number) }
{
    if number < 10_000 {
        return push_four(text, number);
    }
    write!(text, "{number}")
}

/// Appends a number.
#[inline]
pub fn push_number(text: &mut String, number: u32) -> Result<(), AllocError>
    ensures { OnOk result (string_bytes text.new ≡ string_bytes text.old ++ decimal number) }
{
    if number < 10 {
        return push_below_ten(text, number);
    }
    push_long(text, number)
}

/// Appends a space and a number.
#[inline]
pub fn push_spaced(text: &mut String, number: u32) -> Result<(), AllocError>
    ensures { OnOk result (string_bytes text.new ≡ string_bytes text.old ++ (codes " " ++ decimal number)) }
{
    text.push(' ')?;
    push_number(text, number)
}

/// Appends a word, and a number after it.
pub fn push_one(text: &mut String, word: &'static str, a: u32) -> Result<(), AllocError>
    ensures { OnOk result (string_bytes text.new ≡ string_bytes text.old ++ with_one word.now a) }
{
    text.push_str(word)?;
    push_spaced(text, a)
}

/// Appends a word, and two numbers after it.
pub fn push_pair(text: &mut String, word: &'static str, a: u32, b: u32) -> Result<(), AllocError>
    ensures { OnOk result (string_bytes text.new ≡ string_bytes text.old ++ with_two word.now a b) }
{
    text.push_str(word)?;
    push_spaced(text, a)?;
    push_spaced(text, b)
}

/// Appends a word, and three numbers after it.
pub fn push_triple(
    text: &mut String,
    word: &'static str,
    a: u32,
    b: u32,
    c: u32,
) -> Result<(), AllocError>
    ensures { OnOk result (string_bytes text.new ≡ string_bytes text.old ++ with_three word.now a b c) }
{
    text.push_str(word)?;
    push_spaced(text, a)?;
    push_spaced(text, b)?;
    push_spaced(text, c)
}

/// Appends four numbers, with a space between.
pub fn push_four_numbers(
    text: &mut String,
    a: u32,
    b: u32,
    c: u32,
    d: u32,
) -> Result<(), AllocError>
    ensures { OnOk result (string_bytes text.new ≡ string_bytes text.old ++ site_text a b c d) }
{
    push_number(text, a)?;
    push_spaced(text, b)?;
    push_spaced(text, c)?;
    push_spaced(text, d)
}
