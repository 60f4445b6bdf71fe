//! The items of an order of steps.

ghost use Rattle.std.specs.Prelude.{◌≡◌, ◌≤◌, ◌<◌, true, IfOk, IfSome};
ghost use Rattle.line_reader.specs.Numerals.{is_digits, value_of};
ghost use Rattle.line_reader.specs.Arguments.{texts};
ghost use Rattle.script_reader.specs.Orders.{how_of, lent_parts, suffixed, parts_of, no_item, item_of, core_below, items_of};
ghost use Rattle.script_reader.specs.Readings.{Takes, BelowCores};

use call_reader::first_word;
use line_reader::{Cause, LineFault, is_digits, read_number};
use script_tokens::Token;
use spk_nums::{CoreNo, How, Item};

/// The most items of an order.
pub const MOST_ITEMS: usize = 200_000;

fn how_of(suffix: u8) -> Option<How>
    ensures { result ≡ how_of suffix }
{
    match suffix {
        b'<' => Some(How::Ready),
        b'!' => Some(How::Decide),
        b'.' => Some(How::Return),
        _ => None,
    }
}

// Digits with a suffix directly after.
fn suffixed(word: &[u8]) -> Option<(&[u8], How)>
    ensures value { lent_parts (λ p. record { digits = p.0.now; how = p.1 }) result ≡ suffixed word.now }
    ensures digits { IfSome result (λ p. is_digits p.0.now ≡ true) }
{
    let (last, digits) = word.split_last()?;
    let how = how_of(*last)?;
    if is_digits(digits) {
        Some((digits, how))
    } else {
        None
    }
}

// The digits of an item, and how far it goes on.
#[tactic(auto, unfolding(crate::specs::Orders::parts_of))]
fn parts_of(word: &[u8]) -> Option<(&[u8], How)>
    ensures value { lent_parts (λ p. record { digits = p.0.now; how = p.1 }) result ≡ parts_of word.now }
    ensures digits { IfSome result (λ p. is_digits p.0.now ≡ true) }
{
    if is_digits(word) {
        Some((word, How::One))
    } else {
        suffixed(word)
    }
}

// The core of these digits, below `cores`.
fn core_below(digits: &[u8], cores: u8) -> Result<CoreNo, Cause>
    requires digits { is_digits digits.now ≡ true }
    requires cores { cores ≤ 8 }
    ensures value { result ≡ core_below (value_of digits.now) cores }
    ensures below { IfOk result (λ core. core < cores) }
{
    match read_number(digits) {
        Some(number) => {
            if number < u64::from(cores) {
                Ok(CoreNo::new(number as u8))
            } else {
                Err(Cause::S6)
            }
        }
        None => Err(Cause::S6),
    }
}

// Why a word is no item of a script of this version.
fn no_item(version: u8, word: &[u8]) -> Cause
    ensures { result ≡ no_item version word.now }
{
    if first_word(word, version).is_some() {
        Cause::S7
    } else {
        Cause::S2
    }
}

#[tactic(auto, unfolding(crate::specs::Orders::item_of))]
fn item_of(version: u8, cores: u8, word: &[u8]) -> Result<Item, Cause>
    requires { cores ≤ 8 }
    ensures value { result ≡ item_of version cores word.now }
    ensures below { IfOk result (λ item. item.core < cores) }
{
    match parts_of(word) {
        Some((digits, how)) => {
            let core = core_below(digits, cores)?;
            Ok(Item { core, how })
        }
        None => Err(no_item(version, word)),
    }
}

/// Adds the items of a line of a script of this version to an order, from left to right.
pub fn take_items(
    order: &mut Vec<Item>,
    words: &[Token],
    version: u8,
    cores: u8,
) -> Result<(), LineFault>
    requires { cores ≤ 8 }
    ensures value { Takes result order.new.items (items_of version cores order.old.items (texts words.now)) }
    ensures below { BelowCores cores order.old.items → BelowCores cores order.new.items }
{
    'items: for word in words {
        let item = item_of(version, cores, word.text)?;
        if order.len() >= MOST_ITEMS {
            return Err(LineFault::Cause(Cause::S9));
        }
        order.push(item)?;
    }
    Ok(())
}
