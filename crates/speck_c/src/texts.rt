//! The text of the tables of a finished machine, which C reads.

ghost use Rattle.std.specs.Prelude.{◌≡◌, ◌≤◌, ◌<◌, ◌++◌, length, take, drop, string_bytes, Some, None, ◌≢◌, ◌⊎◌, IfSome};
ghost use Rattle.speck_c.specs.Slots.{held_in};
ghost use Rattle.speck_c.specs.Ends.{ReadsInto, Shows, final_held, final_of, text_held, text_of};

use crate::held::{Held, What};
use crate::machines::put_new;
use crate::slot::Slot;
use final_parts::Last;
use std::alloc::Global;
use table_report::report;

// Puts the text of these tables into an empty slot.
fn show_last(alloc: Global, last: &Last, text: &mut Slot) -> u8
    requires { held_in text.old ≡ None }
    ensures { Shows last.now result (held_in text.new) }
{
    match report(alloc, &last.image()) {
        Ok(tables) => {
            if put_new(alloc, text, What::Tables(tables)) {
                0
            } else {
                247
            }
        }
        Err(_) => 247,
    }
}

// The same where a finished machine is held.
fn show_held(alloc: Global, held: &Held, text: &mut Slot) -> u8
    requires { held_in text.old ≡ None }
    ensures none { final_of held.now.what ≡ None → (result ≡ 254) × (held_in text.new ≡ None) }
    ensures shows { IfSome (final_of held.now.what) (λ i. Shows i result (held_in text.new)) }
{
    match &held.what {
        What::Final(last) => show_last(alloc, last, text),
        _ => 254,
    }
}

/// Puts the text of the tables of a finished machine, which stays as it is, into an empty slot, and answers 0. Else, with nothing changed,
/// 240 where the text's slot is not empty; 254 where no finished machine is held; 247 where memory has run out.
#[unsafe(no_mangle)]
pub extern "C" fn speck_inner_show(alloc: Global, last: &mut Slot, text: &mut Slot) -> u8
    ensures kept { held_in last.new ≡ held_in last.old }
    ensures full { held_in text.old ≢ None → (result ≡ 240) × (held_in text.new ≡ held_in text.old) }
    ensures none { held_in text.old ≡ None → final_held (held_in last.old) ≡ None → (result ≡ 254) × (held_in text.new ≡ None) }
    ensures shows { held_in text.old ≡ None → IfSome (final_held (held_in last.old)) (λ i. Shows i result (held_in text.new)) }
{
    if !text.is_empty() {
        return 240;
    }
    let Some(held) = last.take(alloc) else {
        return 254;
    };
    let answer = show_held(alloc, &held, text);
    last.put(held);
    answer
}

// Copies as much of the text as there is room for, and answers its whole length.
fn copy_text(text: &[u8], bytes: &mut [u8]) -> u64
    ensures { ReadsInto text.now bytes.old result bytes.new }
{
    if text.len() <= bytes.len() {
        bytes[..text.len()].copy_from_slice(text);
    } else {
        let room = bytes.len();
        bytes.copy_from_slice(&text[..room]);
    }
    text.len() as u64
}

// The same of a text that is held.
fn read_held(held: &Held, bytes: &mut [u8]) -> u64
    ensures none { text_of held.now.what ≡ None → (result ≡ 0) × (bytes.new ≡ bytes.old) }
    ensures reads { IfSome (text_of held.now.what) (λ t. ReadsInto (string_bytes t) bytes.old result bytes.new) }
{
    match &held.what {
        What::Tables(tables) => copy_text(tables.as_str().as_bytes(), bytes),
        _ => 0,
    }
}

/// Copies the text to the beginning of `bytes`, or as much of it as there is room for, and answers the length of the whole text;
/// 0, and copies nothing, where no text is held. The slot keeps what it holds.
#[unsafe(no_mangle)]
pub extern "C" fn speck_inner_read(alloc: Global, text: &mut Slot, bytes: &mut [u8]) -> u64
    ensures kept { held_in text.new ≡ held_in text.old }
    ensures none { text_held (held_in text.old) ≡ None → (result ≡ 0) × (bytes.new ≡ bytes.old) }
    ensures reads { IfSome (text_held (held_in text.old)) (λ t. ReadsInto (string_bytes t) bytes.old result bytes.new) }
{
    let Some(held) = text.take(alloc) else {
        return 0;
    };
    let length = read_held(&held, bytes);
    text.put(held);
    length
}

/// Empties a text's slot.
#[unsafe(no_mangle)]
pub extern "C" fn speck_inner_free_text(alloc: Global, text: &mut Slot)
    ensures { held_in text.new ≡ None }
{
    let _gone = text.take(alloc);
}
