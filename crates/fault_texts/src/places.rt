//! Where in its line a fault stands.

ghost use Rattle.std.specs.Prelude.{◌≡◌, ◌≤◌, length};
ghost use Rattle.line_reader.specs.Arguments.{texts};
ghost use Rattle.fault_texts.specs.Places.{first_misfit, too_many_at, misplaced_at, place_of, slot_of};

use line_forms::{Context, Slot, Stage, fits, slot_at};
use line_reader::Cause;
use script_tokens::Token;

/// The place of the first word that does not fit; the line's end where each word fits.
pub fn first_misfit(context: &Context, words: &[Token]) -> usize
    ensures value { result ≡ first_misfit context.now (texts words.now) }
    ensures within { result ≤ length words.now }
{
    let mut at = 0;
    'words: while at < words.len() {
        if !fits(context, words, at) {
            return at;
        }
        at += 1;
    }
    at
}

// The place of the first item that is one too many, and else that of the line's first word.
fn too_many_at(context: &Context) -> usize
    ensures { result ≡ too_many_at context.now }
{
    match context.stage {
        Stage::Order => context.items,
        _ => 0,
    }
}

// The place of a word that is out of place; where each word fits, the line itself is so.
fn misplaced_at(context: &Context, words: &[Token]) -> usize
    ensures { result ≡ misplaced_at context.now (texts words.now) }
{
    let at = first_misfit(context, words);
    if at == words.len() { 0 } else { at }
}

/// The place of a fault in its line.
pub fn place_of(context: &Context, words: &[Token], cause: Cause) -> usize
    ensures { result ≡ place_of context.now (texts words.now) cause }
{
    match cause {
        Cause::S9 => too_many_at(context),
        Cause::S7 => misplaced_at(context, words),
        _ => first_misfit(context, words),
    }
}

/// What may stand at a place that has this fault.
pub fn slot_of(context: &Context, words: &[Token], place: usize, cause: Cause) -> Slot
    ensures { result ≡ slot_of context.now (texts words.now) place cause }
{
    match cause {
        Cause::S9 => Slot::End,
        _ => slot_at(context, words, place),
    }
}
