//! The act that fills a place: one compare with the word that the call's look-up has loaded there, which decides the call.
//!
//! The place may be quiescing. Then the call has scanned the other cores since it loaded the word, and the compare expects that word
//! with its stamp: so nothing else was removed there in between.

ghost use Rattle.act_counts.specs.act_states.specs.Fills.{FillFits, fill_move, took_fill};
ghost use Rattle.act_counts.specs.entry_words.specs.EntryWord.{word_of_entry};
ghost use Rattle.act_counts.specs.entry_words.specs.declared.entry.Entry.TheVariants.{Held};
ghost use Rattle.act_counts.specs.word_map.specs.Moves.{op_of};
ghost use Rattle.act_counts.specs.word_map.specs.Places.{size_of};
ghost use Rattle.act_counts.specs.spk_nums.specs.WordSteps.{place_in};
ghost use Rattle.std.specs.Prelude.{◌<◌, ◌≡◌};

use act_counts::act_states::entry_words::Entry;
use act_counts::act_states::word_map::Layout;
use act_counts::act_states::{Fill, Refusal, Tail, WorkStep};
use spk_nums::{Cap, Value, WordOp};

/// The next step of a filling: the place's word is compared with the one found. The node and the frames of what it is to hold are
/// below the layout's.
#[inline]
pub fn fill_op(fill: &Fill, layout: &Layout) -> WordOp
    requires { FillFits layout.now fill.now }
    ensures step { result ≡ op_of layout.now (fill_move fill.now) }
    ensures below { place_in result < size_of layout.now }
{
    WordOp::Compare {
        at: layout.entry_at(fill.node, fill.entry),
        expected: fill.word,
        word: held_word(fill.cap),
    }
}

/// What a filling takes from the word that its compare found: the call is carried out where it is the one expected, and else `raced`.
#[inline]
pub fn fill_took(fill: &Fill, found: u64) -> WorkStep
    ensures { result ≡ took_fill fill.now found }
{
    if found == fill.word {
        WorkStep::Answers {
            value: Value::Nothing,
            drawn: None,
            tail: Tail::Nothing,
        }
    } else {
        WorkStep::Refuses {
            refusal: Refusal::Raced,
            tail: Tail::Nothing,
        }
    }
}

// The word of an entry that holds a capability.
#[inline]
fn held_word(cap: Cap) -> u64
    ensures { result ≡ word_of_entry (Held cap) }
{
    let _arg = cap.arg();
    let frame = cap.frame();
    let _number = frame.number();
    let entry = Entry::Held(cap);
    entry.pack()
}
