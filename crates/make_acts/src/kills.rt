//! The act that kills a component: its liveness number is dead from then on, and releases its reference to the component's frame.
//!
//! **Finding.** The component's word says which liveness number it has, and in which epoch it was made. The number's word says whether the
//! component lives: it does where the number is live in that epoch.
//!
//! **Closing.** The count of the component's frame is acquired, and the number's word is marked by a compare with the word found. While it
//! is marked no other core kills the component or gives the number to another, and no call is begun through a gate to it.
//!
//! **Killing.** A stamp is drawn, which decides the call. Then the number's word is stored: dead since the stamp. The draw must come after
//! the mark: between them no core can find the number live and begin a call that the stamp takes for a later one.

ghost use Rattle.act_counts.specs.act_states.specs.Acts.{drawn_dead, meets_comp, meets_life, meets_live, meets_number, took_killing};
ghost use Rattle.act_counts.specs.act_states.specs.Kills.{KillingFits, is_killing, killing_move};
ghost use Rattle.act_counts.specs.frame_words.specs.Live.{word_of_live};
ghost use Rattle.act_counts.specs.frame_words.specs.declared.live_word.LiveWord.TheVariants.{Closing};
ghost use Rattle.act_counts.specs.word_map.specs.Moves.{op_of};
ghost use Rattle.act_counts.specs.word_map.specs.Places.{size_of};
ghost use Rattle.act_counts.specs.spk_nums.specs.WordSteps.{place_in};
ghost use Rattle.std.specs.Prelude.{◌<◌, ◌≡◌};

use act_counts::act_states::frame_words::{CompWord, LiveWord};
use act_counts::act_states::stage_quiet::drawn;
use act_counts::act_states::word_map::Layout;
use act_counts::act_states::{Act, Killing, KillingAt, Refusal, Tail, Work, WorkStep};
use act_counts::{next_work, refuse};
use spk_nums::{CoreNo, EntryNo, Stamp, Value, WordOp};

/// The next step of a killing. What it names is of the layout's machine.
#[inline]
pub fn killing_op(killing: &Killing, layout: &Layout) -> WordOp
    requires { KillingFits layout.now killing.now }
    ensures step { result ≡ op_of layout.now (killing_move killing.now) }
    ensures below { place_in result < size_of layout.now }
{
    match killing.at {
        KillingAt::LoadComp => WordOp::Load {
            at: layout.entry_at(killing.comp, EntryNo::new(2)),
        },
        KillingAt::LoadLive { life } => WordOp::Load {
            at: layout.live_at(life.number),
        },
        KillingAt::Close { life, word } => WordOp::Compare {
            at: layout.live_at(life.number),
            expected: word,
            word: closing_word(life.epoch, killing.core),
        },
        KillingAt::Draw { life: _, word: _ } => WordOp::Add {
            at: layout.clock_at(),
            by: 1,
        },
    }
}

/// What a killing takes from the word that its step found: a number that another core is closing is `busy`, one that is not live in the
/// component's epoch `dead`. A lost compare is `raced`. After the load of the number's word the count of the component's frame is acquired.
/// The draw carries the call out, with the clock found as its stamp.
#[inline(never)]
pub fn killing_took(killing: &Killing, found: u64) -> WorkStep
    ensures { result ≡ took_killing killing.now found }
{
    match killing.at {
        KillingAt::LoadComp => meets_comp(killing, CompWord::unpack(found)),
        KillingAt::LoadLive { life } => meets_live(killing, life, found, LiveWord::unpack(found)),
        KillingAt::Close { life, word } => {
            if found == word {
                WorkStep::Goes {
                    work: Work::Act {
                        act: killing_at(killing, KillingAt::Draw { life, word }),
                    },
                }
            } else {
                refuse(Refusal::Raced)
            }
        }
        KillingAt::Draw { life, word: _ } => drawn_dead(life, drawn(found)),
    }
}

/// Whether the next step of a killing draws the stamp.
#[inline]
pub fn killing_ready(killing: &Killing) -> bool
    ensures { result ≡ is_killing killing.now.at }
{
    matches!(killing.at, KillingAt::Draw { .. })
}

// The killing that stands here.
#[inline]
fn killing_at(killing: &Killing, at: KillingAt) -> Act
    ensures { result ≡ Act.Kill (record killing.now { at = at }) }
{
    Act::Kill {
        killing: Killing { at, ..*killing },
    }
}

// What the load of the component's word leads to, where it shows this.
#[inline]
fn meets_comp(killing: &Killing, shown: Option<CompWord>) -> WorkStep
    ensures { result ≡ meets_comp killing.now shown }
{
    match shown {
        None => refuse(Refusal::Raced),
        Some(life) => WorkStep::Goes {
            work: Work::Act {
                act: killing_at(killing, KillingAt::LoadLive { life }),
            },
        },
    }
}

// What the load of its number's word leads to, where it shows this.
#[inline]
fn meets_live(killing: &Killing, life: CompWord, word: u64, shown: Option<LiveWord>) -> WorkStep
    ensures { result ≡ meets_live killing.now life word shown }
{
    match shown {
        None => refuse(Refusal::Raced),
        Some(shown) => meets_number(killing, life, word, &shown),
    }
}

// What that load leads to, where the word shows a number.
#[inline]
fn meets_number(killing: &Killing, life: CompWord, word: u64, shown: &LiveWord) -> WorkStep
    ensures { result ≡ meets_number killing.now life word shown.now }
{
    match shown {
        LiveWord::Free => refuse(Refusal::Dead),
        LiveWord::Live { epoch, frame: _ } => {
            meets_life(killing, life, word, *epoch == life.epoch)
        }
        LiveWord::Closing { epoch: _, by } => refuse(Refusal::Busy(*by)),
        LiveWord::Dead { epoch: _, stamp: _ } => refuse(Refusal::Dead),
    }
}

// The number is closed next where the component lives, after its frame's count is acquired; else the component is dead.
#[inline]
fn meets_life(killing: &Killing, life: CompWord, word: u64, lives: bool) -> WorkStep
    ensures { result ≡ meets_life killing.now life word lives }
{
    if lives {
        let act = killing_at(killing, KillingAt::Close { life, word });
        WorkStep::Goes {
            work: next_work(killing.core, 0, &act),
        }
    } else {
        refuse(Refusal::Dead)
    }
}

// The call is carried out, and has still to store that the number is dead since this stamp.
#[inline]
fn drawn_dead(life: CompWord, stamp: Stamp) -> WorkStep
    ensures { result ≡ drawn_dead life stamp }
{
    WorkStep::Answers {
        value: Value::Nothing,
        drawn: Some(stamp),
        tail: Tail::StoreDead { life, stamp },
    }
}

/// The word of a number that a core is closing.
#[inline]
pub(crate) fn closing_word(epoch: u16, core: CoreNo) -> u64
    ensures { result ≡ word_of_live (Closing epoch core) }
{
    let _number = core.number();
    let word = LiveWord::Closing { epoch, by: core };
    word.pack()
}
