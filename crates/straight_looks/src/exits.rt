//! The first step of a call, and its last two.

ghost use Rattle.std.specs.Prelude.{◌≡◌, ◌<◌, None, true};
ghost use Rattle.spk_nums.specs.declared.replies.Reply.TheVariants.{Ok};
ghost use Rattle.step_starts.specs.call_stages.specs.Fits.{IsCore, IsOwn};
ghost use Rattle.step_starts.specs.call_stages.specs.Steps.{core_word};
ghost use Rattle.step_starts.specs.call_stages.specs.Tails.{stamp_of};
ghost use Rattle.step_starts.specs.call_stages.specs.declared.stages.Absorbed.TheVariants.{Returned};
ghost use Rattle.step_starts.specs.word_map.specs.Moves.{StoreOf, op_of};
ghost use Rattle.step_starts.specs.word_map.specs.Word.{CoreAt};
ghost use Rattle.straight_looks.specs.Standing.{IsAnswered};

use core_words::Words;
use spk_nums::{Reply, Stamp, Value, WordOp};
use step_lands::act_states::Own;
use step_lands::act_states::frame_words::CoreWord;

/// The first step of a call: the core word is stored, with inside set and the stamp of the last exit.
#[inline(always)]
pub fn entry_op(own: &Own) -> WordOp
    requires { IsOwn own.now }
    ensures { result ≡ op_of own.now.layout (StoreOf (CoreAt own.now.core) (core_word true own.now.exit)) }
{
    WordOp::Store {
        at: own.layout.core_at(own.core),
        word: core_word(true, own.exit),
    }
}

/// A call that is decided with this value and has nothing to store returns, and answers its reply.
#[inline(always)]
#[tactic(auto, using(crate::proofs::Sets::leaving))]
pub fn exit<W: Words>(own: &mut Own, value: Value, words: &mut W) -> Reply
    requires own { IsOwn own.old }
    requires room { own.old.made < own.old.limit }
    requires decided { IsAnswered own.old (Ok value) (W.core words.old) }
    ensures reply { result ≡ Ok value }
    ensures core { W.core words.new ≡ record { own = own.new; active = None } }
    ensures told { W.last words.new ≡ Returned result }
    ensures fits { IsCore (W.core words.new) }
{
    let clock = words.make(WordOp::Load {
        at: own.layout.clock_at(),
    });
    let stamp = stamp_of(clock);
    words.make(WordOp::Store {
        at: own.layout.core_at(own.core),
        word: core_word(false, stamp),
    });
    own.made += 1;
    own.exit = stamp;
    Reply::Ok(value)
}

// The word of a core.
#[inline(always)]
fn core_word(inside: bool, stamp: Stamp) -> u64
    ensures { result ≡ core_word inside stamp }
{
    let word = CoreWord { inside, stamp };
    word.pack()
}

// The stamp of a clock.
#[inline(always)]
fn stamp_of(clock: u64) -> Stamp
    ensures { result ≡ stamp_of clock }
{
    if clock < 1 << 43 {
        Stamp::new(clock)
    } else {
        Stamp::new((1 << 43) - 1)
    }
}
