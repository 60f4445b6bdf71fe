//! A whole call over words that nobody else changes.
//!
//! **What stands after it.** While a core makes its call nobody else makes a step, so what stands after so many steps is a function of the
//! words and the core with which the call began. The type of the handle with which the steps are made has these two, for the proof alone;
//! the handle counts the steps.

ghost use Rattle.std.specs.Prelude.{◌≡◌, ◌<◌, ◌≤◌, length, None, vec_len, vec_capacity};
ghost use Rattle.spk_nums.specs.CallLimits.{InLimits};
ghost use Rattle.call_steps.specs.Straight.{HasGone};
ghost use Rattle.call_steps.specs.call_stages.specs.Cores.{begun};
ghost use Rattle.call_steps.specs.call_stages.specs.Fits.{IsCore};
ghost use Rattle.step_views.specs.word_map.specs.Places.{size_of};
ghost use Rattle.lone_kernel.specs.Making.{MakesCall, NotesReply};

use crate::notes::note_reply;
use crate::words::{perform, told};
use call_steps::{CoreState, Went, Words};
use spk_nums::{Call, CoreNo, Decision, WordOp};
use std::marker::{Brand, Model, PhantomData};

/// The words and the core with which a call begins. A call can be told nothing of them at run time, so its handle's type has them, for the
/// proof alone.
pub(crate) trait Beginning {
    ghost use Rattle.std.specs.Prelude.{ℕ, List};
    ghost use Rattle.call_steps.specs.call_stages.specs.View.{Core};

    ghost words: { List ℕ };

    ghost core: { Core };
}

impl Beginning for Brand {
    ghost use Rattle.std.specs.Prelude.{[]};
    ghost use Rattle.lone_kernel.specs.Making.{no_core};

    ghost words = { [] };

    ghost core = { no_core };
}

/// Words on which a core has made so many steps since its call began.
#[derive(Drop)]
struct LoneWords<B: Beginning> {
    words: Vec<u64>,
    made: u32,
    beginning: PhantomData<B>,
}

impl<B: Beginning> Model for LoneWords<B> {
    ghost use Rattle.std.specs.Prelude.{ℕ};
    ghost use Rattle.lone_kernel.specs.Making.{AreMade};

    ghost Value = { ℕ };

    ghost view = { λ w. w.made };

    ghost invariant = { λ w. AreMade B.words B.core w.made w.words.items };
}

impl<B: Beginning> Words for LoneWords<B> {
    ghost use Rattle.lone_kernel.specs.Making.{run};

    ghost core = { λ n. (run B.words B.core n).core };

    ghost last = { λ n. (run B.words B.core n).last };

    #[inline(always)]
    fn make(&mut self, op: WordOp) -> u64 {
        let found = perform(&mut self.words, &op);
        self.made += 1;
        told(&op, found)
    }
}

/// Makes a whole call of a core on the words that B names, with the core that it names, and notes its decision.
#[inline(always)]
pub(crate) fn make_call<B: Beginning>(
    state: &mut CoreState,
    call: &Call,
    words: &mut Vec<u64>,
    decisions: &mut Vec<Decision>,
    core: CoreNo,
    index: u32,
)
    requires fits { IsCore state.old }
    requires between { state.old.active ≡ None }
    requires limits { InLimits call.now }
    requires size { length words.old.items ≡ size_of state.old.own.layout }
    requires room { vec_len decisions.old < vec_capacity decisions.old }
    requires words { B.words ≡ words.old.items }
    requires core { B.core ≡ begun state.old call.now }
    ensures makes { MakesCall words.old.items (begun state.old call.now) words.new.items state.new decisions.old.items decisions.new.items
        core index }
    ensures room { vec_capacity decisions.old ≤ vec_capacity decisions.new }
{
    let alloc = *words.allocator();
    let mut made = LoneWords::<B> {
        words: std::mem::replace(words, Vec::new(alloc)),
        made: 0,
        beginning: PhantomData,
    };
    let went = state.go_straight(call, &mut made);
    go_noted(state, call, &went, &mut made, decisions, core, index);
    let LoneWords { words: left, .. } = made;
    *words = left;
}

// A call that went so far goes on to its return, and its decision is noted.
#[inline(always)]
fn go_noted<W: Words>(
    state: &mut CoreState,
    call: &Call,
    went: &Went,
    words: &mut W,
    decisions: &mut Vec<Decision>,
    core: CoreNo,
    index: u32,
)
    requires limits { InLimits call.now }
    requires went { HasGone call.now state.old (W.core words.old) (W.last words.old) went.now }
    requires room { vec_len decisions.old < vec_capacity decisions.old }
    ensures state { state.new ≡ W.core words.new }
    ensures notes { NotesReply (W.last words.new) decisions.old.items decisions.new.items core index }
    ensures room { vec_capacity decisions.old ≤ vec_capacity decisions.new }
{
    match went {
        Went::Returned { reply } => note_reply(decisions, reply, core, index),
        _ => {
            let reply = state.rest(call, went, words);
            note_reply(decisions, &reply, core, index);
        }
    }
}
