//! The words on which a core makes its steps.

use spk_nums::WordOp;

/// The words on which a core makes the steps of its call, one after another. Contracts see the core, and what it has told of the step made
/// last.
pub trait Words {
    ghost use Rattle.std.specs.Prelude.{◌≡◌, Some};
    ghost use Rattle.call_stages.specs.View.{Core};
    ghost use Rattle.call_stages.specs.Cores.{absorbed, told_of_step};
    ghost use Rattle.call_stages.specs.Fits.{IsCore};
    ghost use Rattle.call_stages.specs.declared.stages.Absorbed.{Absorbed};
    ghost use Rattle.core_words.specs.Due.{due_of};

    // The core that makes the steps.
    ghost core: { Self → Core };
    // What it has told of the step made last.
    ghost last: { Self → Absorbed };

    /// Makes the core's next step, and answers the word found, or for a store the word stored.
    fn make(&mut self, op: WordOp) -> u64
        requires due { due_of (core self.old) ≡ Some op }
        ensures goes { core self.new ≡ absorbed (core self.old) result }
        ensures told { last self.new ≡ told_of_step (core self.old) result }
        ensures fits { IsCore (core self.new) };
}
