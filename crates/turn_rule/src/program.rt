//! The program that a core runs.

use spk_nums::WordOp;

/// A program that makes one atomic step at a time. Contracts see it and its calls as plain data: a type that keeps facts
/// of its own has an `impl Model`.
pub trait CoreProgram: Drop {
    /// What the program is asked to do.
    type Call: Drop;

    ghost use Rattle.std.specs.Prelude.{◌≡◌, ◌<◌, IsNone, IsSome, IfSome};
    ghost use Rattle.turn_rule.specs.Steps.{Steps};
    ghost use Rattle.spk_nums.specs.WordSteps.{place_in};

    // How the program goes on: its next step, what a word and a call make of it, which calls are fit, its words, and
    // the steps left to its call.
    ghost steps: { Steps Self Self.Call };

    /// Begins a call, after which the program has a next step.
    fn begin(&mut self, call: Self::Call)
        requires idle { IsNone (steps.next self.old) }
        requires fit { steps.fit self.old call }
        ensures begun { self.new ≡ steps.begun self.old call }
        ensures ready { IsSome (steps.next self.new) }
        ensures size { steps.size self.new ≡ steps.size self.old };

    /// The next step, on a word below the program's size; none between calls.
    fn next_op(&self) -> Option<WordOp>
        ensures next { result ≡ steps.next self.now }
        ensures inside { IfSome result (λ op. place_in op < steps.size self.now) };

    /// Takes in the word that its step tells: the word found, or for a store the word stored. It leaves the call fewer
    /// steps.
    fn absorb(&mut self, found: u64)
        requires { IsSome (steps.next self.old) }
        ensures after { self.new ≡ steps.after self.old found }
        ensures size { steps.size self.new ≡ steps.size self.old }
        ensures fewer { steps.left self.new < steps.left self.old };
}
