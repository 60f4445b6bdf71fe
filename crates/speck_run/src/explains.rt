//! A law of `explain`, beside the command that it names.

ghost use Rattle.std.specs.Prelude.{ℕ, List};
ghost use Rattle.explain_run.specs.line_forms.specs.declared.context.Reading.{Reading};
ghost use Rattle.speck_run.specs.declared.words.Command.TheVariants.{Explain};
ghost use Rattle.speck_run.specs.Script.{MadeBy};
ghost use Rattle.speck_run.specs.Explains.{GoesByCommand};

/// A law: of bytes that a command refuses, what `explain` writes begins with the line that the command writes of them, which tells
/// their first fault; of bytes that it takes, it says so; of a given history it begins with the verdict that `check` writes, and of a
/// legal one it is that.
pub fn explains_commands()
    ensures { (r : Reading) (bytes text : List ℕ) → MadeBy (Explain r) bytes text → GoesByCommand r bytes text }
{}
