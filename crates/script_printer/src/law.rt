//! The laws of printing and reading. Nothing here runs.

ghost use Rattle.std.specs.Prelude.{ℕ, List};
ghost use Rattle.script_reader.specs.Readings.{Meaning};
ghost use Rattle.script_printer.specs.Law.{HasFewLines, IsReadWithin, ReadsBack};

/// A law: the printed form of a script reads as that script, where the script is within the limits and its
/// printed form has at most 20,000 lines.
pub fn reads_back()
    ensures { (m : Meaning) → ReadsBack m }
{}

/// A law: a script that was read is within the limits, where its printed form has at most 20,000 lines.
pub fn read_is_within()
    ensures { (source : List ℕ) (m : Meaning) → IsReadWithin source m }
{}

/// A law: how many lines the printed form of a script has at most, by its grants, its calls and its items. So who makes a
/// script sees that it reads back.
pub fn has_few_lines()
    ensures { (m : Meaning) → HasFewLines m }
{}
