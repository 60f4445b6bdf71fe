//! The laws of summaries. Nothing here runs.

ghost use Rattle.std.specs.Prelude.{List};
ghost use Rattle.spk_nums.specs.declared.replies.Decision.{Decision};
ghost use Rattle.spk_nums.specs.declared.replies.Reply.{Reply};
ghost use Rattle.load_summary.specs.Laws.{IsCounted, TellsEach};
ghost use Rattle.load_summary.specs.Summaries.{counts_text};

/// A law: a summary counts each reply once, under the one word that replies of its number have, and no others.
pub fn counts_once()
    ensures { (r : Reply) → IsCounted r }
{}

/// A law: the counts of decisions tell of each reply that was decided how often it was, tell of no other, and sum to the
/// calls.
pub fn counts_tell_each()
    ensures { (decisions : List Decision) → TellsEach decisions (counts_text decisions) }
{}
