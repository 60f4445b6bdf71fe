//! The law of the scripts that are made. Nothing here runs.

ghost use Rattle.std.specs.Prelude.{ℕ};
ghost use Rattle.load_maker.specs.Accepted.{IsAccepted};

/// A law: the script of each number is within the limits, no core has more than 503 calls, and its text reads as that script.
pub fn is_accepted()
    ensures { (n : ℕ) → IsAccepted n }
{}
