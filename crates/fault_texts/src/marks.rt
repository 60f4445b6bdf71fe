//! A law of the mark.

ghost use Rattle.std.specs.Prelude.{ℕ, List, All};
ghost use Rattle.std.specs.Str.{IsAscii};
ghost use Rattle.fault_texts.specs.Marks.{IsUnder};

/// A law: the mark stands under the first character of its word, where the words before it and that word are ASCII, as those of each
/// line without a bad byte are.
#[tactic(auto, using(crate::proofs::Under::under))]
pub fn marks_stand_under()
    ensures { (before : List (List ℕ)) (word : List ℕ) (after : List (List ℕ)) → All IsAscii before → IsAscii word
        → IsUnder before word after }
{}
