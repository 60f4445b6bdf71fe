//! That the mark stands at the word of a call which the reader refuses.
//!
//! See docs/FORMATS.md, 'Explanations'.
#![tactic(auto)]

ghost use Rattle.std.specs.Prelude.{ℕ, List, ◌∷◌};
ghost use Rattle.fault_texts.specs.spk_nums.specs.declared.verbs.Verb.{Verb};
ghost use Rattle.fault_texts.specs.call_reader.specs.CallLines.{call_line};
ghost use Rattle.fault_texts.specs.line_forms.specs.declared.context.Context.{Context};
ghost use Rattle.mark_laws.specs.Marked.{GoesByMark, in_list, IsCallLine};

/// A law: a call in a list is refused exactly where a word of it does not fit its place, or its end does not, and for the cause for which
/// the first of these does not fit there. So the mark stands at the word at which the reader refuses the call.
#[tactic(auto, using(crate::proofs::Calls::calls_go))]
pub fn calls_go_by_marks()
    ensures { (context : Context) (word : List ℕ) (rest : List (List ℕ)) (verb : Verb) → IsCallLine context word rest verb
        → GoesByMark (in_list context) (word ∷ rest) (call_line context.version (word ∷ rest) verb) }
{}
