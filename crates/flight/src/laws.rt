//! What is proved of the step machine, as laws: cores that stand for a trace go on standing for it, step by step.

ghost use Rattle.flight.specs.Theorems.{Boots, StepsOn, MadeStands, SaysWords, Represents, RepresentsCounts};

/// The start stands for no step.
#[tactic(auto, using(crate::proofs::Boot::boots))]
pub fn boots()
    ensures { Boots }
{}

/// A step of any core leaves cores that stand for the trace with that step.
#[tactic(auto, using(crate::proofs::Advance::steps_on))]
pub fn steps_on()
    ensures { StepsOn }
{}

/// Where the cores are after a trace that is the machine's, they stand for it.
#[tactic(auto, using(crate::proofs::Made::made_stands))]
pub fn made_stands()
    ensures { MadeStands }
{}

/// At each moment the words say what the state is.
#[tactic(auto, using(crate::proofs::Final::says_words))]
pub fn says_words()
    ensures { SaysWords }
{}

/// Where all cores are between calls, the words and the cores' ends represent the state.
#[tactic(auto, using(crate::proofs::Final::represents))]
pub fn represents()
    ensures { Represents }
{}

/// Where all cores are between calls, no count is held, and the counts of each frame sum to the references to it.
#[tactic(auto, using(crate::proofs::Final::represents_counts))]
pub fn represents_counts()
    ensures { RepresentsCounts }
{}
