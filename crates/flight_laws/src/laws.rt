//! What holds of each trace of a machine, from the invariant of the step machine at each of its moments.

ghost use Rattle.flight_laws.specs.Histories.{MadeHistories};

/// Each trace that is the machine's is a history: a legal one, whose calls keep within their bounds, whose steps keep the discipline of
/// words and their call's footprint, whose words say the state at each moment, and of which all laws hold that the record names.
#[tactic(auto, using(crate::proofs::Histories::made_histories))]
pub fn made_histories()
    ensures { MadeHistories }
{}
