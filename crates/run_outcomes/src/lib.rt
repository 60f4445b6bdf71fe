//! What a run shows beside what is due: whether its status and its text are the same, byte for byte. The programs of tests stand on it,
//! so a comparison that overlooks something would hide what they are there to show.
#![tactic(auto)]

ghost use Rattle.std.specs.Prelude.{◌≡◌, ◌↔◌, IsTrue};
ghost use Rattle.run_outcomes.specs.declared.Outcome.TheVariants as outcomes;

use std::fmt;

/// What a run shows beside what is due of it.
#[derive(Clone, Copy, Debug, PartialEq, Eq)]
pub enum Outcome {
    /// The status and every byte are those due.
    Same,
    /// It ended with this status, which is another.
    OtherStatus(u8),
    /// The status is that due, and the bytes are others.
    OtherText,
}

impl fmt::Display for Outcome {
    fn fmt<W: fmt::Write>(&self, f: &mut fmt::Formatter<W>) -> fmt::Result {
        match self {
            Outcome::Same => write!(f, "same"),
            Outcome::OtherStatus(status) => write!(f, "ends with status {status}"),
            Outcome::OtherText => write!(f, "prints another text"),
        }
    }
}

/// Whether the bytes are those that are due.
pub fn are_due(found: &[u8], due: &[u8]) -> bool
    ensures { IsTrue result ↔ (found.now ≡ due.now) }
{
    found == due
}

/// What this status and text show, where these others are due.
pub fn compare(status: u8, text: &[u8], due: u32, bytes: &[u8]) -> Outcome
    ensures same { (result ≡ Outcome.Same) ↔ ((status ≡ due) × (text.now ≡ bytes.now)) }
    ensures status { (result ≡ Outcome.OtherStatus status) ↔ (status ≡ due → ⊥) }
{
    if u32::from(status) != due {
        return Outcome::OtherStatus(status);
    }
    if !are_due(text, bytes) {
        return Outcome::OtherText;
    }
    Outcome::Same
}
