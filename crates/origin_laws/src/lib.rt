//! Confinement: what a core can come to hold by its own calls.
//!
//! **The law.** Take any part of any run, and a core. Whatever the core has put anywhere in this part is covered by a capability to which
//! a name of a call led it that it made in this part, and that it had not put there itself in this part: so it stood there before, or
//! another core has put it there. A capability covers its copies with no more rights than its own, the gates to its
//! component if it may be used, and, if it is a range that may be used, what is made in its frames.
//!
//! So a core that has entered a component, and to which no other core gives anything, has in the end what the component's table reached,
//! no more rights to it, and objects in the frames of the ranges there.
//!
//! See docs/ORIGINS.md.
#![tactic(auto)]

ghost use Rattle.origin_laws.specs.Confined.{CoresAreConfined};

/// After every run, each capability that a place holds was not put by this core in this part of the run, or is covered by one to which a
/// name of a call led the core that it carried out in this part, and that it had not put in this part.
#[tactic(auto, using(crate::proofs::EachConfined::cores_are_confined))]
pub fn cores_are_confined()
    ensures { CoresAreConfined }
{}
