//! What a call names: the numbers that it looks up in the table of the component in which its core works, and what it wants of each. Laws
//! of authority and of confinement speak of what one of these led the core to.
//!
//! See docs/MODEL.md, 'Authority'.
#![tactic(auto)]

ghost use Rattle.call_names.specs.Names.{CallsName};

/// What the rule of a call names, in whatever state and for whatever core, is one of the numbers that the call names: a table of calls.
#[tactic(auto, using(crate::proofs::Named::calls_name))]
pub fn calls_name()
    ensures { CallsName }
{}
