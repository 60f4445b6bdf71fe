//! Histories of a machine of one core: with one core no call meets another, so a history is the sequential kernel's run of its calls.
//!
//! See docs/PROOF.md, 'One core'.
#![tactic(auto)]

ghost use Rattle.one_core_laws.specs.Plainly.{OneCoreIsPlain, ReturnsPlainly};

/// A legal history of one core, whose calls made alone answer as in the sequential kernel, is that kernel's run of its calls once the core
/// is between calls: each reply decided is the sequential kernel's, and the state is that after the calls.
pub fn one_core_is_plain()
    ensures { OneCoreIsPlain }
{}

/// In such a history each call returns the sequential kernel's reply in the state after the calls before it.
pub fn returns_plainly()
    ensures { ReturnsPlainly }
{}
