//! The calls of a script made alone by the plain kernel, and the text of that.
//!
//! Core 0's calls are made one after another, then core 1's, and so on. The text is the reply line of each call in that order,
//! and then the tables of the last state, printed from the kernel's maps.
//!
//! See docs/FORMATS.md, 'Printed text'.
#![tactic(auto)]

mod run;

pub use run::plain;
