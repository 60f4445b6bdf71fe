//! The words on which a core makes the steps of its call, as a trait.
//!
//! **A core of their own.** Contracts see the core that makes the steps beside the words. A step is made only where it is the core's next
//! one, and the core is then what the word that the step tells makes of it. So whatever code makes steps on such words makes those of the
//! step machine, each in its turn, and what it knows of the core it knows of the machine.
//!
//! **Whose words.** Nothing is said of the words themselves: others may change them between two steps, or nobody may.
#![tactic(auto)]

mod words;

pub use words::Words;
