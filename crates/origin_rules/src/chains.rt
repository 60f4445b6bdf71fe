//! Links of chains.

/// How a capability was put.
#[derive(Clone, Copy, PartialEq, Eq, Debug)]
pub enum Step {
    /// It is a copy: its parent is the capability that was copied.
    Copied,
    /// An object was made: its parent is the range that has the object's frame.
    Made,
    /// It is a gate: its parent is the component's capability.
    Gated,
    /// It is a part of a range: its parent is that range.
    Parted,
}

/// One link of a chain: a decision that put a capability.
#[derive(Clone, Copy, PartialEq, Eq, Debug)]
pub struct ChainLink {
    /// The number of the decision. Decisions count from 1, in the order decided.
    pub decision: u32,
    /// How it put the capability.
    pub what: Step,
}
