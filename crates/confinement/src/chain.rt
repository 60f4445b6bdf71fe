//! The chain of a capability.

use origin_rules::ChainLink;
use spk_nums::Cap;
use std::marker::Model;

/// A capability with its chain.
#[derive(Drop)]
pub struct Chain {
    /// The capability.
    pub cap: Cap,
    /// The decisions that put it, its parent, the parent of that and so on, the newest first.
    pub links: Vec<ChainLink>,
    /// The index of the capability of the start at which they begin, below 64.
    pub start: u8,
}

impl Model for Chain {
    ghost use Rattle.origin_rules.specs.Chains.{ChainValue};

    ghost Value = { ChainValue };

    ghost view = { λ x. record { cap = x.cap; links = x.links.items; start = x.start } };
}
