//! Endpoint calls by the numbers of capabilities: as they are asked, and as they were made.

use crate::endpoint::{EndOp, EndReply};
use spk_nums::{CapId, Reply};

/// A look at a capability, by which an endpoint is reached.
#[derive(Clone, Copy, PartialEq, Eq, Debug)]
pub struct Look {
    /// The capability's number.
    pub number: CapId,
    /// What the look was answered.
    pub reply: Reply,
}

/// A call at the endpoint that a capability leads to.
#[derive(Clone, Copy, PartialEq, Eq, Debug)]
pub struct EndAsk {
    /// What is asked.
    pub op: EndOp,
    /// The capability's number.
    pub number: CapId,
}

/// A call that was made.
#[derive(Clone, Copy, PartialEq, Eq, Debug)]
pub struct EndDone {
    /// What was asked.
    pub ask: EndAsk,
    /// The reply to its look at the capability.
    pub looked: Reply,
    /// What it was answered.
    pub answer: EndReply,
}
