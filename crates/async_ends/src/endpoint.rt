//! What is asked of an endpoint, what is done there, and what is answered.

ghost use Rattle.std.specs.Prelude.{◌≡◌};
ghost use Rattle.async_ends.specs.Looks.{reached, serves};
ghost use Rattle.async_ends.specs.Running.{reply_of};

use crate::asks::Look;
use spk_nums::{FrameNo, Kind, Reply, Value};

/// What is asked of an endpoint.
#[derive(Clone, Copy, PartialEq, Eq, Debug)]
pub enum EndOp {
    /// To add one to the count.
    Send,
    /// To take the whole count.
    Recv,
}

/// A send or a receive at a frame's endpoint, with the look that led there. So the step with which it begins has what the
/// look was answered, and comes after it.
#[derive(Clone, Copy, PartialEq, Eq, Debug)]
pub struct EndCall {
    /// What is asked.
    pub op: EndOp,
    /// The frame.
    pub frame: u16,
    /// The look.
    pub look: Look,
}

/// What a send or a receive has done.
#[derive(Clone, Copy, PartialEq, Eq, Debug)]
pub enum EndAct {
    /// One more was sent.
    Sent,
    /// So many were taken, which were all that had been sent and not been taken.
    Taken(u64),
    /// Nothing was taken: the receive's compare found another count than its load.
    Raced,
}

/// What a call at an endpoint answers.
#[derive(Clone, Copy, PartialEq, Eq, Debug)]
pub enum EndReply {
    /// One more was sent.
    Sent,
    /// So many were taken.
    Taken(u64),
    /// The receive took nothing: between its load and its compare another core sent or received, so that the compare found
    /// another count than the load.
    Raced,
    /// The look was answered so, or led to a capability of another kind, which is `wrong-cap`. Nothing was done.
    Refused(Reply),
}

impl EndAct {
    pub(crate) fn reply(self) -> EndReply
        ensures { result ≡ reply_of self }
    {
        match self {
            EndAct::Sent => EndReply::Sent,
            EndAct::Taken(count) => EndReply::Taken(count),
            EndAct::Raced => EndReply::Raced,
        }
    }
}

impl EndOp {
    // Whether a capability of this kind leads to the endpoint.
    fn takes(self, kind: Kind) -> bool
        ensures { result ≡ serves self kind }
    {
        match self {
            EndOp::Send => kind == Kind::Gate,
            EndOp::Recv => kind == Kind::Comp,
        }
    }

    /// The frame whose endpoint a look with this answer leads to, or the refusal.
    pub fn reach(self, looked: &Reply) -> Result<FrameNo, Reply>
        ensures { result ≡ reached self looked.now }
    {
        match looked {
            Reply::Ok(Value::Cap(cap)) => {
                if self.takes(cap.kind()) {
                    Ok(cap.frame())
                } else {
                    Err(Reply::WrongCap)
                }
            }
            Reply::Ok(_) => Err(Reply::WrongCap),
            refusal => Err(*refusal),
        }
    }
}
