//! How a call ends, by its reply.

ghost use Rattle.std.specs.Prelude.{◌≡◌};
ghost use Rattle.page_layers.specs.Lanes.{outcome};
ghost use Rattle.page_layers.specs.Layers.{in_the_way, is_blamed};

use picture_shapes::Outcome;
use spk_nums::Reply;

/// How a call ends by its reply. Another is in the way where the core has lost a race, or waits for another's mark, grace period, flush,
/// thread or references.
pub fn outcome_of(reply: &Reply) -> Outcome
    ensures { result ≡ outcome reply.now }
{
    match reply {
        Reply::Ok(_) => Outcome::Done,
        Reply::Raced => Outcome::InTheWay,
        Reply::Busy(_) => Outcome::InTheWay,
        Reply::Quiescing(_) => Outcome::InTheWay,
        Reply::Unflushed(_) => Outcome::InTheWay,
        Reply::Running(_) => Outcome::InTheWay,
        Reply::Referenced(_) => Outcome::InTheWay,
        _ => Outcome::Refused,
    }
}

fn in_the_way(outcome: Outcome) -> bool
    ensures { result ≡ in_the_way outcome }
{
    match outcome {
        Outcome::InTheWay => true,
        _ => false,
    }
}

/// Whether a step decides its call with a reply that says that another is in the way.
pub fn is_blamed(decides: &Option<Reply>) -> bool
    ensures { result ≡ is_blamed decides.now }
{
    match decides {
        None => false,
        Some(reply) => in_the_way(outcome_of(reply)),
    }
}
