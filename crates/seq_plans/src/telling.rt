//! Replies told apart.

ghost use Rattle.std.specs.Prelude.{◌≡◌};
ghost use Rattle.seq_state.specs.kernel_rules.specs.Laws.{IsRefusal};
ghost use Rattle.seq_plans.specs.Refusals.{Decides};
ghost use Rattle.seq_plans.specs.ReplyNumbers.{reply_number, number_told};

use spk_nums::Reply;

/// The number of a reply, in their order, from 0.
fn reply_number(reply: &Reply) -> u8
    ensures { result ≡ reply_number reply.now }
{
    match reply {
        Reply::Ok(_) => 0,
        Reply::NoSlot => 1,
        Reply::Empty => 2,
        Reply::WrongCap => 3,
        Reply::Occupied => 4,
        Reply::Quiescing(_) => 5,
        Reply::Unflushed(_) => 6,
        Reply::FrameKind => 7,
        Reply::OutOfRange => 8,
        Reply::Referenced(_) => 9,
        Reply::NotEmpty => 10,
        Reply::Dead => 11,
        Reply::Deep => 12,
        Reply::Bottom => 13,
        Reply::Running(_) => 14,
        Reply::Short(_) => 15,
        Reply::Unlike => 16,
        Reply::TooMany => 17,
        Reply::Same => 18,
        Reply::EpochsSpent => 19,
        Reply::Raced => 20,
        Reply::Busy(_) => 21,
        Reply::Fault => 22,
        Reply::CallsSpent => 23,
        Reply::NoRight => 24,
    }
}

/// The number that a refusal tells; 0 where it tells none.
fn number_told(reply: &Reply) -> u32
    ensures { result ≡ number_told reply.now }
{
    match reply {
        Reply::Quiescing(core) => u32::from(core.number()),
        Reply::Unflushed(core) => u32::from(core.number()),
        Reply::Referenced(number) => *number,
        Reply::Running(core) => u32::from(core.number()),
        Reply::Short(number) => *number,
        Reply::Busy(core) => u32::from(core.number()),
        _ => 0,
    }
}

/// Whether a reply is this refusal.
pub(crate) fn is_refusal(refusal: &Reply, reply: &Reply) -> bool
    requires { IsRefusal refusal.now }
    ensures { Decides result (reply.now ≡ refusal.now) }
{
    let same_kind = reply_number(reply) == reply_number(refusal);
    let same_number = number_told(reply) == number_told(refusal);
    same_kind & same_number
}
