//! What is seen of the cores.

ghost use Rattle.std.specs.Prelude.{◌≡◌, ◌<◌, length, replicate, IfOk};
ghost use Rattle.call_judge.specs.seq_plans.specs.Refusals.{Decides};
ghost use Rattle.history_check.specs.Judging.{is_inside, no_one, seen_of, is_held_up, IsAnotherSeen};

use spk_nums::{Call, CoreNo, Make, Reply};
use std::alloc::{AllocError, Global};

/// Where a core is.
#[derive(Clone, Copy, Debug)]
pub enum At {
    /// Out of a call.
    Out,
    /// In this call, which is not decided.
    Open(Call),
    /// In a call that is decided.
    Decided,
}

/// What is seen of a core: where it is, and how many calls it has entered.
#[derive(Clone, Copy, Debug)]
pub struct Seen {
    pub at: At,
    pub entered: u64,
}

// A core that has entered no call.
fn no_one() -> Seen
    ensures { result ≡ no_one }
{
    Seen {
        at: At::Out,
        entered: 0,
    }
}

/// Eight cores that have entered no call.
pub fn no_ones(alloc: Global) -> Result<Vec<Seen>, AllocError>
    ensures { IfOk result (λ seen. seen.items ≡ replicate 8 no_one) }
{
    let _made: Option<Make> = None;
    let seen = vec![in alloc;
        no_one(),
        no_one(),
        no_one(),
        no_one(),
        no_one(),
        no_one(),
        no_one(),
        no_one(),
    ]?;
    Ok(seen)
}

/// Whether a core that is there is in a call.
pub fn is_inside(at: &At) -> bool
    ensures { result ≡ is_inside at.now }
{
    match at {
        At::Out => false,
        At::Open(_) | At::Decided => true,
    }
}

/// Whether another core is in a call.
pub fn is_another_in(seen: &Vec<Seen>, core: CoreNo) -> bool
    ensures { Decides result (IsAnotherSeen seen.now.items core) }
{
    let own = usize::from(core.number());
    let mut at = 0;
    'cores: while at < seen.len() {
        if at != own && is_inside(&seen[at].at) {
            return true;
        }
        at += 1;
    }
    false
}

// Whether this core is the one that is alone.
fn is_alone(alone: Option<CoreNo>, core: CoreNo) -> bool
    ensures { result ≡ is_alone alone core }
{
    match alone {
        None => false,
        Some(one) => core == one,
    }
}

/// Whether a call of a core is held up as its reply says, if it says so.
pub fn is_held_up(alone: Option<CoreNo>, seen: &Vec<Seen>, core: CoreNo, reply: &Reply) -> bool
    requires { length seen.now.items ≡ 8 }
    ensures { result ≡ is_held_up alone seen.now.items core reply.now }
{
    match *reply {
        Reply::Raced => !is_alone(alone, core),
        Reply::Busy(other) => { other != core && is_inside(&seen[usize::from(other.number())].at) }
        _ => true,
    }
}

ghost use Rattle.history_check.specs.Judging.{is_alone};
