//! The replies that are tried.

ghost use Rattle.std.specs.Prelude.{◌≡◌, ◌≤◌, ◌++◌, IfOk, OnOk, Option};
ghost use Rattle.history_options.specs.Replies.{ok_of, listed, plain_replies, core_replies, below_replies, replies_of};

use spk_nums::{CoreNo, Reply, Value};
use std::alloc::{AllocError, Global};

// Adds the reply if it is no refusal.
fn add_ok(replies: &mut Vec<Reply>, alone: &Reply) -> Result<(), AllocError>
    ensures { OnOk result (replies.new.items ≡ replies.old.items ++ ok_of alone.now) }
{
    match *alone {
        Reply::Ok(value) => replies.push(Reply::Ok(value))?,
        _ => {}
    }
    Ok(())
}

// Adds the reply, if there is one.
fn add_told(replies: &mut Vec<Reply>, told: &Option<Reply>) -> Result<(), AllocError>
    ensures { OnOk result (replies.new.items ≡ replies.old.items ++ listed told.now) }
{
    let _value: Option<Value> = None;
    match *told {
        Some(reply) => replies.push(reply)?,
        None => {}
    }
    Ok(())
}

// Adds the refusals that are names alone.
fn add_plain(replies: &mut Vec<Reply>) -> Result<(), AllocError>
    ensures { OnOk result (replies.new.items ≡ replies.old.items ++ plain_replies) }
{
    let _value: Option<Value> = None;
    replies.extend_from_slice(&[
        Reply::NoSlot,
        Reply::Empty,
        Reply::WrongCap,
        Reply::NoRight,
        Reply::Occupied,
        Reply::FrameKind,
        Reply::OutOfRange,
        Reply::NotEmpty,
        Reply::Dead,
        Reply::Deep,
        Reply::Bottom,
        Reply::Unlike,
        Reply::TooMany,
        Reply::Same,
        Reply::EpochsSpent,
        Reply::Raced,
        Reply::Fault,
        Reply::CallsSpent,
    ])
}

// Adds the replies that name this core.
fn add_core(replies: &mut Vec<Reply>, core: CoreNo) -> Result<(), AllocError>
    ensures { OnOk result (replies.new.items ≡ replies.old.items ++ core_replies core) }
{
    let _value: Option<Value> = None;
    replies.extend_from_slice(&[
        Reply::Quiescing(core),
        Reply::Unflushed(core),
        Reply::Running(core),
        Reply::Busy(core),
    ])
}

// Adds those of each core below this number.
fn add_cores(replies: &mut Vec<Reply>, cores: u8) -> Result<(), AllocError>
    requires { cores ≤ 8 }
    ensures { OnOk result (replies.new.items ≡ replies.old.items ++ below_replies cores) }
{
    'cores: for core in 0..cores {
        add_core(replies, CoreNo::new(core))?;
    }
    Ok(())
}

/// The replies that are tried of a call: the first one in order, if it is `ok`; the one that tells a number, if there is one; the refusals
/// that are names alone; and those that name a core, of each core below this number.
pub fn replies_of(
    alloc: Global,
    cores: u8,
    alone: &Reply,
    told: &Option<Reply>,
) -> Result<Vec<Reply>, AllocError>
    requires { cores ≤ 8 }
    ensures { IfOk result (λ v. v.items ≡ replies_of cores alone.now told.now) }
{
    let _value: Option<Value> = None;
    let mut replies = Vec::new(alloc);
    add_ok(&mut replies, alone)?;
    add_told(&mut replies, told)?;
    add_plain(&mut replies)?;
    add_cores(&mut replies, cores)?;
    Ok(replies)
}
