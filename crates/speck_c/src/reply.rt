//! A reply as C reads it.

ghost use Rattle.std.specs.Prelude.{◌≡◌};
ghost use Rattle.spk_nums.specs.Advices.{advice_of};
ghost use Rattle.spk_nums.specs.Names.{reply_code};
ghost use Rattle.speck_c.specs.Flat.{advice_code, blank, refusal, carried, named, flat};

use final_parts::kind_number;
use spk_nums::{Advice, Reply, Value, reply_number};

/// A reply's number as `spk_nums` has it (`reply_number`), or 254 or 255, which are no replies, and what it carries: `value` says what
/// (0 nothing, 1 a capability, 2 a page, 3 an amount, 4 preempts, 5 stays), `kind` the kind of a capability, `flags` its
/// rights or those of a page, `frame` the frame of either, `n` the number of a capability, an amount, a budget, a count or a core.
/// `advice` is what a caller may do: the number of its `Advice`, from 0 in the order of its declaration.
#[repr(C)]
#[derive(Clone, Copy, PartialEq, Eq, Debug)]
pub struct SpeckReply {
    pub code: u8,
    pub value: u8,
    pub kind: u8,
    pub flags: u8,
    pub frame: u16,
    pub advice: u8,
    pub n: u32,
}

// What is answered, by a number that is no reply's, where no call was made.
pub(crate) fn blank_reply(code: u8) -> SpeckReply
    ensures { result ≡ blank code }
{
    refusal_reply(code, 1, 0)
}

fn refusal_reply(code: u8, advice: u8, n: u32) -> SpeckReply
    ensures { result ≡ refusal code advice n }
{
    SpeckReply {
        code,
        value: 0,
        kind: 0,
        flags: 0,
        frame: 0,
        advice,
        n,
    }
}

fn carried_value(value: u8, kind: u8, flags: u8, frame: u16, n: u32) -> SpeckReply
    ensures { result ≡ record { code = 0; value = value; kind = kind; flags = flags; frame = frame; advice = 0; n = n } }
{
    SpeckReply {
        code: 0,
        value,
        kind,
        flags,
        frame,
        advice: 0,
        n,
    }
}

#[inline(always)]
fn value_reply(value: Value) -> SpeckReply
    ensures { result ≡ carried value }
{
    match value {
        Value::Nothing => carried_value(0, 0, 0, 0, 0),
        Value::Cap(cap) => carried_value(
            1,
            kind_number(cap.kind()),
            cap.rights().number(),
            cap.frame().number(),
            cap.arg(),
        ),
        Value::Page { frame, flags } => carried_value(2, 0, flags.number(), frame.number(), 0),
        Value::Amount(n) => carried_value(3, 0, 0, 0, n),
        Value::Preempts => carried_value(4, 0, 0, 0, 0),
        Value::Stays => carried_value(5, 0, 0, 0, 0),
    }
}

fn advice_number(advice: Advice) -> u8
    ensures { result ≡ advice_code advice }
{
    match advice {
        Advice::Done => 0,
        Advice::Change => 1,
        Advice::GiveUp => 2,
        Advice::Release(_) => 3,
        Advice::AwaitReturn(_) => 4,
        Advice::AwaitFlush(_) => 5,
        Advice::AwaitSwitch(_) => 6,
        Advice::Again => 7,
    }
}

// The core, count or budget that a refusal names.
fn named_number(reply: &Reply) -> u32
    ensures { result ≡ named reply.now }
{
    match reply {
        Reply::Quiescing(core) => u32::from(core.number()),
        Reply::Unflushed(core) => u32::from(core.number()),
        Reply::Referenced(k) => *k,
        Reply::Running(core) => u32::from(core.number()),
        Reply::Short(budget) => *budget,
        Reply::Busy(core) => u32::from(core.number()),
        _ => 0,
    }
}

// The answer that tells a refusal.
#[inline(never)]
fn refused_reply(reply: Reply) -> SpeckReply
    ensures { result ≡ refusal (reply_code reply) (advice_code (advice_of reply)) (named reply) }
{
    refusal_reply(
        reply_number(&reply),
        advice_number(reply.advice()),
        named_number(&reply),
    )
}

// The answer that tells the reply.
#[inline(always)]
pub(crate) fn flat_reply(reply: Reply) -> SpeckReply
    ensures { result ≡ flat reply }
{
    match reply {
        Reply::Ok(value) => value_reply(value),
        other => refused_reply(other),
    }
}
