//! Replies.

ghost use Rattle.std.specs.Prelude.{◌≡◌, ◌<◌, ◌≤◌, IfOk};
ghost use Rattle.line_reader.specs.Arguments.{texts};
ghost use Rattle.history_reader.specs.Replies.{later_name, plain_name, reply_name, core_named, count_named, reply_by, reply_of};

use crate::values::value_at;
use call_reader::core_at;
use line_reader::{Cause, end_at, is_word, number_at, word_at};
use script_tokens::Token;
use spk_nums::{CoreNo, Reply, Value};

/// The name of a reply: one after which a value, a core or a number comes, or one that is a reply by itself.
#[derive(Clone, Copy, Debug, PartialEq, Eq)]
pub enum ReplyName {
    Ok,
    Quiescing,
    Unflushed,
    Running,
    Busy,
    Referenced,
    Short,
    Plain(Reply),
}

#[tactic(auto, unfolding(crate::specs::Replies::later_name))]
fn later_name(word: &[u8]) -> Option<ReplyName>
    ensures { result ≡ later_name word.now }
{
    if is_word(word, "dead") {
        Some(ReplyName::Plain(Reply::Dead))
    } else if is_word(word, "deep") {
        Some(ReplyName::Plain(Reply::Deep))
    } else if is_word(word, "bottom") {
        Some(ReplyName::Plain(Reply::Bottom))
    } else if is_word(word, "unlike") {
        Some(ReplyName::Plain(Reply::Unlike))
    } else if is_word(word, "too-many") {
        Some(ReplyName::Plain(Reply::TooMany))
    } else if is_word(word, "same") {
        Some(ReplyName::Plain(Reply::Same))
    } else if is_word(word, "epochs-spent") {
        Some(ReplyName::Plain(Reply::EpochsSpent))
    } else if is_word(word, "raced") {
        Some(ReplyName::Plain(Reply::Raced))
    } else if is_word(word, "fault") {
        Some(ReplyName::Plain(Reply::Fault))
    } else if is_word(word, "calls-spent") {
        Some(ReplyName::Plain(Reply::CallsSpent))
    } else if is_word(word, "no-right") {
        Some(ReplyName::Plain(Reply::NoRight))
    } else {
        None
    }
}

#[tactic(auto, unfolding(crate::specs::Replies::plain_name))]
fn plain_name(word: &[u8]) -> Option<ReplyName>
    ensures { result ≡ plain_name word.now }
{
    if is_word(word, "no-slot") {
        Some(ReplyName::Plain(Reply::NoSlot))
    } else if is_word(word, "empty") {
        Some(ReplyName::Plain(Reply::Empty))
    } else if is_word(word, "wrong-cap") {
        Some(ReplyName::Plain(Reply::WrongCap))
    } else if is_word(word, "occupied") {
        Some(ReplyName::Plain(Reply::Occupied))
    } else if is_word(word, "frame-kind") {
        Some(ReplyName::Plain(Reply::FrameKind))
    } else if is_word(word, "out-of-range") {
        Some(ReplyName::Plain(Reply::OutOfRange))
    } else if is_word(word, "not-empty") {
        Some(ReplyName::Plain(Reply::NotEmpty))
    } else {
        later_name(word)
    }
}

#[tactic(auto, unfolding(crate::specs::Replies::reply_name))]
fn reply_name(word: &[u8]) -> Option<ReplyName>
    ensures { result ≡ reply_name word.now }
{
    if is_word(word, "ok") {
        Some(ReplyName::Ok)
    } else if is_word(word, "quiescing") {
        Some(ReplyName::Quiescing)
    } else if is_word(word, "unflushed") {
        Some(ReplyName::Unflushed)
    } else if is_word(word, "running") {
        Some(ReplyName::Running)
    } else if is_word(word, "busy") {
        Some(ReplyName::Busy)
    } else if is_word(word, "referenced") {
        Some(ReplyName::Referenced)
    } else if is_word(word, "short") {
        Some(ReplyName::Short)
    } else {
        plain_name(word)
    }
}

#[tactic(auto, unfolding(crate::specs::Replies::core_named))]
fn core_named(words: &[Token], cores: u8) -> Result<CoreNo, Cause>
    requires { cores ≤ 8 }
    ensures { result ≡ core_named cores (texts words.now) }
{
    let core = core_at(words, 1, cores)?;
    end_at(words, 2)?;
    Ok(core)
}

#[tactic(auto, unfolding(crate::specs::Replies::count_named))]
fn count_named(words: &[Token]) -> Result<u32, Cause>
    ensures { result ≡ count_named (texts words.now) }
{
    let count = number_at(words, 1, 0, 4_294_967_295)?;
    end_at(words, 2)?;
    Ok(count as u32)
}

#[tactic(auto, unfolding(crate::specs::Replies::reply_by))]
fn reply_by(words: &[Token], cores: u8, name: ReplyName) -> Result<Reply, Cause>
    requires { cores ≤ 8 }
    ensures { result ≡ reply_by cores (texts words.now) name }
{
    match name {
        ReplyName::Ok => Ok(Reply::Ok(value_at(words)?)),
        ReplyName::Quiescing => Ok(Reply::Quiescing(core_named(words, cores)?)),
        ReplyName::Unflushed => Ok(Reply::Unflushed(core_named(words, cores)?)),
        ReplyName::Running => Ok(Reply::Running(core_named(words, cores)?)),
        ReplyName::Busy => Ok(Reply::Busy(core_named(words, cores)?)),
        ReplyName::Referenced => Ok(Reply::Referenced(count_named(words)?)),
        ReplyName::Short => Ok(Reply::Short(count_named(words)?)),
        ReplyName::Plain(reply) => {
            end_at(words, 1)?;
            Ok(reply)
        }
    }
}

/// The reply that words are: S3 where there is none, S2 where its name is unknown. A core that is not below `cores` is S6, and a number
/// above 4,294,967,295 S5.
#[tactic(auto, unfolding(crate::specs::Replies::reply_of))]
pub fn reply_of(words: &[Token], cores: u8) -> Result<Reply, Cause>
    requires { cores ≤ 8 }
    ensures { result ≡ reply_of cores (texts words.now) }
{
    // The check of a function that moves replies asks for the types that they hold.
    let _value: Option<Value> = None;
    let word = word_at(words, 0)?;
    let name = reply_name(word).ok_or(Cause::S2)?;
    reply_by(words, cores, name)
}
