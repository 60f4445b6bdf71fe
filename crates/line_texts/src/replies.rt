//! Replies.

ghost use Rattle.std.specs.Prelude.{◌≡◌, ◌++◌, OnOk, string_bytes};
ghost use Rattle.spk_nums.specs.Texts.{cap_text, cap_text_by, ok_text, reply_text};

use crate::numbers::{push_one, push_pair, push_spaced};
use spk_nums::{Cap, Kind, Reply, Value, kind_name, reply_name};
use std::alloc::AllocError;

// Appends what a capability names.
fn push_named(text: &mut String, cap: &Cap) -> Result<(), AllocError>
    ensures { OnOk result (string_bytes text.new ≡ string_bytes text.old ++ cap_text_by cap.now.kind cap.now.frame cap.now.arg) }
{
    let frame = u32::from(cap.frame().number());
    let arg = cap.arg();
    match cap.kind() {
        Kind::Range => push_pair(text, "range", frame, arg),
        Kind::Gate => push_pair(text, "gate", frame, arg),
        Kind::Page => push_pair(text, "page", frame, arg),
        kind => push_one(text, kind_name(kind), frame),
    }
}

// Appends a capability, with its rights where it lacks one.
fn push_cap(text: &mut String, cap: &Cap) -> Result<(), AllocError>
    ensures { OnOk result (string_bytes text.new ≡ string_bytes text.old ++ cap_text cap.now) }
{
    let rights = cap.rights().number();
    push_named(text, cap)?;
    if rights == 3 {
        return Ok(());
    }
    text.push_str(" rights")?;
    push_spaced(text, u32::from(rights))
}

fn push_ok(text: &mut String, value: &Value) -> Result<(), AllocError>
    ensures { OnOk result (string_bytes text.new ≡ string_bytes text.old ++ ok_text value.now) }
{
    match value {
        Value::Nothing => text.push_str("ok"),
        Value::Cap(cap) => {
            text.push_str("ok ")?;
            push_cap(text, cap)
        }
        Value::Page { frame, flags } => {
            push_pair(
                text,
                "ok",
                u32::from(frame.number()),
                u32::from(flags.number()),
            )
        }
        Value::Amount(amount) => push_one(text, "ok", *amount),
        Value::Preempts => text.push_str("ok preempts"),
        Value::Stays => text.push_str("ok stays"),
    }
}

/// Appends a reply: its word, then its number where it has one.
pub fn push_reply(text: &mut String, reply: &Reply) -> Result<(), AllocError>
    ensures { OnOk result (string_bytes text.new ≡ string_bytes text.old ++ reply_text reply.now) }
{
    match reply {
        Reply::Ok(value) => push_ok(text, value),
        Reply::Quiescing(core) => push_one(text, "quiescing", u32::from(core.number())),
        Reply::Unflushed(core) => push_one(text, "unflushed", u32::from(core.number())),
        Reply::Referenced(count) => push_one(text, "referenced", *count),
        Reply::Running(core) => push_one(text, "running", u32::from(core.number())),
        Reply::Short(budget) => push_one(text, "short", *budget),
        Reply::Busy(core) => push_one(text, "busy", u32::from(core.number())),
        other => text.push_str(reply_name(other)),
    }
}
