//! Reply lines.

ghost use Rattle.std.specs.Prelude.{◌≡◌, ◌++◌, OnOk, string_bytes};
ghost use Rattle.spk_nums.specs.Texts.{reply_line_text};

use crate::calls::push_call;
use crate::numbers::push_number;
use crate::replies::push_reply;
use spk_nums::{Call, CoreNo, Reply};
use std::alloc::AllocError;

/// Appends the reply line of a call: the core, `.`, the call's index among the core's, from 1, the call, ` = `, its reply, and
/// a line feed. Where memory has run out the text may have a part of it.
pub fn push_line(
    text: &mut String,
    core: CoreNo,
    index: u32,
    call: &Call,
    reply: &Reply,
) -> Result<(), AllocError>
    ensures { OnOk result (string_bytes text.new ≡ string_bytes text.old ++ reply_line_text core index call.now reply.now) }
{
    push_number(text, u32::from(core.number()))?;
    text.push('.')?;
    push_number(text, index)?;
    text.push(' ')?;
    push_call(text, call)?;
    text.push_str(" = ")?;
    push_reply(text, reply)?;
    text.push('\n')
}
