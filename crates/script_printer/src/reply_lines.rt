//! The lines that tell the replies of calls.

ghost use Rattle.std.specs.Prelude.{◌≡◌, ◌++◌, IfOk, OnOk, string_bytes};
ghost use Rattle.spk_nums.specs.Texts.{reply_line_text};

use line_texts::push_line;
use spk_nums::{Call, CoreNo, Memory, Reply};
use std::alloc::{AllocError, Global};

// Room for most lines.
const ROOM: usize = 64;

/// Appends the reply line of a call to a text: the core, `.`, the call's index among the core's, from 1, the
/// call, ` = `, its reply, and a line feed.
pub fn push_reply_line(
    text: &mut String,
    core: CoreNo,
    index: u32,
    call: &Call,
    reply: &Reply,
) -> Result<(), AllocError>
    ensures { OnOk result (string_bytes text.new ≡ string_bytes text.old ++ reply_line_text core index call.now reply.now) }
{
    push_line(text, core, index, call, reply)
}

/// The reply line of a call.
///
/// # Errors
///
/// `Memory` where memory has run out.
pub fn reply_line(
    alloc: Global,
    core: CoreNo,
    index: u32,
    call: &Call,
    reply: &Reply,
) -> Result<String, Memory>
    ensures { IfOk result (λ text. string_bytes text ≡ reply_line_text core index call.now reply.now) }
{
    let mut text = String::with_capacity(alloc, ROOM)?;
    push_reply_line(&mut text, core, index, call, reply)?;
    Ok(text)
}
