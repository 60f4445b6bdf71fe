//! The lines of frames.

ghost use Rattle.std.specs.Prelude.{◌≡◌, ◌++◌, OnOk, length, string_bytes};
ghost use Rattle.ends_text.specs.Lines.{end_line, count_lines};

use std::alloc::AllocError;

// Appends the line of a frame; none where nothing was sent there.
fn push_end(
    text: &mut String,
    frame: usize,
    sent: u64,
    taken: u64,
    left: u64,
) -> Result<(), AllocError>
    ensures { OnOk result (string_bytes text.new ≡ string_bytes text.old ++ end_line frame sent taken left) }
{
    if sent == 0 {
        return Ok(());
    }
    write!(text, "end {frame} sent {sent} taken {taken} left {left}\n")
}

/// Appends the line of each frame to which something was sent, in ascending order: how often was sent there, how much of it
/// was taken, and how much is left. The lists have a number for each frame.
pub fn push_end_lines(text: &mut String, sent: &[u64], left: &[u64]) -> Result<(), AllocError>
    requires { length left.now ≡ length sent.now }
    ensures { OnOk result (string_bytes text.new ≡ string_bytes text.old ++ count_lines sent.now left.now (length sent.now)) }
{
    for frame in 0..sent.len() {
        let taken = sent[frame].saturating_sub(left[frame]);
        push_end(text, frame, sent[frame], taken, left[frame])?;
    }
    Ok(())
}
