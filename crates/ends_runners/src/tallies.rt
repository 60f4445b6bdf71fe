//! How often was sent to each frame.

ghost use Rattle.std.specs.Prelude.{◌≡◌, ℕ, ◌+◌, ◌*◌, ◌<◌, ◌≤◌, ◌^◌, All, IfOk, length, slice_index};
ghost use Rattle.ends_runners.specs.Tallies.{sends_of, sends_among, sends_by};

use crate::authority::MOST_FRAMES;
use crate::runner::EndRunner;
use async_ends::{EndDone, EndReply};
use std::alloc::{AllocError, Global};

// Adds a call's send, if it is one that was not refused, to its frame's number.
fn add_send(sent: &mut Vec<u64>, one: &EndDone)
    requires size { length sent.old.items ≡ 512 }
    requires room { (f : ℕ) → slice_index sent.old.items f + 1 < 2 ^ 64 }
    ensures size { length sent.new.items ≡ 512 }
    ensures adds { (f : ℕ) → slice_index sent.new.items f ≡ slice_index sent.old.items f + sends_of one.now f }
{
    if one.answer != EndReply::Sent {
        return;
    }
    if let Ok(frame) = one.ask.op.reach(&one.looked) {
        sent[usize::from(frame.number())] += 1;
    }
}

// Adds the sends among these calls.
fn add_sends(sent: &mut Vec<u64>, done: &[EndDone])
    requires size { length sent.old.items ≡ 512 }
    requires room { (f : ℕ) → slice_index sent.old.items f + length done.now < 2 ^ 64 }
    ensures size { length sent.new.items ≡ 512 }
    ensures adds { (f : ℕ) → slice_index sent.new.items f ≡ slice_index sent.old.items f + sends_among done.now f }
{
    for one in done {
        add_send(sent, one);
    }
}

/// How often the runners have sent to each of 512 frames. They are at most 8, and each has made fewer than 2^32 calls.
pub fn sent_by(alloc: Global, runners: &[EndRunner]) -> Result<Vec<u64>, AllocError>
    requires some { length runners.now ≤ 8 }
    requires few { All (λ r. length r.done < 2 ^ 32) runners.now }
    ensures size { IfOk result (λ v. length v.items ≡ 512) }
    ensures sent { IfOk result (λ v. (f : ℕ) → slice_index v.items f ≡ sends_by runners.now f) }
{
    let mut sent = vec![in alloc; 0; usize::from(MOST_FRAMES)]?;
    for runner in runners {
        add_sends(&mut sent, runner.done.as_slice());
    }
    Ok(sent)
}
