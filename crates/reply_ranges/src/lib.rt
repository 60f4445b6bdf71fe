//! The ranges of replies: what a reply of the sequential kernel can name and count. So a text with all replies of a run can be read back
//! into the types of the code.
#![tactic(auto)]

ghost use Rattle.reply_ranges.specs.Ranges.{RepliesInRange};

/// In every state that a run reaches, each reply that may decide a call is in range: a core is one of the machine's, a count or an amount
/// is below 2^32, a frame is below 512, and a capability's number and rights are in the range of its kind. Of a `busy` the call relation
/// says nothing: its core is whose mark was found.
#[tactic(auto, using(crate::proofs::Replies::replies_in_range))]
pub fn replies_in_range()
    ensures { RepliesInRange }
{}
