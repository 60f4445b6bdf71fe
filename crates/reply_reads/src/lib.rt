//! The texts of replies: that each is read back as its reply, and that every reply of a legal trace is one that is read back.
//!
//! The words of a reply are a definition of their own, so that whoever reads a line in which a reply stands need not look at its bytes.
//!
//! See docs/FORMATS.md, 'Given histories'.
#![tactic(auto)]

ghost use Rattle.reply_reads.specs.Laws.{RepliesReadBack, LegalReplies};

/// The text of each reply in range is its words with a space between each two, as a line it has these words, and they read as that reply.
#[tactic(auto, using(crate::proofs::Reading::replies_read_back))]
pub fn replies_read_back()
    ensures { RepliesReadBack }
{}

/// Each reply that a legal trace decides is in the ranges in which replies are read on its machine.
#[tactic(auto, using(crate::proofs::Legal::legal_replies))]
pub fn legal_replies()
    ensures { LegalReplies }
{}
