//! The words and numbers of kinds and replies.

ghost use Rattle.std.specs.Prelude.{◌≡◌};
ghost use Rattle.spk_nums.specs.Names.{kind_word, frame_kind_word, reply_word, reply_code};

use crate::kinds::{FrameKind, Kind};
use crate::replies::Reply;

/// The word of a kind of entry.
pub fn kind_name(kind: Kind) -> &'static str
    ensures { result.now ≡ kind_word kind }
{
    match kind {
        Kind::Range => "range",
        Kind::Table => "table",
        Kind::Leaf => "leaf",
        Kind::Pages => "pages",
        Kind::Pleaf => "pleaf",
        Kind::Comp => "comp",
        Kind::Gate => "gate",
        Kind::Thread => "thread",
        Kind::Tcap => "tcap",
        Kind::Link => "link",
        Kind::Page => "page",
    }
}

/// The word of a kind of frame.
pub fn frame_kind_name(kind: FrameKind) -> &'static str
    ensures { result.now ≡ frame_kind_word kind }
{
    match kind {
        FrameKind::Untyped => "untyped",
        FrameKind::User => "user",
        FrameKind::Kernel => "kernel",
    }
}

/// The word of a reply.
pub fn reply_name(reply: &Reply) -> &'static str
    ensures { result.now ≡ reply_word reply.now }
{
    match reply {
        Reply::Ok(_) => "ok",
        Reply::NoSlot => "no-slot",
        Reply::Empty => "empty",
        Reply::WrongCap => "wrong-cap",
        Reply::Occupied => "occupied",
        Reply::Quiescing(_) => "quiescing",
        Reply::Unflushed(_) => "unflushed",
        Reply::FrameKind => "frame-kind",
        Reply::OutOfRange => "out-of-range",
        Reply::Referenced(_) => "referenced",
        Reply::NotEmpty => "not-empty",
        Reply::Dead => "dead",
        Reply::Deep => "deep",
        Reply::Bottom => "bottom",
        Reply::Running(_) => "running",
        Reply::Short(_) => "short",
        Reply::Unlike => "unlike",
        Reply::TooMany => "too-many",
        Reply::Same => "same",
        Reply::EpochsSpent => "epochs-spent",
        Reply::Raced => "raced",
        Reply::Busy(_) => "busy",
        Reply::Fault => "fault",
        Reply::CallsSpent => "calls-spent",
        Reply::NoRight => "no-right",
    }
}

/// The number of a reply, 0 to 24.
pub fn reply_number(reply: &Reply) -> u8
    ensures { result ≡ reply_code reply.now }
{
    match reply {
        Reply::Ok(_) => 0,
        Reply::NoSlot => 1,
        Reply::Empty => 2,
        Reply::WrongCap => 3,
        Reply::Occupied => 4,
        Reply::Quiescing(_) => 5,
        Reply::Unflushed(_) => 6,
        Reply::FrameKind => 7,
        Reply::OutOfRange => 8,
        Reply::Referenced(_) => 9,
        Reply::NotEmpty => 10,
        Reply::Dead => 11,
        Reply::Deep => 12,
        Reply::Bottom => 13,
        Reply::Running(_) => 14,
        Reply::Short(_) => 15,
        Reply::Unlike => 16,
        Reply::TooMany => 17,
        Reply::Same => 18,
        Reply::EpochsSpent => 19,
        Reply::Raced => 20,
        Reply::Busy(_) => 21,
        Reply::Fault => 22,
        Reply::CallsSpent => 23,
        Reply::NoRight => 24,
    }
}
