//! Numbers, capabilities, calls and replies: the words that every other crate speaks in.
//!
//! docs/FORMATS.md has the formats, docs/MODEL.md what the numbers and calls mean.
#![tactic(auto)]

mod advice;
mod call_texts;
mod calls;
mod cap;
mod core_set;
mod grants;
mod kinds;
mod limits;
mod marks;
mod memory;
mod names;
mod numbers;
mod qualities;
mod replies;
mod rights;
mod setup;
mod setup_fault;
mod steps;
mod texts;
mod translations;
mod verbs;

pub use advice::Advice;
pub use call_texts::call_name;
pub use calls::{Call, Make};
pub use cap::Cap;
pub use core_set::CoreSet;
pub use grants::{Grant, Grants};
pub use kinds::{FrameKind, Kind, Obj, PageFlags};
pub use limits::in_limits;
pub use marks::{mark_number, mark_numbered};
pub use memory::Memory;
pub use names::{frame_kind_name, kind_name, reply_name, reply_number};
pub use numbers::{CapId, CoreNo, EntryNo, FrameArg, FrameNo, PageNo, Stamp};
pub use qualities::Qualities;
pub use replies::{Decision, Reply, Value};
pub use rights::Rights;
pub use setup::Setup;
pub use setup_fault::SetupFault;
pub use steps::{How, Item, StageEnd, WordOp};
pub use texts::ReplyLine;
pub use translations::{CoreEnd, Translation, Translations};
pub use verbs::{Object, Verb, verb_name};
