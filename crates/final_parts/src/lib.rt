//! What a finished machine holds, part by part, as flat structs that C and others can read.
//!
//! **Parts.** A part is named by numbers: a frame, an entry of a node, a capability or a page under a root, a core's count of a frame, a
//! component, a place of a thread's stack, a budget, a quality, a liveness number, a core, and one of its translations. Each reader is
//! total: numbers outside the machine, a frame that holds another object, and a place that holds nothing are told apart.
//!
//! **Nothing is copied** but the part itself, and no memory is taken.
//!
//! The text that `table_report` prints shows the same words.
#![tactic(auto)]

mod cores;
mod last;
mod nodes;
mod objects;
mod parts;

pub use cores::{cached_part, core_part, live_part, size_part};
pub use last::Last;
pub use nodes::{count_part, entry_part, frame_part, under_part};
pub use objects::{budget_part, comp_part, quality_part, stack_part};
pub use parts::{
    CachedPart, CapPart, CompPart, CorePart, FramePart, LivePart, NoPart, QualityPart, SizePart,
    kind_number,
};
