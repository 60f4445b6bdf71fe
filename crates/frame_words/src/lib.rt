//! The packed words of frames, counts, cores, flushes, liveness numbers and components.
//!
//! See docs/FORMATS.md, 'Packed words'.
#![tactic(auto)]

mod comp_word;
mod core_word;
mod count_word;
mod flush_word;
mod frame_word;
mod live_word;
mod modulo;

pub use comp_word::{CompWord, comp_spelling};
pub use core_word::{CoreWord, core_spelling};
pub use count_word::{CountWord, Hold, count_spelling};
pub use flush_word::{FlushWord, flush_spelling};
pub use frame_word::{FrameWord, frame_spelling};
pub use live_word::{LiveWord, live_spelling};
pub use modulo::{residue, signed, wrapped};
