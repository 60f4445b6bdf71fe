//! The packed words of temporal capabilities and threads.
//!
//! See docs/FORMATS.md, 'Packed words'.
#![tactic(auto)]

mod head_word;
mod quality_word;
mod stack_word;
mod thread_word;

pub use head_word::{HeadWord, head_spelling};
pub use quality_word::{QualityWord, quality_spelling};
pub use stack_word::{StackWord, stack_spelling};
pub use thread_word::{ThreadWord, thread_spelling};
