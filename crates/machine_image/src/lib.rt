//! What a machine's final words say, as values of their fields' types.
//!
//! An image borrows the words and the cores' ends that a machine leaves behind, and lends its parts: nothing is copied and no
//! memory is taken. Beside the value of each word it has the lists that a reader of a table wants: the capabilities of a
//! capability table by their numbers, the mappings of a page table by their pages, the counts of a frame by core, the
//! components on a thread's stack, and the pairs of a temporal capability's list.
//!
//! See docs/FORMATS.md, 'Packed words' and 'Places of the words'.
#![tactic(auto)]

mod image;
mod nodes;
mod objects;
mod words;

pub use entry_words;
pub use frame_words;
pub use image::{Component, Counts, Image, image_of};
pub use nodes::{Caps, Maps, NodeView};
pub use objects::{Qualities, Stack};
pub use spk_nums;
pub use tcap_words;
pub use word_map;
