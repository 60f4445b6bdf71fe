//! Whether a set of frames is sealed, over the plain kernel.
//!
//! **Sealed.** A world is sealed where nothing outside holds any of its frames. Each place outside is looked at, for what stands there and
//! for what was removed and still serves a call in progress, and so are the table and the pages of each component outside. A frame past the
//! slice is outside.
//!
//! **No memory.** Nothing here takes memory, and the kernel stays as it is.
//!
//! See docs/WORLDS.md.
#![tactic(auto)]

mod held;
mod sealed;

pub use held::{holds, in_range, used_at};
pub use sealed::is_sealed;
