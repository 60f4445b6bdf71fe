//! What a name has led to.

use crate::refusals::Refusal;
use spk_nums::Cap;

/// What a name has led to.
#[derive(Clone, Copy, PartialEq, Eq, Debug)]
pub enum Met {
    /// A capability that is wanted.
    Finds { cap: Cap },
    /// A refusal.
    Refused { refusal: Refusal },
}
