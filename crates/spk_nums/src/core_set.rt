//! Sets of cores.

ghost use Rattle.std.specs.Prelude.{◌≡◌, ◌<◌, ◌==◌, ◌||◌, false, if◌then◌else◌, ℕ, true};
ghost use Rattle.spk_nums.specs.CoreSets.{has_core};

use crate::numbers::CoreNo;

/// A set of cores, which contracts see by `has_core`, its test of one core.
#[derive(Clone, Copy, PartialEq, Eq, Debug)]
pub struct CoreSet(u8);

impl CoreSet {
    /// No core.
    pub fn empty() -> CoreSet
        ensures { (core : ℕ) → has_core result core ≡ false }
    {
        CoreSet(0)
    }

    /// Whether the core is in the set.
    #[inline]
    pub fn has(self, core: CoreNo) -> bool
        ensures { result ≡ has_core self core }
    {
        (self.0 >> core.number()) & 1 == 1
    }

    /// The set with this core too.
    #[inline]
    pub fn with(self, core: CoreNo) -> CoreSet
        ensures { (other : ℕ) → other < 8 → has_core result other ≡ (if other == core then true else has_core self other) }
    {
        CoreSet(self.0 | (1 << core.number()))
    }

    /// The set without this core.
    #[inline]
    pub fn without(self, core: CoreNo) -> CoreSet
        ensures { (other : ℕ) → other < 8 → has_core result other ≡ (if other == core then false else has_core self other) }
    {
        CoreSet(self.0 & !(1 << core.number()))
    }
}
