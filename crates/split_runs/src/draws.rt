//! Numbers drawn one after another, each from the one before.

ghost use Rattle.std.specs.Prelude.{◌<◌};

// The step from a number to the one after it, modulo 2^64.
const FACTOR: u64 = 6_364_136_223_846_793_005;

const SUMMAND: u64 = 1_442_695_040_888_963_407;

/// The number at which drawing stands.
#[derive(Clone, Copy, PartialEq, Eq, Debug)]
pub struct Draws {
    at: u64,
}

impl Draws {
    /// Drawing begins at this number.
    pub fn from(seed: u32) -> Draws {
        Draws {
            at: u64::from(seed),
        }
    }

    /// Draws a number below `most`.
    pub fn below(&mut self, most: u16) -> u16
        requires { 0 < most }
        ensures { result < most }
    {
        self.at = self.at.wrapping_mul(FACTOR).wrapping_add(SUMMAND);
        let high = self.at / (1 << 33);
        (high % u64::from(most)) as u16
    }

    /// Draws whether something that comes once in so many times comes now.
    pub fn is_one_in(&mut self, most: u16) -> bool
        requires { 0 < most }
    {
        self.below(most) == 0
    }
}
