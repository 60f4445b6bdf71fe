//! Numbers drawn one after another, each from the one before.

ghost use Rattle.std.specs.Prelude.{◌≡◌, ◌<◌};
ghost use Rattle.load_maker.specs.Draws.{behind, below};

// The step from a number to the one after it, modulo 2^64.
const FACTOR: u64 = 6_364_136_223_846_793_005;

const SUMMAND: u64 = 1_442_695_040_888_963_407;

/// The number at which drawing stands.
#[derive(Clone, Copy, PartialEq, Eq, Debug)]
pub struct Draws {
    at: u64,
}

fn behind(number: u64) -> u64
    ensures { result ≡ behind number }
{
    number.wrapping_mul(FACTOR).wrapping_add(SUMMAND)
}

impl Draws {
    /// Drawing begins at this number.
    pub fn from(number: u32) -> Draws
        ensures { result.at ≡ number }
    {
        Draws {
            at: u64::from(number),
        }
    }

    /// Draws a number below `most`.
    pub fn below(&mut self, most: u16) -> u16
        requires { 0 < most }
        ensures value { result ≡ (below most self.old.at).0 }
        ensures goes_on { self.new.at ≡ (below most self.old.at).1 }
        ensures range { result < most }
    {
        self.at = behind(self.at);
        let high = self.at / (1 << 33);
        (high % u64::from(most)) as u16
    }
}
