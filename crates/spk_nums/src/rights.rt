//! The rights of a capability.

ghost use Rattle.std.specs.Prelude.{⊤, ◌≡◌, [], ◌∷◌, codes};
ghost use Rattle.spk_nums.specs.Rights.{both, has_rights};

use bitflags::{Flag, Flags, bitflag_items};

/// What a name that leads to a capability may be used for: a set of bits, bit 0 to copy the capability, bit 1 to use it.
#[derive(Clone, Copy, PartialEq, Eq, Debug)]
pub struct Rights(u8);

bitflag_items! {
    impl Rights: u8 {
        const COPY = 1;
        const USE = 2;
    }
}

impl Flags for Rights {
    type Bits = u8;

    ghost exact = { ⊤ };

    ghost table = { (codes "COPY", 1) ∷ (codes "USE", 2) ∷ [] };

    ghost set_of = { λ r. r.0 };

    fn flags<'a>() -> &'a [Flag<Rights>] {
        Rights::FLAGS
    }

    fn bits(&self) -> u8 {
        self.0
    }

    fn from_bits_retain(bits: u8) -> Rights {
        Rights(bits)
    }
}

impl Rights {
    /// Neither right.
    #[inline]
    pub fn none() -> Rights
        ensures { result ≡ record { 0 = 0 } }
    {
        Rights(0)
    }

    /// Both rights.
    #[inline]
    pub fn both() -> Rights
        ensures { result ≡ record { 0 = both } }
    {
        Rights(3)
    }

    /// The rights of these bits.
    #[inline]
    pub fn of_bits(bits: u8) -> Rights
        ensures { result ≡ record { 0 = bits } }
    {
        Rights(bits)
    }

    /// The bits as a number, bit 0 to copy, bit 1 to use.
    #[inline]
    pub fn number(self) -> u8
        ensures { result ≡ self.0 }
    {
        self.0
    }

    /// Whether all the rights that are needed are among these.
    #[inline]
    pub fn has(self, needs: Rights) -> bool
        ensures { result ≡ has_rights self.0 needs.0 }
    {
        self.0 & needs.0 == needs.0
    }
}
