//! What lets a runner make its next call.

ghost use Rattle.std.specs.Prelude.{◌≡◌, true, IsTrue};

use spk_nums::CoreNo;

/// What a runner asks before each of its calls. Several threads may ask at once.
pub trait Gate: Sync {
    ghost use Rattle.std.specs.Prelude.{◌≡◌, Bool, true, IsTrue};

    // Whether the gate lets every call go on.
    ghost is_free: { Self → Bool };

    /// Whether the core may make its next call, where its runner has made so many. A free gate answers true.
    fn may_go(&self, core: CoreNo, made: u64) -> bool
        ensures { is_free self.now ≡ true → IsTrue result };
}

/// The gate that is free.
#[derive(Clone, Copy, Debug)]
pub struct FreeGate;

impl Gate for FreeGate {
    ghost use Rattle.std.specs.Prelude.{true};

    ghost is_free = { λ _. true };

    fn may_go(&self, _core: CoreNo, _made: u64) -> bool {
        true
    }
}
