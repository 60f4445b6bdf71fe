//! Who may reach an endpoint: what answers a core's looks at its capabilities.

ghost use Rattle.std.specs.Prelude.{◌≡◌, ◌<◌, ◌++◌, [], ◌∷◌};
ghost use Rattle.async_ends.specs.Looks.{look, NamesBelow};

use spk_nums::{CapId, Reply};

/// What a call at an endpoint asks for the capability that it names.
pub trait Authority {
    ghost use Rattle.std.specs.Prelude.{◌≡◌, ℕ, List, ◌++◌, [], ◌∷◌};
    ghost use Rattle.async_ends.specs.declared.asks.Look.{Look};
    ghost use Rattle.async_ends.specs.Looks.{look, NamesBelow};

    // The looks so far, in order, with their replies.
    ghost looks: { Self → List Look };

    // How many frames it knows, which never changes.
    ghost frame_count: { Self → ℕ };

    // What else it tells of itself and what it is after one look more.
    ghost goes: { Self → Look → Self → Type 0 };

    /// How many frames it knows.
    fn frames(&self) -> u16
        ensures { result ≡ frame_count self.now };

    /// The reply to a look at the capability of this number. A capability that it answers names a frame that it knows,
    /// if it is no range.
    fn look(&mut self, number: CapId) -> Reply
        ensures looks { looks self.new ≡ looks self.old ++ look number result ∷ [] }
        ensures frames { frame_count self.new ≡ frame_count self.old }
        ensures goes { goes self.old (look number result) self.new }
        ensures within { NamesBelow (frame_count self.old) result };
}
