//! The law of marked heads.

ghost use Rattle.std.specs.Prelude.{◌≡◌};
ghost use Rattle.flight.specs.spk_nums.specs.Setting.{Setting, IsSetting};
ghost use Rattle.flight.specs.kernel_history.specs.Trace.{Trace};
ghost use Rattle.flight.specs.Made.{IsMade};
ghost use Rattle.history_laws.specs.Time.{MarkedHeadsSay};

/// At each moment a head that a core has marked, in a call that is decided, shows that core's mark and the budget but for the ticks that
/// the call has still to store there.
#[tactic(auto, using(crate::proofs::OwedHeads::marked_heads_say))]
pub fn marked_heads_say()
    ensures { (setup : Setting) → IsSetting setup → (t : Trace) → IsMade setup t → MarkedHeadsSay setup t }
{}
