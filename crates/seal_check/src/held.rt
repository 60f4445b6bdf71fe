//! What places hold, and what is held by it.

ghost use Rattle.std.specs.Prelude.{◌≡◌, ◌<◌};
ghost use Rattle.seq_lookups.specs.seq_state.specs.Maps.{state_of};
ghost use Rattle.seal_check.specs.Holding.{IsUsedAt, holds};
ghost use Rattle.seq_lookups.specs.seq_state.specs.kernel_rules.specs.Access.{found};
ghost use Rattle.seq_lookups.specs.seq_state.specs.kernel_rules.specs.CapabilityCalls.{has_frame};

use seq_lookups::seq_state::SeqKernel;
use seq_lookups::{Slot, usable};
use spk_nums::{Cap, CoreNo, Kind, Rights};

/// What some core may use at a slot: what is held there; and what was removed, while it still serves a call in progress.
pub fn used_at(k: &SeqKernel, at: Slot) -> Option<Cap>
    ensures { IsUsedAt (state_of k.now) at result }
{
    'cores: for number in 0..k.cores() {
        let found = usable(k, CoreNo::new(number), at);
        if found.is_some() {
            return found;
        }
    }
    None
}

/// Whether a capability holds what it leads to: it has the right to use, and is no gate.
pub fn holds(cap: Cap) -> bool
    ensures { result ≡ holds cap }
{
    cap.rights().has(Rights::USE) && cap.kind() != Kind::Gate
}

/// Whether a range has a frame.
pub fn in_range(range: Cap, frame: usize) -> bool
    ensures { result ≡ has_frame (found range) frame }
{
    let first = usize::from(range.frame().number());
    first <= frame && frame < first + range.arg() as usize
}
