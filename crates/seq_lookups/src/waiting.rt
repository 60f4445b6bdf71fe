//! The cores for which a thing may not be taken again.

ghost use Rattle.std.specs.Prelude.{◌≡◌, ◌≤◌};
ghost use Rattle.seq_state.specs.kernel_rules.specs.GracePeriods.{lowest, other_waiting, quiescing_by, unflushed_by};
ghost use Rattle.seq_state.specs.kernel_rules.specs.Rules.{waits_of, flushes_of};
ghost use Rattle.seq_state.specs.spk_nums.specs.CoreSets.{has_core};
ghost use Rattle.seq_state.specs.Parts.{thing_of};
ghost use Rattle.seq_state.specs.Maps.{state_of};
ghost use Rattle.seq_state.specs.Representation.{HasIndex};

use seq_state::spk_nums::{CoreNo, CoreSet, Reply};
use seq_state::{SeqKernel, Thing};

/// The lowest core of the machine in a set.
fn lowest(k: &SeqKernel, set: CoreSet) -> Option<CoreNo>
    ensures first { result ≡ lowest (state_of k.now) (has_core set) }
    ensures most { (state_of k.now).limits.cores ≤ 8 }
{
    'each: for number in 0..k.cores() {
        let core = CoreNo::new(number);
        if set.has(core) {
            return Some(core);
        }
    }
    None
}

/// The lowest core other than this one that waits in the grace period of a thing.
fn other_waiting(k: &SeqKernel, core: CoreNo, thing: Thing) -> Option<CoreNo>
    requires { HasIndex (thing_of thing) }
    ensures { result ≡ other_waiting (state_of k.now) core (thing_of thing) }
{
    lowest(k, k.waits(thing).without(core))
}

/// Why a core may not take a thing again: `quiescing` with the lowest other core that still waits for it.
pub fn waits_of(k: &SeqKernel, core: CoreNo, thing: Thing) -> Option<Reply>
    requires { HasIndex (thing_of thing) }
    ensures { result ≡ waits_of (state_of k.now) core (thing_of thing) }
{
    match other_waiting(k, core, thing) {
        Some(other) => Some(Reply::Quiescing(other)),
        None => None,
    }
}

/// The lowest core that has not flushed since the grace period of a thing began.
fn first_unflushed(k: &SeqKernel, thing: Thing) -> Option<CoreNo>
    requires { HasIndex (thing_of thing) }
    ensures { result ≡ lowest (state_of k.now) ((state_of k.now).grace (thing_of thing)).unflushed }
{
    lowest(k, k.unflushed(thing))
}

/// Why nobody may take a thing again: `unflushed` with the lowest core that has not flushed since its grace period began.
pub fn flushes_of(k: &SeqKernel, thing: Thing) -> Option<Reply>
    requires { HasIndex (thing_of thing) }
    ensures { result ≡ flushes_of (state_of k.now) (thing_of thing) }
{
    match first_unflushed(k, thing) {
        Some(core) => Some(Reply::Unflushed(core)),
        None => None,
    }
}
