//! What a call puts, and from what.

ghost use Rattle.std.specs.Prelude.{◌≡◌, ◌<◌};
ghost use Rattle.std.specs.Option.{option_map};
ghost use Rattle.call_judge.specs.seq_state.specs.Maps.{state_of};
ghost use Rattle.origin_rules.specs.Chains.{slot_named, slot_under, put_from, puts, puts_by};
ghost use Rattle.confinement.specs.Links.{put_of};

use origin_rules::Step;
use seq_lookups::{Slot, Target, Wanted, comp_of, named_for, reached};
use seq_state::SeqKernel;
use spk_nums::{Call, CapId, CoreNo, Kind, Reply, Rights};

/// A capability that a call puts: the slot, how it is put, and the slot where its parent stands.
#[derive(Clone, Copy)]
pub struct Put {
    /// Where it is put.
    pub at: Slot,
    /// How it is put.
    pub what: Step,
    /// Where its parent stands.
    pub parent: Slot,
}

/// The slot to which a number leads a core.
fn slot_named(k: &SeqKernel, core: CoreNo, number: CapId) -> Option<Slot>
    requires { core < (state_of k.now).limits.cores }
    ensures { result ≡ slot_named (state_of k.now) core number }
{
    let target = Target::Under {
        root: comp_of(k, core).table,
        number: number.number(),
    };
    reached(k, core, target)
}

/// The slot under a number of a table that a core names.
fn slot_under(k: &SeqKernel, core: CoreNo, table: CapId, number: CapId) -> Option<Slot>
    requires { core < (state_of k.now).limits.cores }
    ensures { result ≡ slot_under (state_of k.now) core table number }
{
    match named_for(k, core, table, Wanted::Only(Kind::Table), Rights::USE) {
        Ok(cap) => reached(
            k,
            core,
            Target::Under {
                root: cap.frame(),
                number: number.number(),
            },
        ),
        Err(_) => None,
    }
}

/// A capability is put at a slot, from a parent.
fn put_from(what: Step, parent: Option<Slot>, at: Option<Slot>) -> Option<Put>
    ensures { option_map put_of result ≡ put_from what parent at }
{
    match parent {
        None => None,
        Some(parent) => match at {
            None => None,
            Some(at) => Some(Put { at, what, parent }),
        },
    }
}

/// What a call of a core puts that is carried out: a copy puts one from the capability that is copied, a `make` and a `part` from their
/// range, and a `gate` from its component.
fn puts(k: &SeqKernel, core: CoreNo, call: &Call) -> Option<Put>
    requires { core < (state_of k.now).limits.cores }
    ensures { option_map put_of result ≡ puts (state_of k.now) core call.now }
{
    match *call {
        Call::Copy { a, t, b, .. } => put_from(
            Step::Copied,
            slot_named(k, core, a),
            slot_under(k, core, t, b),
        ),
        Call::Make {
            range,
            table,
            slot,
            ..
        } => put_from(
            Step::Made,
            slot_named(k, core, range),
            slot_under(k, core, table, slot),
        ),
        Call::Gate { c, t, b } => put_from(
            Step::Gated,
            slot_named(k, core, c),
            slot_under(k, core, t, b),
        ),
        Call::Part { r, t, b, .. } => put_from(
            Step::Parted,
            slot_named(k, core, r),
            slot_under(k, core, t, b),
        ),
        _ => None,
    }
}

/// What a call of a core puts that is decided with this reply: a refused one puts nothing.
pub fn puts_by(k: &SeqKernel, core: CoreNo, call: &Call, reply: &Reply) -> Option<Put>
    requires { core < (state_of k.now).limits.cores }
    ensures { option_map put_of result ≡ puts_by (state_of k.now) core call.now reply.now }
{
    match *reply {
        Reply::Ok(_) => puts(k, core, call),
        _ => None,
    }
}
