//! Ports that are dealt and taken back.

ghost use Rattle.std.specs.Prelude.{◌≡◌, ◌+◌, ◌++◌, ◌∷◌, ℕ, [], length, slice_get, Some, IfOk, IfSome};
ghost use Rattle.core_machine.specs.Seats.{IsDealt, IsDealtAfter};

use core_machine::{Names, Port, PortOf, Seats, SeatsOf};
use std::alloc::{AllocError, Global};

/// The port of the next core.
pub fn deal(seats: &mut Seats) -> Option<Port>
    ensures { IfSome result (λ p. IsDealt seats.old p) }
{
    seats.deal()
}

/// All ports that are not dealt yet.
pub fn deal_all<K: Names>(
    seats: &mut SeatsOf<K>,
    alloc: Global,
) -> Result<Vec<PortOf<K>>, AllocError>
    ensures count { IfOk result (λ v. seats.old.seats.dealt + length v.items ≡ seats.old.seats.kernel.setup.cores) }
    ensures each { IfOk result (λ v. (k : ℕ) (p : _) → slice_get v.items k ≡ Some p → IsDealtAfter k seats.old.seats p.port) }
{
    seats.deal_all(alloc)
}

/// Takes a port back.
pub fn take_back(seats: &mut Seats, port: Port)
    requires kernel { port.kernel ≡ seats.old.kernel }
    requires core { port.core ≡ length seats.old.back }
    ensures { seats.new.back ≡ seats.old.back ++ port ∷ [] }
{
    seats.take_back(port);
}

/// Takes the ports of cores 0 and 1 back, in this order.
pub fn take_both_back(seats: &mut Seats, first: Port, second: Port)
    requires none { seats.old.back ≡ [] }
    requires first { (first.kernel ≡ seats.old.kernel) × (first.core ≡ 0) }
    requires second { (second.kernel ≡ seats.old.kernel) × (second.core ≡ 1) }
    ensures { seats.new.kernel ≡ seats.old.kernel }
{
    let (one, other) = (first, second);
    seats.take_back(one);
    seats.take_back(other);
}
