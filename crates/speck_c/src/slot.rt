//! What C keeps.

ghost use Rattle.std.specs.Prelude.{◌≡◌, true, IsSome};

use crate::handle::Handle;
use crate::held::Held;
use std::alloc::Global;
use std::mem;

/// What C keeps of a machine, a port or a note: all zeros at first. No field of it is C's.
#[repr(C)]
#[derive(Drop)]
pub struct Slot {
    full: bool,
    handle: Handle,
    ghost says: { full ≡ true → IsSome handle.held },
}

impl Slot {
    ghost use Rattle.std.specs.Prelude.{◌≡◌, Some, None, IsTrue, ◌↔◌, MatchOption};
    ghost use Rattle.speck_c.specs.Slots.{held_in};

    // Whether it holds nothing.
    pub(crate) fn is_empty(&self) -> bool
        ensures { IsTrue result ↔ (held_in self.now ≡ None) }
    {
        !self.full
    }

    // Takes out what is held.
    pub(crate) fn take(&mut self, alloc: Global) -> Option<Box<Held>>
        ensures { MatchOption result ((held_in self.old ≡ None) × (self.new ≡ self.old))
            (λ b. (held_in self.old ≡ Some b.value) × (held_in self.new ≡ None)) }
    {
        if !self.full {
            return None;
        }
        let old = mem::replace(
            self,
            Slot {
                full: false,
                handle: Handle::empty(alloc),
            },
        );
        let Slot { full: _, handle } = old;
        Some(handle.into_box())
    }

    // Puts a box in. What was held before is leaked.
    pub(crate) fn put(&mut self, held: Box<Held>)
        ensures { held_in self.new ≡ Some held.value }
    {
        *self = Slot {
            full: true,
            handle: Handle::of(held),
        };
    }
}
