//! A box behind a pointer that C may keep.
ghost use Rattle.std.specs.Prelude.{◌≡◌, Option, Some, None, IsSome};
ghost use Rattle.speck_c.specs.Kept.{kept};
ghost use Rattle.speck_c.specs.declared.held.Held.{Held};

use crate::held::Held;
use crate::parts::Parts;
use std::alloc::Global;
use std::marker::Model;

#[repr(C)]
#[derive(Drop)]
pub struct Handle {
    at: *mut u8,
    alloc: Global,
    pub ghost held: { Option Held },
}

impl Model for Handle {
    ghost also_owns = { λ h. kept h.alloc h.at h.held };
}

impl Handle {
    pub fn empty(alloc: Global) -> Handle
        ensures { result.held ≡ None }
    {
        Handle {
            at: std::ptr::null_mut(),
            alloc,
        }
    }

    pub fn of(b: Box<Held>) -> Handle
        ensures { result.held ≡ Some b.value }
    {
        Handle::of_parts(Parts::of(b))
    }

    pub fn into_box(self) -> Box<Held>
        requires { IsSome self.held }
        ensures { Some result.value ≡ self.held }
    {
        self.into_parts().into_box()
    }

    fn of_parts(parts: Parts<Held, Global>) -> Handle
        ensures { result.held ≡ Some parts.value }
    {
        let Parts { ptr, alloc } = parts;
        Handle {
            at: ptr as *mut u8,
            alloc,
        }
    }

    fn into_parts(self) -> Parts<Held, Global>
        requires { IsSome self.held }
        ensures { Some result.value ≡ self.held }
    {
        let Handle { at, alloc } = self;
        Parts {
            ptr: at as *mut Held,
            alloc,
        }
    }
}
