//! An address at which an object may be.

ghost use Rattle.std.specs.Prelude.{◌≡◌, Option, Some, None, is_some, true};
ghost use Rattle.opalport_c.specs.declared.object.Object.{Object};
ghost use Rattle.opalport_c.specs.Owned.{kept_coded, place_owns};

use crate::object::Object;
use crate::parts::Parts;
use std::alloc::Global;
use std::marker::Model;
use std::ptr::null_mut;

/// An address that owns the object there, or an address that owns nothing. A caller from outside sees no more of it than
/// the address.
#[repr(C)]
pub struct Place {
    ptr: *mut u8,
    alloc: Global,
    pub ghost kept: { Option Object } by { kept_coded },
}

impl Model for Place {
    ghost also_owns = { λ place. place_owns place.alloc place.ptr place.kept };
}

impl Place {
    /// A place with nothing.
    pub(crate) fn none(alloc: Global) -> Place
        ensures { result.kept ≡ None }
    {
        Place {
            ptr: null_mut(),
            alloc,
        }
    }

    /// A place with an object.
    pub(crate) fn of_parts(parts: Parts<Object, Global>) -> Place
        ensures { result.kept ≡ Some parts.value }
    {
        let Parts { ptr, alloc } = parts;
        Place {
            ptr: ptr as *mut u8,
            alloc,
        }
    }

    /// The object of a place that has one.
    pub(crate) fn into_parts(self) -> Parts<Object, Global>
        requires { is_some self.kept ≡ true }
        ensures { Some result.value ≡ self.kept }
    {
        let Place { ptr, alloc } = self;
        Parts {
            ptr: ptr as *mut Object,
            alloc,
        }
    }

    /// Lets a place with nothing go.
    pub(crate) fn let_go(self)
        requires { self.kept ≡ None }
    {
        let Place { ptr: _, alloc: _ } = self;
    }
}
