//! What a caller from outside holds in place of an object.

ghost use Rattle.std.specs.Prelude.{◌≡◌, ◌==◌, Option, Some, None, is_some, MatchOption};
ghost use Rattle.opalport_c.specs.Marks.{open_mark};

use crate::object::Object;
use crate::parts::Parts;
use crate::place::Place;
use std::alloc::Global;
use std::mem::replace;

/// The mark of a handle that has an object: `opalport`, the first letter in the most significant byte.
const OPEN: u64 = 0x6f70_616c_706f_7274;

/// What a caller from outside holds in place of an object: a mark, and an address. All zeros is a handle with nothing.
/// The address is looked at only where the mark is that of a handle with an object.
#[repr(C)]
pub struct Handle {
    mark: u64,
    pub place: Place,
    ghost tied: { is_some place.kept ≡ (mark == open_mark) },
}

impl Handle {
    /// A handle with nothing.
    pub(crate) fn none(alloc: Global) -> Handle
        ensures { result.place.kept ≡ None }
    {
        Handle {
            mark: 0,
            place: Place::none(alloc),
        }
    }

    /// A handle with an object.
    pub(crate) fn of(object: Box<Object>) -> Handle
        ensures { result.place.kept ≡ Some object.value }
    {
        Handle {
            mark: OPEN,
            place: Place::of_parts(Parts::of(object)),
        }
    }

    /// Whether the handle has an object.
    pub fn is_open(&self) -> bool
        ensures { result ≡ is_some self.now.place.kept }
    {
        self.mark == OPEN
    }

    /// Takes the object, if there is one: the handle has nothing then.
    pub fn take(&mut self, alloc: Global) -> Option<Box<Object>>
        ensures value { MatchOption result (self.old.place.kept ≡ None)
            (λ object. self.old.place.kept ≡ Some object.value) }
        ensures none { self.new.place.kept ≡ None }
    {
        if self.mark != OPEN {
            return None;
        }
        let Handle { mark: _, place } = replace(self, Handle::none(alloc));
        Some(place.into_parts().into_box())
    }

    /// Gives an object to a handle with nothing.
    pub fn put(&mut self, object: Box<Object>)
        requires { self.old.place.kept ≡ None }
        ensures { self.new.place.kept ≡ Some object.value }
    {
        let Handle { mark: _, place } = replace(self, Handle::of(object));
        place.let_go();
    }
}
