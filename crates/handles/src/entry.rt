//! A number, and what is known of the place that it names.

ghost use Rattle.std.specs.Prelude.{◌≡◌};
ghost use Rattle.handles.specs.Numbers.{can_give, is_numbered};

/// A number that stands for an object: a place of the table, and which of the numbers given of this place it is.
#[derive(Clone, Copy, Debug, PartialEq, Eq)]
pub struct Number {
    pub place: usize,
    /// From 1 on. No number with 0 is given.
    pub generation: u64,
}

/// What is known of a place. All zeros is one of which no number was given.
#[repr(C)]
#[derive(Clone, Copy, Debug, PartialEq, Eq)]
pub struct Entry {
    /// How many numbers were given of the place.
    pub generation: u64,
    /// Whether the latest of them is of an object.
    pub is_live: bool,
    /// Whether this object is lent to a call.
    pub is_lent: bool,
}

impl Entry {
    ghost use Rattle.std.specs.Prelude.{◌≡◌};
    ghost use Rattle.handles.specs.Numbers.{can_give, is_numbered};

    /// Whether a number can be given of the place: none is of an object, and there is a next one.
    pub(crate) fn can_give(self) -> bool
        ensures { result ≡ can_give self }
    {
        !self.is_live && self.generation < u64::MAX
    }

    /// Whether the number that was given at this count is of an object.
    pub(crate) fn is_numbered(self, generation: u64) -> bool
        ensures { result ≡ is_numbered generation self }
    {
        self.is_live && generation != 0 && self.generation == generation
    }
}
