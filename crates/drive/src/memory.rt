//! Memory of answers, which is given back.

ghost use Rattle.std.specs.Prelude.{◌≡◌};

use crate::drive::Drive;
use std::mem::swap;

impl Drive {
    /// Takes back the vector of an answer: the next read or response puts its bytes there, and takes no
    /// memory where there is room.
    pub fn give_back(&mut self, bytes: Vec<u8>)
        ensures { self.new ≡ self.old }
    {
        if self.spare.capacity() < bytes.capacity() {
            self.spare = bytes;
        }
    }

    /// [`Drive::give_back`] of a vector that stays where it is: what it holds then is not said.
    pub fn give_back_from(&mut self, bytes: &mut Vec<u8>)
        ensures { self.new ≡ self.old }
    {
        if self.spare.capacity() < bytes.capacity() {
            swap(&mut self.spare, bytes);
        }
    }
}
