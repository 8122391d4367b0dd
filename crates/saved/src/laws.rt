//! What follows from the form of saved drives.

ghost use Rattle.saved.specs.Saved.{OneRestLaw, SameDriveLaw};

/// Laws of saved drives.
///
/// `one`: the same bytes are what one drive keeps, and no other. `same`: of two drives that the same bytes say, what is
/// true of the acts of the one is true of those of the other.
pub fn laws_of_saving()
    ensures one { OneRestLaw }
    ensures same { SameDriveLaw }
{}
