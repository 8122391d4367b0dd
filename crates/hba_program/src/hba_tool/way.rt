//! How a host is served.

ghost use Rattle.std.specs.Prelude.{◌≡◌};
ghost use Rattle.hba_program.specs.Ways.{way_by};

use hba::AddressWidth;

/// How a host is served: whether behind what was refused stands why, and how many bits the controller's addresses have.
#[derive(Clone, Copy, Debug, PartialEq, Eq)]
pub struct Way {
    pub explains: bool,
    pub width: AddressWidth,
}

impl Way {
    /// With reasons or without, and with CAP.S64A or without.
    pub fn new(explains: bool, is_wide: bool) -> Way
        ensures { result ≡ way_by explains is_wide }
    {
        Way {
            explains,
            width: AddressWidth::by(is_wide),
        }
    }
}
