//! What a slot holds.

use fis::H2D_LENGTH;

/// What a slot holds.
#[derive(Clone, Copy, Debug, PartialEq, Eq)]
pub struct Fetched {
    /// The command FIS.
    pub fis: [u8; H2D_LENGTH],
    /// Whether the data go to the device.
    pub write: bool,
    /// How many bytes of data there is room for.
    pub len: u32,
}
