//! Where the host's memory fails an HBA (AHCI 1.3.1, 6.1).

/// What of the host's memory was not there.
#[derive(Clone, Copy, Debug, PartialEq, Eq)]
pub enum Miss {
    /// The command header.
    List,
    /// The command table, or a descriptor of the PRDT.
    Table,
    /// A block of data.
    Block,
    /// Bytes past those that the PRDT names.
    Overflow,
    /// The place of a received FIS.
    Fis,
}
