//! Why a slot holds no command.

use thiserror::Error;

/// Why a slot holds no command that the port can take. The first that applies is told.
#[derive(Clone, Copy, Debug, PartialEq, Eq, Error)]
pub enum FetchError {
    /// The command FIS does not have five words.
    #[error("the command FIS does not have five words")]
    BadLength,
    /// The command table does not stand in the memory, or not at a multiple of 128.
    #[error("the command table stands at no place for one")]
    BadAddress,
    /// An entry of the PRDT is odd or leaves the memory, or the entries are too many bytes.
    #[error("the descriptors of the data are wrong")]
    BadPrdt,
    /// What stands in the command table is no command FIS.
    #[error("the table holds no command")]
    BadFis,
}
