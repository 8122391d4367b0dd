//! Why a call from outside is refused.

ghost use Rattle.std.specs.Prelude.{◌≡◌};
ghost use Rattle.library_calls.specs.Refusals.{code_of_call};
ghost use Rattle.library_calls.specs.declared.byte_calls.error.CallError.TheVariants.{OutOfMemory};

use std::alloc::AllocError;

/// Why a call from outside is refused. Nothing was done then.
#[derive(Clone, Copy, Debug, PartialEq, Eq)]
pub enum CallError {
    /// An allocation was refused.
    OutOfMemory,
    /// The handle has nothing: nothing was made at it, or it was freed.
    NotOpen,
    /// What the handle has is of another kind.
    OtherKind,
    /// A pointer is null. The header of the C library looks for it, before any call.
    Null,
    /// A FIS has not its 20 bytes, or a payload not as many as its command brings.
    Length,
    /// A tag is above 31.
    Tag,
    /// A number is none of those that the call takes.
    Number,
    /// No command is held under the tag.
    NotHeld,
    /// The buffer is too short for what is to be written there.
    Room,
    /// The handle has something already.
    InUse,
    /// There is no such range.
    NoRange,
    /// Two ranges have a sector in common.
    Overlap,
    /// A range ends beyond the drive, or the global range has a place of its own.
    Beyond,
    /// The bytes are not what they are to be.
    Malformed,
    /// A drive has 1 to 2^48 sectors.
    Sectors,
    /// The shadow MBR has at most 262,144 sectors, of a drive of the profile `Opal` just so many, and at most all of the drive.
    Shadow,
    /// The MSID has 1 to 32 bytes.
    Msid,
    /// The number is that of no profile.
    Profile,
    /// The serial number has at most 20 characters of printable ASCII. The profile `Base` is given none, here and below.
    Serial,
    /// The model number has at most 40.
    Model,
    /// The PIN on the label has at most 32 bytes.
    Psid,
    /// DataStore has at most 16,777,216 bytes, and of a drive of the profile `Opal` at least 10,485,760.
    Datastore,
    /// Two rows are of one range.
    RangeTwice,
    /// The caller was made for another version of the library. The header of the C library looks for it, before any call.
    VersionDiffers,
    /// A buffer that is written has a byte in common with another one, or with the handle. The header looks for it.
    Shared,
    /// A pointer to a struct is not aligned. The header looks for it.
    Misaligned,
    /// Another call is at work on the object of the handle.
    Busy,
    /// Only the profile `Opal` is given a seed other than 0.
    Seed,
}

impl CallError {
    /// The number of the refusal, in the order of the variants. 11 stood for the limits of a drive before each had its own.
    pub fn code(self) -> u32
        ensures { result ≡ code_of_call self }
    {
        match self {
            CallError::OutOfMemory => 1,
            CallError::NotOpen => 2,
            CallError::OtherKind => 3,
            CallError::Null => 4,
            CallError::Length => 5,
            CallError::Tag => 6,
            CallError::Number => 7,
            CallError::NotHeld => 8,
            CallError::Room => 9,
            CallError::InUse => 10,
            CallError::NoRange => 12,
            CallError::Overlap => 13,
            CallError::Beyond => 14,
            CallError::Malformed => 15,
            CallError::Sectors => 16,
            CallError::Shadow => 17,
            CallError::Msid => 18,
            CallError::Profile => 19,
            CallError::Serial => 20,
            CallError::Model => 21,
            CallError::Psid => 22,
            CallError::Datastore => 23,
            CallError::RangeTwice => 24,
            CallError::VersionDiffers => 25,
            CallError::Shared => 26,
            CallError::Misaligned => 27,
            CallError::Busy => 28,
            CallError::Seed => 29,
        }
    }
}

impl From<AllocError> for CallError {
    ghost from_gives = { λ _ e. e ≡ OutOfMemory };

    fn from(_error: AllocError) -> CallError {
        CallError::OutOfMemory
    }
}
