//! What names a session, and what a frame carries.

/// The number of a communication channel (TCG Core 2.01, 3.2.3).
pub type ComId = u16;

/// The two numbers that name a session (TCG Core 2.01, 3.2.3): the one that the TPer gave it, and
/// the one that the host gave it. Both are 0 for the session manager.
#[derive(Clone, Copy, Debug, PartialEq, Eq)]
pub struct Session {
    pub tsn: u32,
    pub hsn: u32,
}

/// What a frame carries, read from its bytes. The payload is a part of those bytes.
#[derive(Clone, Copy, Debug, PartialEq, Eq)]
pub struct Opened<'a> {
    pub com_id: ComId,
    pub session: Session,
    pub payload: &'a [u8],
}

/// What the headers of a ComPacket name.
#[derive(Clone, Copy, Debug, PartialEq, Eq)]
pub struct Named {
    pub com_id: ComId,
    pub session: Session,
}
