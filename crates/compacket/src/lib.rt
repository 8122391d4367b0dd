//! ComPackets of the TCG Storage protocol (TCG Core 2.01, 3.2.3): a frame is a ComPacket that
//! carries one packet that carries one data subpacket that carries the payload.
#![tactic(auto)]

mod error;
mod headers;
mod padding;
mod reader;
mod session;
mod writer;

pub use error::FrameError;
pub use headers::{COM_PACKET_HEADER, HEADERS, MAX_COM_PACKET, empty_header, short_header};
pub use reader::{broken, laws_of_orders, open};
pub use session::{ComId, Named, Opened, Session};
pub use writer::{
    MAX_PAYLOAD, frame, frame_into, frame_len, headers_before, headers_room, laws_of_limits,
    padding_into,
};
