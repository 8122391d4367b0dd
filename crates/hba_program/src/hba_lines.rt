//! Lines between a controller and its host: requests, what the controller answers, and what moves in the host's memory.

mod digits;
mod laws;
mod memory_line;
mod reply;
mod request;
mod words;

pub use digits::hex_number;
pub use laws::laws_of_numbers;
pub use memory_line::{Answer, append_read, append_write, read_answer, write_answer};
pub use reply::{MemoryPart, Reply, append_error};
pub use request::{Request, RequestFault};
