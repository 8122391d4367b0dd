//! Lines of a script, as they are read and as they are printed. Nothing here knows of a drive.
#![tactic(auto)]

mod fault;
mod field;
mod hex_text;
mod laws;
mod line;
pub mod named_lines;
mod number;
mod port_line;
mod remark;
mod report;
mod verb;
mod words;

pub use fault::LineFault;
pub use field::{Field, MOST_CALL_BYTES, MOST_SEND_BYTES, laws_of_limits};
pub use hex_text::Hex;
pub use laws::{laws_of_good_lines, laws_of_lines, laws_of_words};
pub use line::{DmaTransfer, Line, Reset, Transfer, expected_text};
pub use number::number_up_to;
pub use port_line::{PortLine, PutRequest, is_port_line};
pub use remark::is_remark;
pub use report::{Report, write_whole};
pub use words::Words;
