//! What the message codecs and the flow tables share: macros that append and read the fixed
//! big-endian fields of messages, and decision tables that are checked to have exactly one row for
//! each case.
#![tactic(auto)]

mod fields;
mod table;

pub use byteorder::{BigEndian, ByteOrder};
pub use fields::{append_bytes, append_u8, append_u16, append_u24, append_u32, append_u64};
pub use table::{Cases, Row, RowFault, Sound};
