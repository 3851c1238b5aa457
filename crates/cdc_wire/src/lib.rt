//! CDC messages, by which the two ends of a connection tell each other how far they have come
//! (RFC 7609, appendix A.4).
//!
//! A message has 44 bytes and one spelling, in which reserved bytes are 0. A reader passes over
//! reserved bytes, so what was written is read again whatever they then hold. Numbers are
//! big-endian.
#![tactic(auto)]

ghost use Rattle.std.specs.Prelude.{◌≡◌, List, ℕ, Ok};
ghost use Rattle.cdc_wire.specs.declared.CdcMessage.{CdcMessage as Message};
ghost use Rattle.cdc_wire.specs.Cdc.{cdc_bytes, cdc_read, IsMessage, IsSpelling};

use arrayvec::ArrayVec;
use field_cases::{get, put};
pub use smc_num::Cursor;

/// Producer flag: the sender has bytes for which the peer's buffer has no room.
pub const WRITER_BLOCKED: u8 = 0x80;
/// Producer flag: urgent data is to come.
pub const URGENT_DATA_PENDING: u8 = 0x40;
/// Producer flag: urgent data is there.
pub const URGENT_DATA_PRESENT: u8 = 0x20;
/// Producer flag: the sender asks for the peer's cursors.
pub const CURSOR_UPDATE_REQUESTED: u8 = 0x10;
/// Producer flag: the message asks its taker to look for a gap after a move to another link.
pub const FAILOVER_VALIDATION: u8 = 0x08;

/// State flag: the sender will write no more.
pub const SENDING_DONE: u8 = 0x80;
/// State flag: the sender has closed.
pub const CLOSED: u8 = 0x40;
/// State flag: the sender has closed and dropped what was under way.
pub const ABNORMAL_CLOSE: u8 = 0x20;

// The type byte of a CDC message, and the length byte.
const TYPE: u8 = 0xfe;

const LENGTH: u8 = 44;

/// What an end tells its peer.
#[derive(Clone, Copy, Debug, PartialEq, Eq)]
pub struct CdcMessage {
    /// The sequence number.
    pub number: u16,
    /// The receiver's alert token for the connection.
    pub token: u32,
    /// The producer cursor: how far the sender's bytes go.
    pub told: Cursor,
    /// The consumer cursor: how far the sender has read its peer's bytes.
    pub read: Cursor,
    /// The producer flags.
    pub producer: u8,
    /// The connection state flags.
    pub state: u8,
}

/// Why bytes are no CDC message; the first of these that holds.
#[derive(Clone, Copy, Debug, PartialEq, Eq)]
pub enum CdcFault {
    /// The first byte is another than `fe`.
    BadType { value: u8 },
    /// The second byte is another than 44.
    BadLength { value: u8 },
}

/// The one spelling of the message.
pub fn write_cdc(message: &CdcMessage) -> [u8; 44]
    ensures { result ≡ cdc_bytes message.now }
{
    let mut out: ArrayVec<u8, 44> = ArrayVec::new();
    put!(&mut out; u8 TYPE, u8 LENGTH, u16 message.number, u32 message.token);
    put!(&mut out; u16 0, u16 message.told.wrap, u32 message.told.count);
    put!(&mut out; u16 0, u16 message.read.wrap, u32 message.read.count);
    put!(&mut out; u8 message.producer, u8 message.state, bytes &[0; 18]);
    match out.into_inner() {
        Ok(bytes) => bytes,
        Err(_) => unreachable!(),
    }
}

/// The message that the bytes spell. Reserved bytes may hold anything.
pub fn read_cdc(bytes: &[u8; 44]) -> Result<CdcMessage, CdcFault>
    ensures { result ≡ cdc_read bytes.now }
{
    if bytes[0] != TYPE {
        return Err(CdcFault::BadType { value: bytes[0] });
    }
    if bytes[1] != LENGTH {
        return Err(CdcFault::BadLength { value: bytes[1] });
    }
    Ok(CdcMessage {
        number: get!(bytes; u16 at 2),
        token: get!(bytes; u32 at 4),
        told: Cursor {
            wrap: get!(bytes; u16 at 10),
            count: get!(bytes; u32 at 12),
        },
        read: Cursor {
            wrap: get!(bytes; u16 at 18),
            count: get!(bytes; u32 at 20),
        },
        producer: get!(bytes; u8 at 24),
        state: get!(bytes; u8 at 25),
    })
}

/// What was written is read as the message, whatever the reserved bytes then hold.
pub fn what_was_written_is_read()
    ensures written { (m : Message) → IsSpelling (cdc_bytes m) m }
    ensures read { (m : Message) (bytes : List ℕ) → IsMessage m → IsSpelling bytes m → cdc_read bytes ≡ Ok m }
{}
