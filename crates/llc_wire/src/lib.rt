//! LLC messages, by which two peers add, confirm, test and delete the links of a group and the keys
//! of their buffers (RFC 7609, appendix A.3).
//!
//! A message has 44 bytes and one spelling, in which reserved bytes and bits are 0. A reader keeps
//! every named field as it stands and passes over the reserved ones, so what was written is read
//! again whatever they then hold. Numbers are big-endian.
#![tactic(auto)]

ghost use Rattle.std.specs.Prelude.{◌≡◌, ◌<◌, List, ℕ, Ok};
ghost use Rattle.llc_wire.specs.declared.LlcMessage.{LlcMessage as Message};
ghost use Rattle.llc_wire.specs.Llc.{Fits, IsMessage, IsReadable, IsSpelling, is_llc_type, llc_bytes, llc_read};

mod add_keys;
mod add_link;
mod confirm_link;
mod confirm_rkey;
mod delete_link;
mod delete_rkey;
mod frame;
mod test_link;

/// Reason of a rejecting ADD LINK: there is no alternate path.
pub const NO_ALTERNATE_PATH: u8 = 1;

/// Reason of a DELETE LINK: the path was lost.
pub const LOST_PATH: u32 = 0x0001_0000;
/// Reason of a DELETE LINK: an operator asked for it.
pub const OPERATOR: u32 = 0x0002_0000;
/// Reason of a DELETE LINK: a program asked for it.
pub const PROGRAM: u32 = 0x0003_0000;
/// Reason of a DELETE LINK: the peer broke the protocol.
pub const PROTOCOL_VIOLATION: u32 = 0x0004_0000;
/// Reason of a DELETE LINK: the group needs no asymmetric link any more.
pub const NO_ASYMMETRIC_LINK_NEEDED: u32 = 0x0005_0000;

/// A message between two link group managers. `reply` is set in an answer. Queue pair numbers
/// (`qp`) and packet sequence numbers (`psn`) have 24 bits, `link` is a link's number in its group.
/// Here `psn` carries the number of the link group, since the fabric in memory has no packet sequence.
#[derive(Clone, Copy, Debug, PartialEq, Eq)]
pub enum LlcMessage {
    /// CONFIRM LINK: `user` is the group's id at the sender, `most` how many links it will have.
    ConfirmLink {
        reply: bool,
        mac: [u8; 6],
        gid: [u8; 16],
        qp: u32,
        link: u8,
        user: u32,
        most: u8,
    },
    /// ADD LINK: an answer may be `rejected`, with a `reason` of 4 bits that is else 0. `mtu` is a
    /// code of 4 bits.
    AddLink {
        reply: bool,
        rejected: bool,
        reason: u8,
        mac: [u8; 6],
        gid: [u8; 16],
        qp: u32,
        link: u8,
        mtu: u8,
        psn: u32,
    },
    /// ADD LINK CONTINUATION: `count` of the keys, at most 2, are in use.
    AddKeys {
        reply: bool,
        link: u8,
        count: u8,
        keys: [NewKey; 2],
    },
    /// DELETE LINK: of `all` links or one, `orderly` or not.
    DeleteLink {
        reply: bool,
        all: bool,
        orderly: bool,
        link: u8,
        reason: u32,
    },
    /// CONFIRM RKEY: the key of a buffer for the link that carries the message, and those for
    /// `others`, at most 2, other links. The first token's number is `others`.
    ConfirmRkey {
        reply: bool,
        retry: bool,
        negative: bool,
        others: u8,
        tokens: [KeyToken; 3],
    },
    /// TEST LINK: bytes that the answer repeats.
    TestLink {
        reply: bool,
        bytes: [u8; 16],
    },
    /// DELETE RKEY: `count` of the keys, at most 8, are in use. Bit i of `mask`, from the high end,
    /// tells in an answer that key i was not known.
    DeleteRkey {
        reply: bool,
        negative: bool,
        count: u8,
        mask: u8,
        keys: [u32; 8],
    },
}

/// A buffer's key for a new link, told beside its key for the link that carries the message, the
/// reference key.
#[derive(Clone, Copy, Debug, PartialEq, Eq)]
pub struct NewKey {
    pub reference: u32,
    pub fresh: u32,
    pub address: u64,
}

/// A buffer's key for the link of a number.
#[derive(Clone, Copy, Debug, PartialEq, Eq)]
pub struct KeyToken {
    pub number: u8,
    pub key: u32,
    pub address: u64,
}

/// Why bytes are no LLC message; the first of these that holds.
#[derive(Clone, Copy, Debug, PartialEq, Eq)]
pub enum LlcFault {
    /// The first byte is the type of no message.
    BadType { value: u8 },
    /// The second byte is another than 44.
    BadLength { value: u8 },
    /// More keys or links are counted than the message has room for.
    BadCount { value: u8 },
}

/// The one spelling of the message. Its queue pair number and packet sequence number fit 24 bits,
/// its MTU code and reason 4 bits.
pub fn write_llc(message: &LlcMessage) -> [u8; 44]
    requires { Fits message.now }
    ensures { result ≡ llc_bytes message.now }
{
    match message {
        LlcMessage::ConfirmLink {
            reply,
            mac,
            gid,
            qp,
            link,
            user,
            most,
        } => confirm_link::write(*reply, mac, gid, *qp, *link, *user, *most),
        LlcMessage::AddLink {
            reply,
            rejected,
            reason,
            mac,
            gid,
            qp,
            link,
            mtu,
            psn,
        } => add_link::write(*reply, *rejected, *reason, mac, gid, *qp, *link, *mtu, *psn),
        LlcMessage::AddKeys {
            reply,
            link,
            count,
            keys,
        } => add_keys::write(*reply, *link, *count, keys),
        LlcMessage::DeleteLink {
            reply,
            all,
            orderly,
            link,
            reason,
        } => delete_link::write(*reply, *all, *orderly, *link, *reason),
        LlcMessage::ConfirmRkey {
            reply,
            retry,
            negative,
            others,
            tokens,
        } => confirm_rkey::write(*reply, *retry, *negative, *others, tokens),
        LlcMessage::TestLink { reply, bytes } => test_link::write(*reply, bytes),
        LlcMessage::DeleteRkey {
            reply,
            negative,
            count,
            mask,
            keys,
        } => delete_rkey::write(*reply, *negative, *count, *mask, keys),
    }
}

/// The message that the bytes spell. Named fields are kept as they stand, entries that are not in
/// use too; reserved bytes and bits may hold anything.
pub fn read_llc(bytes: &[u8; 44]) -> Result<LlcMessage, LlcFault>
    ensures { result ≡ llc_read bytes.now }
{
    let kind = bytes[0];
    if !is_type(kind) {
        return Err(LlcFault::BadType { value: kind });
    }
    if bytes[1] != frame::LENGTH {
        return Err(LlcFault::BadLength { value: bytes[1] });
    }
    match kind {
        confirm_link::TYPE => Ok(confirm_link::read(bytes)),
        add_link::TYPE => Ok(add_link::read(bytes)),
        add_keys::TYPE => add_keys::read(bytes),
        delete_link::TYPE => Ok(delete_link::read(bytes)),
        confirm_rkey::TYPE => confirm_rkey::read(bytes),
        test_link::TYPE => Ok(test_link::read(bytes)),
        _ => delete_rkey::read(bytes),
    }
}

// Whether the byte is the type of a message.
fn is_type(kind: u8) -> bool
    ensures { result ≡ is_llc_type kind }
{
    matches!(
        kind,
        confirm_link::TYPE
            | add_link::TYPE
            | add_keys::TYPE
            | delete_link::TYPE
            | confirm_rkey::TYPE
            | test_link::TYPE
            | delete_rkey::TYPE
    )
}

/// What was written is read as the message, whatever the reserved bytes and bits then hold.
pub fn what_was_written_is_read()
    ensures written { (m : Message) → IsMessage m → Fits m → IsSpelling (llc_bytes m) m }
    ensures read { (m : Message) (bytes : List ℕ) → IsMessage m → Fits m → IsReadable m
        → IsSpelling bytes m → llc_read bytes ≡ Ok m }
{}
