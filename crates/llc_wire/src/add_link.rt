//! ADD LINK: the server offers a new link, and the client accepts or rejects it.

ghost use Rattle.std.specs.Prelude.{◌≡◌, ◌<◌, ◌^◌};
ghost use Rattle.llc_wire.specs.AddLink.{add_link_bytes, add_link_at, reason_where};

use crate::{LlcMessage, frame};
use arrayvec::ArrayVec;
use field_cases::{get, put};

pub(crate) const TYPE: u8 = 2;

const REJECTED: u8 = 0x40;

#[allow(clippy::too_many_arguments)]
pub(crate) fn write(
    reply: bool,
    rejected: bool,
    reason: u8,
    mac: &[u8; 6],
    gid: &[u8; 16],
    qp: u32,
    link: u8,
    mtu: u8,
    psn: u32,
) -> [u8; 44]
    requires pair { qp < 2 ^ 24 }
    requires sequence { psn < 2 ^ 24 }
    ensures { result ≡ add_link_bytes reply rejected reason mac.now gid.now qp link mtu psn }
{
    let mut out: ArrayVec<u8, 44> = ArrayVec::new();
    let flags = frame::flag(reply, frame::REPLY) + frame::flag(rejected, REJECTED);
    put!(&mut out; u8 TYPE, u8 frame::LENGTH, u8 reason_where(rejected, reason), u8 flags);
    put!(&mut out; bytes mac, u16 0, bytes gid, u24 qp, u8 link, u8 mtu, u24 psn, bytes &[0; 8]);
    frame::whole(out)
}

pub(crate) fn read(bytes: &[u8; 44]) -> LlcMessage
    ensures { result ≡ add_link_at bytes.now }
{
    let rejected = frame::has(bytes[3], REJECTED);
    LlcMessage::AddLink {
        reply: frame::has(bytes[3], frame::REPLY),
        rejected,
        reason: reason_where(rejected, bytes[2] % 16),
        mac: frame::mac_at(bytes, 4),
        gid: frame::gid_at(bytes, 12),
        qp: get!(bytes; u24 at 28),
        link: get!(bytes; u8 at 31),
        mtu: bytes[32] % 16,
        psn: get!(bytes; u24 at 33),
    }
}

// The reason where the offer is rejected, and else none.
fn reason_where(rejected: bool, reason: u8) -> u8
    ensures { result ≡ reason_where rejected reason }
{
    if rejected { reason } else { 0 }
}
