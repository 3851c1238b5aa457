//! CONFIRM LINK: the first message on a new link.

ghost use Rattle.std.specs.Prelude.{◌≡◌, ◌<◌, ◌^◌};
ghost use Rattle.llc_wire.specs.ConfirmLink.{confirm_link_bytes, confirm_link_at};

use crate::{LlcMessage, frame};
use arrayvec::ArrayVec;
use field_cases::{get, put};

pub(crate) const TYPE: u8 = 1;

pub(crate) fn write(
    reply: bool,
    mac: &[u8; 6],
    gid: &[u8; 16],
    qp: u32,
    link: u8,
    user: u32,
    most: u8,
) -> [u8; 44]
    requires { qp < 2 ^ 24 }
    ensures { result ≡ confirm_link_bytes reply mac.now gid.now qp link user most }
{
    let mut out: ArrayVec<u8, 44> = ArrayVec::new();
    let flags = frame::flag(reply, frame::REPLY);
    put!(&mut out; u8 TYPE, u8 frame::LENGTH, u8 0, u8 flags, bytes mac, bytes gid);
    put!(&mut out; u24 qp, u8 link, u32 user, u8 most, bytes &[0; 9]);
    frame::whole(out)
}

pub(crate) fn read(bytes: &[u8; 44]) -> LlcMessage
    ensures { result ≡ confirm_link_at bytes.now }
{
    LlcMessage::ConfirmLink {
        reply: frame::has(bytes[3], frame::REPLY),
        mac: frame::mac_at(bytes, 4),
        gid: frame::gid_at(bytes, 10),
        qp: get!(bytes; u24 at 26),
        link: get!(bytes; u8 at 29),
        user: get!(bytes; u32 at 30),
        most: get!(bytes; u8 at 34),
    }
}
