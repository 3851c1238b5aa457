//! DELETE LINK: a link is given up.

ghost use Rattle.std.specs.Prelude.{◌≡◌};
ghost use Rattle.llc_wire.specs.DeleteLink.{delete_link_bytes, delete_link_at};

use crate::{LlcMessage, frame};
use arrayvec::ArrayVec;
use field_cases::{get, put};

pub(crate) const TYPE: u8 = 4;

const ALL: u8 = 0x40;

const ORDERLY: u8 = 0x20;

pub(crate) fn write(reply: bool, all: bool, orderly: bool, link: u8, reason: u32) -> [u8; 44]
    ensures { result ≡ delete_link_bytes reply all orderly link reason }
{
    let mut out: ArrayVec<u8, 44> = ArrayVec::new();
    let flags = frame::flag(reply, frame::REPLY)
        + frame::flag(all, ALL)
        + frame::flag(orderly, ORDERLY);
    put!(&mut out; u8 TYPE, u8 frame::LENGTH, u8 0, u8 flags, u8 link, u32 reason, bytes &[0; 35]);
    frame::whole(out)
}

pub(crate) fn read(bytes: &[u8; 44]) -> LlcMessage
    ensures { result ≡ delete_link_at bytes.now }
{
    LlcMessage::DeleteLink {
        reply: frame::has(bytes[3], frame::REPLY),
        all: frame::has(bytes[3], ALL),
        orderly: frame::has(bytes[3], ORDERLY),
        link: get!(bytes; u8 at 4),
        reason: get!(bytes; u32 at 5),
    }
}
