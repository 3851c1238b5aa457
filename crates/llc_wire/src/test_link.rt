//! TEST LINK: whether the peer still answers on a link.

ghost use Rattle.std.specs.Prelude.{◌≡◌};
ghost use Rattle.llc_wire.specs.TestLink.{test_link_bytes, test_link_at};

use crate::{LlcMessage, frame};
use arrayvec::ArrayVec;
use field_cases::{get, put};

pub(crate) const TYPE: u8 = 7;

pub(crate) fn write(reply: bool, test: &[u8; 16]) -> [u8; 44]
    ensures { result ≡ test_link_bytes reply test.now }
{
    let mut out: ArrayVec<u8, 44> = ArrayVec::new();
    let flags = frame::flag(reply, frame::REPLY);
    put!(&mut out; u8 TYPE, u8 frame::LENGTH, u8 0, u8 flags, bytes test, bytes &[0; 24]);
    frame::whole(out)
}

pub(crate) fn read(bytes: &[u8; 44]) -> LlcMessage
    ensures { result ≡ test_link_at bytes.now }
{
    LlcMessage::TestLink {
        reply: frame::has(bytes[3], frame::REPLY),
        bytes: get!(bytes; 16 bytes at 4),
    }
}
