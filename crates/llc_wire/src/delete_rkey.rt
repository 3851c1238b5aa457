//! DELETE RKEY: a side takes keys back.

ghost use Rattle.std.specs.Prelude.{◌≡◌, ◌+◌, ◌*◌, ◌≤◌, ◌++◌, length};
ghost use Rattle.llc_wire.specs.DeleteRkey.{delete_rkey_bytes, delete_rkey_read, keys_bytes};

use crate::{LlcFault, LlcMessage, frame};
use arrayvec::ArrayVec;
use field_cases::{get, put};

pub(crate) const TYPE: u8 = 9;

const MOST: u8 = 8;

const NEGATIVE: u8 = 0x20;

pub(crate) fn write(reply: bool, negative: bool, count: u8, mask: u8, keys: &[u32; 8]) -> [u8; 44]
    ensures { result ≡ delete_rkey_bytes reply negative count mask keys.now }
{
    let mut out: ArrayVec<u8, 44> = ArrayVec::new();
    let flags = frame::flag(reply, frame::REPLY) + frame::flag(negative, NEGATIVE);
    put!(&mut out; u8 TYPE, u8 frame::LENGTH, u8 0, u8 flags, u8 count, u8 mask, u16 0);
    append_keys(&mut out, keys);
    put!(&mut out; u32 0);
    frame::whole(out)
}

fn append_keys(out: &mut ArrayVec<u8, 44>, keys: &[u32])
    requires { length out.old.items + 4 * length keys.now ≤ 44 }
    ensures appended { out.new.items ≡ out.old.items ++ keys_bytes keys.now }
    ensures len { length out.new.items ≡ length out.old.items + 4 * length keys.now }
{
    for key in keys {
        put!(out; u32 *key);
    }
}

pub(crate) fn read(bytes: &[u8; 44]) -> Result<LlcMessage, LlcFault>
    ensures { result ≡ delete_rkey_read bytes.now }
{
    let count = get!(bytes; u8 at 4);
    if count > MOST {
        return Err(LlcFault::BadCount { value: count });
    }
    Ok(LlcMessage::DeleteRkey {
        reply: frame::has(bytes[3], frame::REPLY),
        negative: frame::has(bytes[3], NEGATIVE),
        count,
        mask: get!(bytes; u8 at 5),
        keys: [
            get!(bytes; u32 at 8),
            get!(bytes; u32 at 12),
            get!(bytes; u32 at 16),
            get!(bytes; u32 at 20),
            get!(bytes; u32 at 24),
            get!(bytes; u32 at 28),
            get!(bytes; u32 at 32),
            get!(bytes; u32 at 36),
        ],
    })
}
