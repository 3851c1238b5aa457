//! ADD LINK CONTINUATION: each side tells its keys for the new link.

ghost use Rattle.std.specs.Prelude.{◌≡◌, ◌+◌, ◌≤◌, ◌++◌, length};
ghost use Rattle.llc_wire.specs.AddKeys.{add_keys_bytes, add_keys_read, new_key_bytes, new_key_at};

use crate::{LlcFault, LlcMessage, NewKey, frame};
use arrayvec::ArrayVec;
use field_cases::{get, put};

pub(crate) const TYPE: u8 = 3;

const MOST: u8 = 2;

pub(crate) fn write(reply: bool, link: u8, count: u8, keys: &[NewKey; 2]) -> [u8; 44]
    ensures { result ≡ add_keys_bytes reply link count keys.now }
{
    let mut out: ArrayVec<u8, 44> = ArrayVec::new();
    let flags = frame::flag(reply, frame::REPLY);
    put!(&mut out; u8 TYPE, u8 frame::LENGTH, u8 0, u8 flags, u8 link, u8 count, u16 0);
    append_new_key(&mut out, &keys[0]);
    append_new_key(&mut out, &keys[1]);
    put!(&mut out; u32 0);
    frame::whole(out)
}

fn append_new_key(out: &mut ArrayVec<u8, 44>, key: &NewKey)
    requires { length out.old.items + 16 ≤ 44 }
    ensures { out.new.items ≡ out.old.items ++ new_key_bytes key.now }
{
    put!(out; u32 key.reference, u32 key.fresh, u64 key.address);
}

pub(crate) fn read(bytes: &[u8; 44]) -> Result<LlcMessage, LlcFault>
    ensures { result ≡ add_keys_read bytes.now }
{
    let count = get!(bytes; u8 at 5);
    if count > MOST {
        return Err(LlcFault::BadCount { value: count });
    }
    Ok(LlcMessage::AddKeys {
        reply: frame::has(bytes[3], frame::REPLY),
        link: get!(bytes; u8 at 4),
        count,
        keys: [new_key_at(bytes, 8), new_key_at(bytes, 24)],
    })
}

fn new_key_at(bytes: &[u8; 44], place: usize) -> NewKey
    requires { place + 16 ≤ 44 }
    ensures { result ≡ new_key_at place bytes.now }
{
    NewKey {
        reference: get!(bytes; u32 at place),
        fresh: get!(bytes; u32 at place + 4),
        address: get!(bytes; u64 at place + 8),
    }
}
